//! What is said of a name that isn't there, or is there already.

use crate::cause::Cause;
use crate::rows::{tell, tell_two};
use st_messages::{
    Draft, FUNCTION_NAMES, Lexed, Nearest, Slot, TYPE_NAMES, function_left_out, push_shown,
    type_left_out,
};
use st_scopes::{Scope, Tables};
use st_sites::{Site, reached};
use st_tree::tree::{Body, ChartElement, Expression, VarKind, Variable};
use st_types::{Base, NamedUnit, Purpose, Shape, StandardBlock, UnitKind, standard_of};
use std::alloc::{AllocError, Global};

/// Says that a name isn't there, and which one is near.
pub fn explain_unknown(
    alloc: Global,
    draft: &mut Draft,
    lexed: Lexed<'_>,
    tables: &Tables<'_>,
    scope: &Scope<'_>,
    unit: usize,
    at: u32,
    site: Option<Site<'_>>,
) -> Result<(), AllocError> {
    let name = lexed.spelling(at);
    let mut nearest = Nearest::new(alloc, name);
    match site {
        Some(Site::Type(_)) => say_type(draft, &mut nearest, tables, name),
        Some(Site::Call(_) | Site::Expression(Expression::Call(_), _)) => {
            say_function(draft, &mut nearest, tables, unit, name);
        }
        Some(Site::Part(variable, number)) => {
            let whole = reached(scope, variable, number);
            say_member(alloc, draft, &mut nearest, tables, variable, whole, name)?;
        }
        _ => say_variable(draft, &mut nearest, tables, unit, name),
    }
    tell_near(draft, Cause::Near, &nearest);
    Ok(())
}

/// Asks whether the nearest name was meant, in the words of this row, where one is near.
pub fn tell_near(draft: &mut Draft, cause: Cause, nearest: &Nearest<'_>) {
    match nearest.get() {
        Ok(Some(name)) => tell(draft, cause, &[Slot::Bytes(name)]),
        Ok(None) => {}
        Err(_) => draft.fail(),
    }
}

/// Says that the standard has a name and this profile hasn't, where there is something to use in its place. Answers whether there is.
fn say_left_out(draft: &mut Draft, name: &[u8], help: Option<&'static str>) -> bool {
    match help {
        Some(help) => {
            tell(
                draft,
                Cause::LeftOut,
                &[Slot::Name(name), Slot::Words(help)],
            );
            true
        }
        None => false,
    }
}

/// Says that there is no type of this name.
fn say_type<'n>(draft: &mut Draft, nearest: &mut Nearest<'n>, tables: &'n Tables<'_>, name: &[u8]) {
    if say_left_out(draft, name, type_left_out(name)) {
        return;
    }
    tell(draft, Cause::NoType, &[Slot::Name(name)]);
    for unit in tables.units() {
        if let UnitKind::Type(_) | UnitKind::Block(_) = unit.kind {
            nearest.offer(unit.name.spelling.as_slice());
        }
    }
    for standard in &TYPE_NAMES {
        nearest.offer(standard);
    }
}

/// Says that there is no function or instance of this name.
fn say_function<'n>(
    draft: &mut Draft,
    nearest: &mut Nearest<'n>,
    tables: &'n Tables<'_>,
    unit: usize,
    name: &[u8],
) {
    if say_left_out(draft, name, function_left_out(name)) {
        return;
    }
    tell(draft, Cause::NoFunction, &[Slot::Name(name)]);
    for unit in tables.units() {
        if let UnitKind::Function(_) = unit.kind {
            nearest.offer(unit.name.spelling.as_slice());
        }
    }
    for standard in &FUNCTION_NAMES {
        nearest.offer(standard);
    }
    offer_variables(nearest, tables, unit);
}

/// Offers the names of the variables of a unit.
fn offer_variables<'n>(nearest: &mut Nearest<'n>, tables: &'n Tables<'_>, unit: usize) {
    if unit < tables.len() {
        for declared in tables.declared(unit) {
            nearest.offer(declared.name.spelling.as_slice());
        }
    }
}

/// Offers the names of the steps of a unit, and those of its actions where they are meant too.
pub fn offer_steps<'n>(nearest: &mut Nearest<'n>, unit: NamedUnit<'n>, with_actions: bool) {
    let (UnitKind::Block(pou) | UnitKind::Program(pou)) = unit.kind else {
        return;
    };
    if let Body::Chart(elements) = &pou.body {
        for element in elements.as_slice() {
            match element {
                ChartElement::Step(step) => nearest.offer(step.name.spelling.as_slice()),
                ChartElement::Action(action) if with_actions => {
                    nearest.offer(action.name.spelling.as_slice());
                }
                _ => {}
            }
        }
    }
}

/// Says that there is no variable of this name.
fn say_variable<'n>(
    draft: &mut Draft,
    nearest: &mut Nearest<'n>,
    tables: &'n Tables<'_>,
    unit: usize,
    name: &[u8],
) {
    if unit >= tables.len() {
        return tell(draft, Cause::NoVariable, &[Slot::Name(name)]);
    }
    let own = tables.unit(unit).name.spelling.as_slice();
    tell_two(
        draft,
        Cause::NoVariableIn,
        Slot::Name(name),
        Slot::Name(own),
    );
    offer_variables(nearest, tables, unit);
    offer_steps(nearest, tables.unit(unit), true);
}

/// Says that a part of a variable, which is this, has no member of this name.
fn say_member<'n>(
    alloc: Global,
    draft: &mut Draft,
    nearest: &mut Nearest<'n>,
    tables: &'n Tables<'_>,
    variable: &Variable,
    part: Option<Shape<'_>>,
    name: &[u8],
) -> Result<(), AllocError> {
    let whole = Slot::Name(variable.name.spelling.as_slice());
    let member = Slot::Name(name);
    match part {
        None => tell_two(draft, Cause::StepMember, whole, member),
        Some(shape) if shape.subscripts.is_some() => {
            tell_two(draft, Cause::ArrayMember, whole, member);
        }
        Some(shape) => {
            tell_two(draft, Cause::NoMember, whole, member);
            tell_parts(alloc, draft, tables, shape.base)?;
            offer_parts(nearest, tables, shape.base);
        }
    }
    Ok(())
}

/// Says which members a structure, or which inputs and outputs a block, has.
pub fn tell_parts(
    alloc: Global,
    draft: &mut Draft,
    tables: &Tables<'_>,
    base: Base,
) -> Result<(), AllocError> {
    match base {
        Base::Structure(unit) => {
            let members = names_of(alloc, tables, unit, VarKind::Internal)?;
            tell(draft, Cause::Members, &[Slot::Words(members.as_str())]);
        }
        Base::Block(unit) => {
            let inputs = names_of(alloc, tables, unit, VarKind::Input)?;
            let outputs = names_of(alloc, tables, unit, VarKind::Output)?;
            tell_pins(draft, inputs.as_str(), outputs.as_str());
        }
        Base::Standard(block) => {
            let inputs = pins_of(alloc, block, Purpose::Input)?;
            let outputs = pins_of(alloc, block, Purpose::Output)?;
            tell_pins(draft, inputs.as_str(), outputs.as_str());
        }
        _ => tell(draft, Cause::OneValue, &[]),
    }
    Ok(())
}

/// Says which inputs and outputs a block has.
fn tell_pins(draft: &mut Draft, inputs: &str, outputs: &str) {
    tell_two(
        draft,
        Cause::Pins,
        Slot::Words(inputs),
        Slot::Words(outputs),
    );
}

/// Offers the names of the parts of a structure or a block.
pub fn offer_parts<'n>(nearest: &mut Nearest<'n>, tables: &'n Tables<'_>, base: Base) {
    match base {
        Base::Structure(unit) | Base::Block(unit) => offer_variables(nearest, tables, unit),
        Base::Standard(block) => {
            for pin in block.pins() {
                nearest.offer(pin.name);
            }
        }
        _ => {}
    }
}

/// Puts a name at the end of others.
pub fn push_listed(list: &mut String, name: &[u8]) -> Result<(), AllocError> {
    if !list.is_empty() {
        list.push_str(", ")?;
    }
    push_shown(list, name)
}

/// The names of a unit that are declared so.
pub fn names_of(
    alloc: Global,
    tables: &Tables<'_>,
    unit: usize,
    kind: VarKind,
) -> Result<String, AllocError> {
    let mut list = String::new(alloc);
    if unit >= tables.len() {
        return Ok(list);
    }
    for declared in tables.declared(unit) {
        if declared.kind as u8 == kind as u8 {
            push_listed(&mut list, declared.name.spelling.as_slice())?;
        }
    }
    list.push_str(if list.is_empty() { "none" } else { "" })?;
    Ok(list)
}

/// The names of the inputs, or of the outputs, of a standard function block.
fn pins_of(alloc: Global, block: StandardBlock, purpose: Purpose) -> Result<String, AllocError> {
    let mut list = String::new(alloc);
    for pin in block.pins() {
        if pin.purpose == purpose {
            push_listed(&mut list, pin.name)?;
        }
    }
    Ok(list)
}

/// Says that a name is there already, and where.
pub fn explain_repeated(
    draft: &mut Draft,
    lexed: Lexed<'_>,
    tables: &Tables<'_>,
    unit: usize,
    at: u32,
) {
    let name = lexed.spelling(at);
    let is_unit = unit < tables.len() && tables.unit(unit).name.position.number == at;
    if is_unit && standard_of(name).is_some() {
        return tell(draft, Cause::StandardName, &[Slot::Name(name)]);
    }
    let line = if is_unit {
        unit_line(tables, unit, name)
    } else {
        name_line(tables, unit, name, at)
    };
    match line {
        Some(line) => {
            let slots = [Slot::Name(name), Slot::Number(u64::from(line))];
            tell(draft, Cause::DeclaredIn, &slots);
        }
        None => tell(draft, Cause::Declared, &[Slot::Name(name)]),
    }
}

/// The line of the first unit of this name, before the one of this number.
fn unit_line(tables: &Tables<'_>, before: usize, name: &[u8]) -> Option<u32> {
    for unit in tables.units().iter().take(before) {
        if name.eq_ignore_ascii_case(unit.name.spelling.as_slice()) {
            return Some(unit.name.position.line);
        }
    }
    None
}

/// The line of the first name of a unit that is this one, before a token.
fn name_line(tables: &Tables<'_>, unit: usize, name: &[u8], at: u32) -> Option<u32> {
    if unit >= tables.len() {
        return None;
    }
    let own = tables.unit(unit).name;
    if name.eq_ignore_ascii_case(own.spelling.as_slice()) && own.position.number < at {
        return Some(own.position.line);
    }
    for declared in tables.declared(unit) {
        let found = declared.name;
        if name.eq_ignore_ascii_case(found.spelling.as_slice()) && found.position.number < at {
            return Some(found.position.line);
        }
    }
    None
}
