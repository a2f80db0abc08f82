//! What names stand for in a unit of a text (2.4, 2.5).
ghost use Rattle.std.specs.Prelude.{◌≡◌};
ghost use Rattle.std.specs.Option.{option_map};
ghost use Rattle.st_scopes.specs.Declarations.{names_in};
ghost use Rattle.st_types.specs.Inside.{declared_by, declares_at};
ghost use Rattle.st_scopes.specs.Lookups.{optional_unit_callee, optional_unit_member, optional_variable, result_symbol};
ghost use Rattle.st_types.specs.Names.{declared_named, units_of};
ghost use Rattle.st_types.specs.Pins.{seen as pin_seen};
ghost use Rattle.st_types.specs.Scopes.{global_callee, member_of, pin_member, pin_symbol, seen, symbol_callee, symbol_of, unit_member, variable_named};
ghost use Rattle.st_types.specs.Standard.{pin_named, pins_of, standard_of};
ghost use Rattle.st_types.specs.Types.{elements_in};

use crate::declaration::Declarations;
use crate::tables::Tables;
use crate::variable::{component_of, symbol_of};
use st_tree::tree::{DeclaredType, Function, Specification, VarKind};
use st_types::{
    Base, Callee, Elements, Member, Pin, Purpose, Shape, Signature, Standard, StandardBlock,
    Symbol, TypeTable, UnitKind, is_same_name, standard_of,
};

/// What the name is in the unit of this number, where it is that of a variable.
pub fn variable_in<'a>(tables: &'a Tables<'a>, unit: usize, name: &[u8]) -> Option<Symbol<'a>>
    ensures { result ≡ optional_variable (units_of tables.now)
        (declares_at (units_of tables.now) unit) name.now }
{
    let kind = tables.types().kind(unit)?;
    let names = tables.names(unit)?;
    unit_variable(tables.types(), kind, &names.declarations, name)
}

/// What the name is in a unit with these declarations, where it is that of a variable.
#[tactic(auto, unfolding(st_types::specs::Scopes::variable_named))]
fn unit_variable<'s>(
    types: &TypeTable,
    unit: UnitKind<'s>,
    declarations: &Declarations<'s>,
    name: &[u8],
) -> Option<Symbol<'s>>
    requires { declarations.now ≡ names_in (declared_by unit) }
    ensures { result ≡ variable_named types.now (declared_by unit.entry) name.now }
{
    match unit {
        UnitKind::Type(_) => None,
        UnitKind::Function(function) => {
            if is_same_name(function.name.spelling.as_slice(), name) {
                return Some(result_of(function));
            }
            declared_variable(types, unit, declarations, name)
        }
        UnitKind::Block(_) | UnitKind::Program(_) => {
            declared_variable(types, unit, declarations, name)
        }
    }
}

/// What the first of these variables with this name is in the unit.
fn declared_variable<'s>(
    types: &TypeTable,
    unit: UnitKind<'s>,
    variables: &Declarations<'s>,
    name: &[u8],
) -> Option<Symbol<'s>>
    ensures { result ≡ option_map (symbol_of types.now (declared_by unit.entry))
        (declared_named variables.now name.now) }
{
    let variable = variables.find(name)?;
    Some(symbol_of(types, unit, variable))
}

/// A function's name in its own statements.
fn result_of<'s>(function: &Function) -> Symbol<'s>
    ensures { result ≡ result_symbol function.now }
{
    Symbol {
        purpose: Purpose::Result,
        shape: Shape::plain(Base::Elementary(function.result)),
    }
}

/// The subscripts and elements of an array type of the text.
pub fn elements_in<'a>(tables: &'a Tables<'a>, base: Base) -> Option<Elements<'a>>
    ensures { result ≡ elements_in (units_of tables.now) base }
{
    let number = match base {
        Base::Array(number) => number,
        _ => return None,
    };
    let declared = match tables.types().kind(number)? {
        UnitKind::Type(declared) => declared,
        _ => return None,
    };
    match declared {
        DeclaredType::Derived(Specification::Array(_, ranges, name), _) => Some(Elements {
            subscripts: ranges.as_slice(),
            element: tables.types().base_of(name.get()),
        }),
        _ => None,
    }
}

/// What the name stands for behind a variable of this type.
#[tactic(auto, unfolding(st_types::specs::Scopes::member_of))]
pub fn member_of<'a>(tables: &'a Tables<'a>, base: Base, name: &[u8]) -> Member<'a>
    ensures { result ≡ member_of (units_of tables.now) base name.now }
{
    match base {
        Base::Structure(number) | Base::Block(number) => member_in(tables, number, name),
        Base::Standard(block) => pin_member(block, name),
        _ => Member::none(),
    }
}

/// What the name stands for behind a variable whose type is the unit of this number.
fn member_in<'a>(tables: &'a Tables<'a>, number: usize, name: &[u8]) -> Member<'a>
    ensures { result ≡ optional_unit_member (units_of tables.now)
        (declares_at (units_of tables.now) number) name.now }
{
    match (tables.types().kind(number), tables.names(number)) {
        (Some(unit), Some(names)) => unit_member(tables.types(), unit, &names.declarations, name),
        _ => Member::none(),
    }
}

/// What the name stands for behind a variable whose type is a unit with these declarations.
fn unit_member<'s>(
    types: &TypeTable,
    unit: UnitKind<'s>,
    declarations: &Declarations<'s>,
    name: &[u8],
) -> Member<'s>
    requires { declarations.now ≡ names_in (declared_by unit) }
    ensures { result ≡ unit_member types.now (declared_by unit.entry) name.now }
{
    let found = match declarations.find(name) {
        Some(found) => found,
        None => return Member::none(),
    };
    match unit {
        UnitKind::Type(_) => Member {
            symbol: Some(component_of(types, found)),
            of_instance: false,
        },
        UnitKind::Block(_) => Member {
            symbol: seen_outside(found.kind, symbol_of(types, unit, found)),
            of_instance: true,
        },
        UnitKind::Function(_) | UnitKind::Program(_) => Member::none(),
    }
}

/// From outside an instance its inputs and outputs can be named, and nothing else.
fn seen_outside<'s>(kind: VarKind, symbol: Symbol<'s>) -> Option<Symbol<'s>>
    ensures { result ≡ seen kind symbol.entry }
{
    match kind {
        VarKind::Input | VarKind::Output => Some(symbol),
        VarKind::Internal | VarKind::Constant => None,
    }
}

/// What the name stands for behind an instance of a standard function block.
fn pin_member<'s>(block: StandardBlock, name: &[u8]) -> Member<'s>
    ensures { result ≡ pin_member (pin_named (pins_of block) name.now) }
{
    match block.pin(name) {
        Some(pin) => Member {
            symbol: Some(pin_symbol(pin)),
            of_instance: true,
        },
        None => Member::none(),
    }
}

/// What a pin stands for.
fn pin_symbol<'s>(pin: Pin) -> Symbol<'s>
    ensures { result ≡ pin_symbol (pin_seen pin) }
{
    Symbol {
        purpose: pin.purpose,
        shape: Shape::plain(Base::Elementary(pin.elem)),
    }
}

/// What the name stands for before `(`, where it is no variable's: a name that is standard, or else that of a unit.
pub fn global_callee<'a>(tables: &'a Tables<'a>, name: &[u8]) -> Callee<'a>
    ensures { result ≡ global_callee (units_of tables.now) name.now (standard_of name.now) }
{
    match standard_of(name) {
        Some(Standard::Function(function)) => Callee::Standard(function),
        Some(Standard::Conversion(from, to)) => Callee::Conversion(from, to),
        Some(Standard::Block(_)) => Callee::Block,
        None => match tables.number_of(name) {
            Some(number) => unit_callee(tables, number),
            None => Callee::Missing,
        },
    }
}

/// What the name of the unit of this number stands for before `(`.
fn unit_callee<'a>(tables: &'a Tables<'a>, number: usize) -> Callee<'a>
    ensures { result ≡ optional_unit_callee (units_of tables.now)
        (declares_at (units_of tables.now) number) }
{
    match (tables.types().kind(number), tables.names(number)) {
        (Some(UnitKind::Function(function)), Some(names)) => {
            Callee::Own(Signature::new(function.result, &names.inputs))
        }
        (Some(UnitKind::Block(_)), _) => Callee::Block,
        _ => Callee::Missing,
    }
}

/// What a name stands for before `(`, where it is that of such a variable, and else of the other. An instance goes first; a
/// variable whose type can't be known last.
pub fn callee_by<'s>(other: Callee<'s>, variable: Option<Symbol<'s>>) -> Callee<'s>
    ensures { result ≡ symbol_callee other.entry variable.entry }
{
    let shape = match variable {
        Some(symbol) => symbol.shape,
        None => return other,
    };
    if shape.subscripts.is_some() {
        return other;
    }
    match shape.base {
        Base::Block(_) | Base::Standard(_) => Callee::Instance(shape.base),
        Base::Unknown => match other {
            Callee::Missing => Callee::Faulty,
            found => found,
        },
        _ => other,
    }
}
