//! The walk through units to a token.

use crate::expressions::in_expression;
use crate::site::{Search, Site, Stop, stop_at};
use crate::statements::in_statements;
use st_check_expressions::{elem_due, elem_of, literal_position};
use st_scopes::{Scope, Tables};
use st_tree::tree::{
    ArrayElement, Association, Body, ChartElement, Constant, Declaration, DeclaredType, Identifier,
    Initial, Pou, Specification, Step, Subrange, Transition, TypeName, VarBlock,
};
use st_types::{Due, NamedUnit, UnitKind};
use st_values::Elem;
use std::alloc::{AllocError, Global};

/// The number of the unit in which a token stands: the last one whose name doesn't stand behind it.
pub fn unit_at(tables: &Tables<'_>, at: u32) -> Option<usize> {
    let mut found = None;
    for (number, unit) in tables.units().iter().enumerate() {
        if unit.name.position.number <= at {
            found = Some(number);
        }
    }
    found
}

/// What stands at the token of this number in a unit.
pub fn in_unit<'t>(
    alloc: Global,
    tables: &Tables<'_>,
    scope: &Scope<'_>,
    at: u32,
    unit: NamedUnit<'t>,
) -> Result<Option<Site<'t>>, AllocError> {
    match search_unit(alloc, tables, scope, at, unit) {
        Ok(()) => Ok(None),
        Err(Stop::At(site)) => Ok(Some(site)),
        Err(Stop::Memory) => Err(AllocError),
    }
}

/// Searches a unit.
fn search_unit<'t>(
    alloc: Global,
    tables: &Tables<'_>,
    scope: &Scope<'_>,
    at: u32,
    unit: NamedUnit<'t>,
) -> Search<'t> {
    stop_at(at, unit.name.position, Site::Unit)?;
    match unit.kind {
        UnitKind::Type(declared) => in_type(tables, at, declared),
        UnitKind::Function(function) => {
            in_blocks(tables, at, function.variables.as_slice())?;
            in_statements(alloc, scope, at, function.statements.as_slice())
        }
        UnitKind::Block(pou) | UnitKind::Program(pou) => in_pou(alloc, tables, scope, at, pou),
    }
}

/// What stands at the token in a function block or a program.
fn in_pou<'t>(
    alloc: Global,
    tables: &Tables<'_>,
    scope: &Scope<'_>,
    at: u32,
    pou: &'t Pou,
) -> Search<'t> {
    in_blocks(tables, at, pou.variables.as_slice())?;
    match &pou.body {
        Body::Statements(statements) => in_statements(alloc, scope, at, statements.as_slice()),
        Body::Chart(elements) => in_chart(alloc, scope, at, elements.as_slice()),
    }
}

/// What stands at the token in the declaration of a type.
fn in_type<'t>(tables: &Tables<'_>, at: u32, declared: &'t DeclaredType) -> Search<'t> {
    match declared {
        DeclaredType::Derived(specification, initial) => {
            let initial = match initial {
                Some(initial) => Some(initial.get()),
                None => None,
            };
            in_specified(tables, at, specification, initial)
        }
        DeclaredType::Structure(_, members) => in_declarations(tables, at, members.as_slice()),
    }
}

/// What stands at the token in blocks of declarations.
fn in_blocks<'t>(tables: &Tables<'_>, at: u32, blocks: &'t [VarBlock]) -> Search<'t> {
    for block in blocks {
        in_declarations(tables, at, block.declarations.as_slice())?;
    }
    Ok(())
}

/// What stands at the token in declarations.
fn in_declarations<'t>(
    tables: &Tables<'_>,
    at: u32,
    declarations: &'t [Declaration],
) -> Search<'t> {
    for declaration in declarations {
        in_declaration(tables, at, declaration)?;
    }
    Ok(())
}

/// What stands at the token in a declaration.
fn in_declaration<'t>(tables: &Tables<'_>, at: u32, declaration: &'t Declaration) -> Search<'t> {
    for name in declaration.names.as_slice() {
        stop_at(at, name.position, Site::Declared(name))?;
    }
    let initial = match &declaration.initial {
        Some(initial) => Some(initial.get()),
        None => None,
    };
    in_specified(tables, at, &declaration.specification, initial)
}

/// What stands at the token in what is specified, and in its initial value.
fn in_specified<'t>(
    tables: &Tables<'_>,
    at: u32,
    specification: &'t Specification,
    initial: Option<&'t Initial>,
) -> Search<'t> {
    in_specification(at, specification)?;
    let due = value_due(tables, specification);
    match initial {
        Some(Initial::Constant(value)) => at_initial(at, value, due),
        Some(Initial::Array(_, items)) => in_items(at, items.as_slice(), due),
        None => Ok(()),
    }
}

/// What is due of each initial value of what is specified.
fn value_due(tables: &Tables<'_>, specification: &Specification) -> Due {
    let shape = tables.shape_of(specification);
    if shape.subscripts.is_some() {
        return elem_due(shape.base.elem());
    }
    match tables.elements(shape.base) {
        Some(elements) => elem_due(elements.element.elem()),
        None => elem_due(elem_of(&shape)),
    }
}

/// What stands at the token in a list of initial values.
fn in_items<'t>(at: u32, items: &'t [ArrayElement], due: Due) -> Search<'t> {
    for item in items {
        match item {
            ArrayElement::Single(value) => at_initial(at, value, due)?,
            ArrayElement::Repeated(_, _, Some(value)) => at_initial(at, value.get(), due)?,
            ArrayElement::Repeated(_, _, None) => {}
        }
    }
    Ok(())
}

/// What stands at the token, where it is this initial value.
fn at_initial<'t>(at: u32, constant: &'t Constant, due: Due) -> Search<'t> {
    stop_at(at, literal_position(constant), Site::Initial(constant, due))
}

/// What stands at the token in what is specified.
fn in_specification(at: u32, specification: &Specification) -> Search<'_> {
    match specification {
        Specification::Simple(name) => in_type_name(at, name),
        Specification::Array(_, ranges, element) => {
            in_ranges(at, ranges.as_slice())?;
            in_type_name(at, element.get())
        }
    }
}

/// What stands at the token in the name of a type.
fn in_type_name(at: u32, name: &TypeName) -> Search<'_> {
    match name {
        TypeName::Declared(name) => stop_at(at, name.position, Site::Type(name)),
        _ => Ok(()),
    }
}

/// What stands at the token in subscripts.
fn in_ranges(at: u32, ranges: &[Subrange]) -> Search<'_> {
    for range in ranges {
        stop_at(at, range.lower.position, Site::Bound(&range.lower, None))?;
        stop_at(
            at,
            range.upper.position,
            Site::Bound(&range.upper, Some(&range.lower)),
        )?;
    }
    Ok(())
}

/// What stands at the token in a chart.
fn in_chart<'t>(
    alloc: Global,
    scope: &Scope<'_>,
    at: u32,
    elements: &'t [ChartElement],
) -> Search<'t> {
    for element in elements {
        in_chart_element(alloc, scope, at, element)?;
    }
    Ok(())
}

/// What stands at the token in an element of a chart.
fn in_chart_element<'t>(
    alloc: Global,
    scope: &Scope<'_>,
    at: u32,
    element: &'t ChartElement,
) -> Search<'t> {
    match element {
        ChartElement::Step(step) => in_step(at, step),
        ChartElement::Transition(transition) => in_transition(alloc, scope, at, transition),
        ChartElement::Action(action) => {
            stop_at(at, action.name.position, Site::Declared(&action.name))?;
            in_statements(alloc, scope, at, action.statements.as_slice())
        }
    }
}

/// What stands at the token in a step.
fn in_step(at: u32, step: &Step) -> Search<'_> {
    stop_at(at, step.name.position, Site::Step(&step.name))?;
    for association in step.associations.as_slice() {
        in_association(at, association)?;
    }
    Ok(())
}

/// What stands at the token in what a step is associated with.
fn in_association(at: u32, association: &Association) -> Search<'_> {
    stop_at(
        at,
        association.name.position,
        Site::Association(association),
    )?;
    if let Some(qualifier) = &association.qualifier
        && let Some(duration) = qualifier.duration
    {
        stop_at(at, duration.position, Site::Association(association))?;
    }
    Ok(())
}

/// What stands at the token in a transition.
fn in_transition<'t>(
    alloc: Global,
    scope: &Scope<'_>,
    at: u32,
    transition: &'t Transition,
) -> Search<'t> {
    if let Some(name) = &transition.name {
        stop_at(at, name.position, Site::Declared(name))?;
    }
    in_step_names(at, transition.from.as_slice())?;
    in_step_names(at, transition.to.as_slice())?;
    let condition = &transition.condition;
    in_expression(alloc, scope, at, condition, Due::Type(Elem::Bool))
}

/// What stands at the token in names of steps.
fn in_step_names<'t>(at: u32, names: &'t [Identifier]) -> Search<'t> {
    for name in names {
        stop_at(at, name.position, Site::StepName(name))?;
    }
    Ok(())
}
