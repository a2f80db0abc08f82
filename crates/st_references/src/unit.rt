//! The calls in units.
ghost use Rattle.std.specs.Prelude.{◌≡◌, ◌++◌, OnOk};
ghost use Rattle.std.specs.List.{flat_map};
ghost use Rattle.st_types.specs.Inside.{declared_by};
ghost use Rattle.st_references.specs.Callers.{called_by};
ghost use Rattle.st_references.specs.Calls.{body_calls, element_calls, unit_calls};

use crate::caller::Caller;
use crate::expression::add_expression;
use crate::statement::add_statements;
use st_tree::List;
use st_tree::tree::{Body, ChartElement};
use st_types::UnitKind;
use std::alloc::AllocError;

/// Adds the functions that are called in a unit.
#[tactic(auto, using(crate::proofs::Rows::all_mapped))]
pub fn add_unit(
    caller: &Caller<'_>,
    kind: &UnitKind<'_>,
    row: &mut List<usize>,
) -> Result<(), AllocError>
    ensures { OnOk result (row.new ≡ row.old ++ flat_map (called_by caller.now)
        (unit_calls (declared_by kind.now))) }
{
    match kind {
        UnitKind::Type(_) => Ok(()),
        UnitKind::Function(function) => add_statements(caller, function.statements.as_slice(), row),
        UnitKind::Block(unit) => add_body(caller, &unit.body, row),
        UnitKind::Program(unit) => add_body(caller, &unit.body, row),
    }
}

/// Adds the functions that are called in a body.
#[tactic(auto, using(crate::proofs::Rows::all_mapped))]
fn add_body(caller: &Caller<'_>, body: &Body, row: &mut List<usize>) -> Result<(), AllocError>
    ensures { OnOk result (row.new ≡ row.old ++ flat_map (called_by caller.now)
        (body_calls body.now)) }
{
    match body {
        Body::Statements(statements) => add_statements(caller, statements.as_slice(), row),
        Body::Chart(elements) => add_elements(caller, elements.as_slice(), row),
    }
}

/// Adds the functions that are called in the elements of a chart.
fn add_elements(
    caller: &Caller<'_>,
    elements: &[ChartElement],
    row: &mut List<usize>,
) -> Result<(), AllocError>
    ensures { OnOk result (row.new ≡ row.old ++ flat_map (called_by caller.now)
        (flat_map element_calls elements.now)) }
{
    'items: for element in elements {
        add_element(caller, element, row)?;
    }
    Ok(())
}

/// Adds the functions that are called in an element of a chart.
#[tactic(auto, using(crate::proofs::Rows::all_mapped))]
fn add_element(
    caller: &Caller<'_>,
    element: &ChartElement,
    row: &mut List<usize>,
) -> Result<(), AllocError>
    ensures { OnOk result (row.new ≡ row.old ++ flat_map (called_by caller.now)
        (element_calls element.now)) }
{
    match element {
        ChartElement::Step(_) => Ok(()),
        ChartElement::Transition(transition) => add_expression(caller, &transition.condition, row),
        ChartElement::Action(action) => add_statements(caller, action.statements.as_slice(), row),
    }
}
