//! Charts (2.6).
ghost use Rattle.std.specs.List.{flat_map};
ghost use Rattle.std.specs.Prelude.{◌≡◌, ◌||◌, not, OnOk};
ghost use Rattle.st_faults.specs.Faults.{offer_all};
ghost use Rattle.st_types.specs.Scopes.{scope_at};
ghost use Rattle.st_check_expressions.specs.Known.{is_empty};
ghost use Rattle.st_check_units.specs.Charts.{chart_faults, element_faults, further_faults, initial_in, initial_step_faults, initial_steps, step_name_faults};

use crate::associations::check_associations;
use st_check_expressions::check_expression;
use st_check_statements::check_body;
use st_faults::{FirstFault, Rule};
use st_scopes::Scope;
use st_tree::tree::{ChartElement, Identifier, Transition};
use st_types::Due;
use st_values::Elem;
use std::alloc::{AllocError, Global};

/// Offers a fault where an element is an initial step, and there is one already. Tells whether there is one then.
#[tactic(auto, unfolding(st_faults::specs::Faults::offer_all))]
fn check_initial(element: &ChartElement, has_initial: bool, first: &mut FirstFault) -> bool
    ensures first { first.new ≡ offer_all first.old
        (further_faults has_initial (initial_in element.now)) }
    ensures has_initial { result ≡ (has_initial || not (is_empty (initial_in element.now))) }
{
    let ChartElement::Step(step) = element else {
        return has_initial;
    };
    if !step.is_initial {
        return has_initial;
    }
    // No case of typing rests on this rule.
    first.offer_when(has_initial, step.name.position, Rule::MalformedChart);
    true
}

/// Offers a fault for each initial step but the first, or at the unit's name where there is none.
#[tactic(auto, unfolding(st_faults::specs::Faults::offer_all))]
fn check_initial_steps(unit: &Identifier, elements: &[ChartElement], first: &mut FirstFault)
    ensures { first.new ≡ offer_all first.old (initial_step_faults unit.now
        (initial_steps elements.now)) }
{
    let mut has_initial = false;
    for element in elements {
        has_initial = check_initial(element, has_initial, first);
    }
    // No case of typing rests on this rule.
    first.offer_when(!has_initial, unit.position, Rule::MalformedChart);
}

/// Offers a fault for each of these names that no step has.
#[tactic(auto, unfolding(st_faults::specs::Faults::offer_all))]
fn check_step_names(scope: &Scope<'_>, names: &[Identifier], first: &mut FirstFault)
    ensures { first.new ≡ offer_all first.old (flat_map (step_name_faults (scope_at scope.now))
        names.now) }
{
    for name in names {
        let is_step = scope.is_step(name.spelling.as_slice());
        // Typing rests on this rule in its case `passage_then`: each step that is named has a number.
        first.offer_when(!is_step, name.position, Rule::MalformedChart);
    }
}

/// Offers the faults of a transition.
#[tactic(auto, unfolding(st_faults::specs::Faults::offer_all), using(st_faults::proofs::Least::offer_append))]
fn check_transition(
    alloc: Global,
    scope: &Scope<'_>,
    transition: &Transition,
    first: &mut FirstFault,
) -> Result<(), AllocError>
    ensures { OnOk result (first.new ≡ offer_all first.old
        (element_faults (scope_at scope.now) (ChartElement.Transition transition.now))) }
{
    check_step_names(scope, transition.from.as_slice(), first);
    check_step_names(scope, transition.to.as_slice(), first);
    let due = Due::Type(Elem::Bool);
    check_expression(alloc, scope, &transition.condition, due, first)
}

/// Offers the faults of an element of a chart.
#[tactic(auto, unfolding(st_faults::specs::Faults::offer_all))]
fn check_element(
    alloc: Global,
    scope: &Scope<'_>,
    element: &ChartElement,
    first: &mut FirstFault,
) -> Result<(), AllocError>
    ensures { OnOk result (first.new ≡ offer_all first.old
        (element_faults (scope_at scope.now) element.now)) }
{
    match element {
        ChartElement::Step(step) => {
            check_associations(scope, step.associations.as_slice(), first);
            Ok(())
        }
        ChartElement::Transition(transition) => check_transition(alloc, scope, transition, first),
        ChartElement::Action(action) => {
            check_body(alloc, scope, action.statements.as_slice(), first)
        }
    }
}

/// Offers the faults of a chart's elements.
#[tactic(auto, unfolding(st_faults::specs::Faults::offer_all))]
fn check_elements(
    alloc: Global,
    scope: &Scope<'_>,
    elements: &[ChartElement],
    first: &mut FirstFault,
) -> Result<(), AllocError>
    ensures { OnOk result (first.new ≡ offer_all first.old
        (flat_map (element_faults (scope_at scope.now)) elements.now)) }
{
    for element in elements {
        check_element(alloc, scope, element, first)?;
    }
    Ok(())
}

/// Offers the faults of the chart of the unit of this name.
#[tactic(auto, unfolding(st_faults::specs::Faults::offer_all), using(st_faults::proofs::Least::offer_append))]
pub fn check_chart(
    alloc: Global,
    scope: &Scope<'_>,
    unit: &Identifier,
    elements: &[ChartElement],
    first: &mut FirstFault,
) -> Result<(), AllocError>
    ensures { OnOk result (first.new ≡ offer_all first.old
        (chart_faults (scope_at scope.now) unit.now elements.now)) }
{
    check_initial_steps(unit, elements, first);
    check_elements(alloc, scope, elements, first)
}
