//! The steps and the transitions of a chart as numbers (2.6.2, 2.6.3).
ghost use Rattle.std.specs.Prelude.{◌≡◌, ◌<◌, ◌^◌, IfOk, length, map};
ghost use Rattle.std.specs.List.{flat_map};
ghost use Rattle.st_charts.specs.Passages.{passage_of, passages_of};
ghost use Rattle.st_meaning.specs.Sketched.{numbers_among, passage_in, transitions_in};
ghost use Rattle.st_types.specs.Names.{steps_in};

use st_charts::Transition;
use st_tree::tree::{ChartElement, Identifier, Transition as TransitionTree};
use st_types::NameTable;
use std::alloc::{AllocError, Global};

/// The names of the steps among these elements, in order.
pub(crate) fn step_names<'a>(
    alloc: Global,
    elements: &'a [ChartElement],
) -> Result<NameTable<'a>, AllocError>
    ensures { IfOk result (λ names. names ≡ map (λ s. s.name.spelling)
        (flat_map steps_in elements.now)) }
{
    let mut names = NameTable::new(alloc);
    'elements: for element in elements {
        let ChartElement::Step(step) = element else {
            continue;
        };
        names.push(step.name.spelling.as_slice())?;
    }
    Ok(names)
}

/// The transitions among these elements, where the steps have these names.
pub(crate) fn transitions_of(
    alloc: Global,
    steps: &NameTable<'_>,
    elements: &[ChartElement],
) -> Result<Vec<Transition>, AllocError>
    requires { length steps.now < 2 ^ 32 }
    ensures { IfOk result (λ transitions. passages_of transitions.items
        ≡ map (passage_in steps.now) (flat_map transitions_in elements.now)) }
{
    let mut transitions = Vec::new(alloc);
    'elements: for element in elements {
        let ChartElement::Transition(transition) = element else {
            continue;
        };
        transitions.push(transition_of(alloc, steps, transition)?)?;
    }
    Ok(transitions)
}

/// A transition.
fn transition_of(
    alloc: Global,
    steps: &NameTable<'_>,
    transition: &TransitionTree,
) -> Result<Transition, AllocError>
    requires { length steps.now < 2 ^ 32 }
    ensures { IfOk result (λ made. passage_of made ≡ passage_in steps.now transition.now) }
{
    let before = steps_among(alloc, steps, transition.from.as_slice())?;
    let after = steps_among(alloc, steps, transition.to.as_slice())?;
    Ok(Transition {
        before,
        after,
        priority: transition.priority,
    })
}

/// The numbers of the steps of these names. A name that no step has has none.
fn steps_among(
    alloc: Global,
    steps: &NameTable<'_>,
    names: &[Identifier],
) -> Result<Vec<u32>, AllocError>
    requires { length steps.now < 2 ^ 32 }
    ensures { IfOk result (λ numbers. numbers.items ≡ numbers_among steps.now names.now) }
{
    let mut numbers = Vec::with_capacity(alloc, names.len())?;
    'names: for name in names {
        let Some(number) = steps.find(name.spelling.as_slice()) else {
            continue;
        };
        numbers.push(number as u32)?;
    }
    Ok(numbers)
}
