//! How large the leaves of charts are (2.6).
ghost use Rattle.std.specs.Prelude.{◌≡◌, ◌≤◌, IfOk, List, length, ℕ};
ghost use Rattle.std.specs.List.{flat_map, list_any};
ghost use Rattle.st_leaves.specs.Sizes.{IsSize};
ghost use Rattle.st_leaves.specs.Charts.{chart_leaves, is_pulse, state_leaves, step_leaves, step_types, stored_by};
ghost use Rattle.st_leaves.specs.Limits.{sizes_of};
ghost use Rattle.st_types.specs.Names.{steps_in};

use crate::Size;
use crate::size::{kept_leaf_size, named_leaf_size, named_size};
use crate::stored::{flags_size, has_qualifier, stored_names};
use st_tree::tree::{Association, ChartElement, Step};
use st_values::Elem;
use std::alloc::{AllocError, Global};

/// Of a chart with these elements: whether it has begun, its steps, and the names that it stores, however they are declared.
/// Without elements there is no chart.
pub fn chart_size(alloc: Global, elements: &[ChartElement]) -> Result<Size, AllocError>
    ensures { IfOk result (λ size. (variables : List (List ℕ))
        → IsSize size (sizes_of (chart_leaves (stored_by variables elements.now) elements.now))) }
{
    if elements.is_empty() {
        return Ok(Size::none());
    }
    let stored = stored_names(alloc, elements)?;
    let size = kept_leaf_size(b"CHART", Elem::Bool).beside(steps_size(elements));
    Ok(size.beside(flags_size(stored.as_slice())))
}

/// Of the steps among these elements.
fn steps_size(elements: &[ChartElement]) -> Size
    ensures { IsSize result (sizes_of (flat_map step_leaves (flat_map steps_in elements.now))) }
{
    let mut size = Size::none();
    'elements: for element in elements {
        let ChartElement::Step(step) = element else {
            continue;
        };
        size = size.beside(step_size(step));
    }
    size
}

/// Of a step.
fn step_size(step: &Step) -> Size
    ensures { IsSize result (sizes_of (step_leaves step.now)) }
{
    let state = state_size(has_pulse(step.associations.as_slice()));
    named_size(step.name.spelling.as_slice(), state)
}

/// Of what a step keeps of itself, with or without pulses, below its name.
fn state_size(has_pulse: bool) -> Size
    ensures { IsSize result (sizes_of (state_leaves has_pulse)) }
{
    let state = named_leaf_size(b"X", Elem::Bool)
        .beside(named_leaf_size(b"T", Elem::Time))
        .beside(kept_leaf_size(b"M", Elem::Time));
    if has_pulse {
        state.beside(kept_leaf_size(b"P", Elem::Bool))
    } else {
        state
    }
}

/// How many leaves a step has, with or without pulses.
pub fn leaves_of_step(has_pulse: bool) -> u32
    ensures count { result ≡ length (step_types has_pulse) }
    ensures few { result ≤ 4 }
{
    if has_pulse { 4 } else { 3 }
}

/// Whether one of these associations has the qualifier P.
pub fn has_pulse(associations: &[Association]) -> bool
    ensures { result ≡ list_any is_pulse associations.now }
{
    associations
        .iter()
        .any(|association| has_qualifier(association, b"P"))
}
