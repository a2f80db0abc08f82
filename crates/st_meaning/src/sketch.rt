//! Charts as numbers (2.6).
ghost use Rattle.std.specs.Option.{is_some};
ghost use Rattle.std.specs.Prelude.{◌≡◌, ◌<◌, ◌≤◌, ◌^◌, IfOk, length, map};
ghost use Rattle.std.specs.List.{All, flat_map};
ghost use Rattle.st_charts.specs.Passages.{passages_of};
ghost use Rattle.st_meaning.specs.Sketched.{links_from, passage_in, sketch_of, transitions_in, variable_named};
ghost use Rattle.st_meaning.specs.Views.{IsOf, flags_place, names_of, step_place};
ghost use Rattle.st_types.specs.Compositions.{Composition};
ghost use Rattle.st_types.specs.Names.{steps_in};

use crate::numbers::{step_names, transitions_of};
use crate::offsets::{Offsets, offsets_of};
use crate::parts::{actions_of, links_of, pulses_of, stored_of};
use st_charts::ChartTable;
use st_leaves::AssociatedNames;
use st_tree::tree::ChartElement;
use std::alloc::{AllocError, Global};
use std::marker::Model;

/// How many steps a chart has at most, and how many names. What has more counts as what there is no memory for.
const MAX_COUNT: usize = 1 << 29;

/// A chart as numbers.
#[derive(Drop)]
pub struct Sketch {
    /// Its transitions and associations.
    table: ChartTable,
    /// Of each step, whether it is associated with the qualifier P.
    pulses: Vec<bool>,
    /// Of each associated name, whether it is a BOOL variable.
    variables: Vec<bool>,
    /// The names that are stored, in the order of their leaves.
    stored: Vec<u32>,
    /// The name of each action.
    actions: Vec<u32>,
    /// Where the leaves stand.
    offsets: Offsets,
}

impl Model for Sketch {
    ghost use Rattle.st_meaning.specs.Inside.{IsSketch, view_of};
    ghost use Rattle.st_meaning.specs.Views.{SketchView};

    ghost Value = { SketchView };

    ghost view = { view_of };

    ghost invariant = { IsSketch };
}

impl Sketch {
    /// Its transitions and associations, over the numbers of its steps and of its names.
    pub fn table(&self) -> &ChartTable
        ensures steps { result.now.steps ≡ length self.now.pulses }
        ensures names { result.now.names ≡ length self.now.variables }
        ensures passages { passages_of result.now.transitions.items ≡ self.now.passages }
        ensures links { result.now.links.items ≡ self.now.links }
    {
        &self.table
    }

    /// How many steps it has.
    pub fn steps(&self) -> usize
        ensures { result ≡ length self.now.pulses }
    {
        self.pulses.len()
    }

    /// How many names its steps are associated with.
    pub fn names(&self) -> usize
        ensures { result ≡ length self.now.variables }
    {
        self.variables.len()
    }

    /// How many transitions it has.
    pub fn transitions(&self) -> usize
        ensures { result ≡ length self.now.passages }
    {
        self.table.transitions.len()
    }

    /// Of each step, whether it is associated with the qualifier P.
    pub fn pulses(&self) -> &[bool]
        ensures { result.now ≡ self.now.pulses }
    {
        self.pulses.as_slice()
    }

    /// Of each associated name, whether it is a BOOL variable.
    pub fn variables(&self) -> &[bool]
        ensures { result.now ≡ self.now.variables }
    {
        self.variables.as_slice()
    }

    /// The names that are stored, in the order of their leaves.
    pub fn stored(&self) -> &[u32]
        ensures numbers { result.now ≡ self.now.stored }
        ensures within { All (λ n. n < length self.now.variables) result.now }
    {
        self.stored.as_slice()
    }

    /// The name of each action. One that no step is associated with has the number of no name.
    pub fn actions(&self) -> &[u32]
        ensures { result.now ≡ self.now.actions }
    {
        self.actions.as_slice()
    }

    /// How many leaves behind the one that says whether the chart has begun those of this step begin.
    pub fn step_offset(&self, step: usize) -> usize
        requires { step < length self.now.pulses }
        ensures { result ≡ step_place self.now.pulses step }
    {
        self.offsets.steps[step] as usize
    }

    /// How many leaves behind that one the flags of the names begin that are stored.
    pub fn flags_offset(&self) -> usize
        ensures { result ≡ flags_place self.now.pulses }
    {
        self.offsets.flags as usize
    }
}

/// The chart with these elements, whose steps are associated with these names. Of each name this says whether it is a BOOL variable.
pub fn sketch_of(
    alloc: Global,
    elements: &[ChartElement],
    names: &AssociatedNames<'_>,
    variables: Vec<bool>,
) -> Result<Sketch, AllocError>
    requires names { names.now ≡ names_of elements.now }
    requires variables { length variables.items ≡ length names.now }
    ensures { IfOk result (λ sketch. (root : Composition)
        → variables.items ≡ map (λ n. is_some (variable_named root n)) names.now
        → IsOf sketch (sketch_of root elements.now)) }
{
    let table = table_of(alloc, elements, names)?;
    let pulses = pulses_of(alloc, elements)?;
    let offsets = offsets_of(alloc, pulses.as_slice())?;
    let stored = stored_of(alloc, names, elements)?;
    let actions = actions_of(alloc, names, elements)?;
    Ok(Sketch {
        table,
        pulses,
        variables,
        stored,
        actions,
        offsets,
    })
}

/// The transitions and the associations among these elements, whose steps are associated with these names.
fn table_of(
    alloc: Global,
    elements: &[ChartElement],
    names: &AssociatedNames<'_>,
) -> Result<ChartTable, AllocError>
    ensures steps { IfOk result (λ table. table.steps ≡ length (flat_map steps_in elements.now)) }
    ensures few_steps { IfOk result (λ table. table.steps ≤ 2 ^ 29) }
    ensures names { IfOk result (λ table. table.names ≡ length names.now) }
    ensures few_names { IfOk result (λ table. table.names ≤ 2 ^ 29) }
    ensures passages { IfOk result
        (λ table. passages_of table.transitions.items
        ≡ map (passage_in (map (λ s. s.name.spelling) (flat_map steps_in elements.now)))
        (flat_map transitions_in elements.now)) }
    ensures links { IfOk result
        (λ table. table.links.items ≡ links_from names.now 0 (flat_map steps_in elements.now)) }
{
    let steps = step_names(alloc, elements)?;
    let step_count = counted(steps.len())?;
    let name_count = counted(names.len())?;
    let transitions = transitions_of(alloc, &steps, elements)?;
    let links = links_of(alloc, names, elements)?;
    ChartTable::new(alloc, step_count, name_count, transitions, links)
}

/// How many steps or names a chart has.
fn counted(count: usize) -> Result<u32, AllocError>
    ensures count { IfOk result (λ number. number ≡ count) }
    ensures few { IfOk result (λ number. number ≤ 2 ^ 29) }
{
    if count <= MAX_COUNT {
        Ok(count as u32)
    } else {
        Err(AllocError)
    }
}
