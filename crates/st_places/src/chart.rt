//! The charts of units, with where the leaves of their steps stand (2.6).
ghost use Rattle.std.specs.Prelude.{◌≡◌, ◌++◌, ◌∷◌, [], IfOk, List as Items, OnOk};
ghost use Rattle.std.specs.List.{flat_map};
ghost use Rattle.st_leaves.specs.Places.{step_count};
ghost use Rattle.st_places.specs.Charts.{HasElements, HasSteps};
ghost use Rattle.st_tree.specs.declared.tree.unit.Step.{Step as Section};
ghost use Rattle.st_types.specs.Inside.{declared_by};
ghost use Rattle.st_types.specs.Names.{chart_in, chart_of, steps_in};

use st_leaves::{MAX_COUNT, has_pulse, leaves_of_step};
use st_tree::List;
use st_tree::tree::{Body, ChartElement, Step};
use st_types::{NameTable, UnitKind};
use std::alloc::{AllocError, Global};

/// The chart of a unit. A unit without a chart has one without elements.
#[derive(Drop)]
pub(crate) struct Chart<'a> {
    pub elements: &'a [ChartElement],
    pub steps: Steps<'a>,
}

/// The steps of a chart in order, and a table of their names.
#[derive(Drop)]
pub(crate) struct Steps<'a> {
    pub names: NameTable<'a>,
    /// How far behind the chart's first leaf those of each step begin. The numbers stop at 1,000,000.
    pub offsets: List<u32>,
    /// How far behind it those of one step more would begin. The number stops at 1,000,000.
    pub next: u64,
}

impl<'a> Chart<'a> {
    /// The chart in what declares this: none has no elements.
    pub fn of(alloc: Global, unit: UnitKind<'a>) -> Result<Chart<'a>, AllocError>
        ensures { IfOk result (λ chart. HasElements (chart_in (declared_by unit.entry)) chart) }
    {
        let elements = elements_in(unit);
        let steps = Steps::of(alloc, elements)?;
        Ok(Chart { elements, steps })
    }
}

impl<'a> Steps<'a> {
    /// The steps among these elements.
    fn of(alloc: Global, elements: &'a [ChartElement]) -> Result<Steps<'a>, AllocError>
        ensures { IfOk result (λ steps. HasSteps (flat_map steps_in elements.now) steps) }
    {
        let mut steps = Steps::new(alloc);
        'elements: for element in elements {
            let ChartElement::Step(step) = element else {
                continue;
            };
            steps.add(step)?;
        }
        Ok(steps)
    }

    /// None. They take no memory.
    fn new(alloc: Global) -> Steps<'a>
        ensures { HasSteps [] result }
    {
        Steps {
            names: NameTable::new(alloc),
            offsets: List::new(alloc),
            next: 1,
        }
    }

    /// Adds a step.
    fn add(&mut self, step: &'a Step) -> Result<(), AllocError>
        ensures { OnOk result ((steps : Items Section) → HasSteps steps self.old
            → HasSteps (steps ++ step.now ∷ []) self.new) }
    {
        self.names.push(step.name.spelling.as_slice())?;
        self.offsets.push(self.next.min(MAX_COUNT) as u32)?;
        self.next = self.next.saturating_add(leaves_of(step)).min(MAX_COUNT);
        Ok(())
    }
}

/// How many leaves a step has.
fn leaves_of(step: &Step) -> u64
    ensures { result ≡ step_count step.now }
{
    u64::from(leaves_of_step(has_pulse(step.associations.as_slice())))
}

/// The elements of the chart of what declares this.
fn elements_in<'a>(unit: UnitKind<'a>) -> &'a [ChartElement]
    ensures { result.now ≡ chart_in (declared_by unit.entry) }
{
    match unit {
        UnitKind::Block(block) => elements_of(&block.body),
        UnitKind::Program(program) => elements_of(&program.body),
        UnitKind::Type(_) | UnitKind::Function(_) => &[],
    }
}

/// The elements of the chart that a body is. Statements have none.
fn elements_of(body: &Body) -> &[ChartElement]
    ensures { result.now ≡ chart_of body.now }
{
    match body {
        Body::Statements(_) => &[],
        Body::Chart(elements) => elements.as_slice(),
    }
}
