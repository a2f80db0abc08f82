//! The parts of charts that have leaves, found once for each unit: however many instances a unit has, none passes what else its
//! chart has.
ghost use Rattle.std.specs.List.{flat_map};
ghost use Rattle.std.specs.Prelude.{◌≡◌, ◌<◌, IfOk, Some, length, map};
ghost use Rattle.st_chart_parts.specs.Charts.{parts_of};
ghost use Rattle.st_leaves.specs.Charts.{spelled};
ghost use Rattle.st_types.specs.Inside.{declared_by};
ghost use Rattle.st_types.specs.Names.{Named, chart_in, steps_in, unit_at, units_of};

use crate::step::StepPart;
use crate::stored::names_stored;
use st_scopes::Tables;
use st_tree::Word;
use st_tree::tree::{Body, ChartElement};
use st_types::UnitKind;
use std::alloc::{AllocError, Global};
use std::marker::Model;

/// The parts of a unit's chart that have leaves.
#[derive(Drop)]
pub struct ChartParts<'a> {
    /// Whether the unit has a chart.
    is_there: bool,
    steps: Vec<StepPart<'a>>,
    /// The names that it stores, as they are declared.
    stored: Vec<&'a Word>,
}

impl<'a> Model for ChartParts<'a> {
    ghost use Rattle.st_chart_parts.specs.Charts.{ChartView};
    ghost use Rattle.st_chart_parts.specs.Inside.{chart_seen};

    ghost Value = { ChartView };

    ghost view = { chart_seen };
}

impl<'a> ChartParts<'a> {
    /// Whether the unit has a chart.
    pub fn is_there(&self) -> bool
        ensures { result ≡ self.now.is_there }
    {
        self.is_there
    }

    /// The steps, in order.
    pub fn steps(&self) -> &[StepPart<'a>]
        ensures { result.now ≡ self.now.steps }
    {
        self.steps.as_slice()
    }

    /// The names that the chart stores, as they are declared.
    pub fn stored(&self) -> &[&'a Word]
        ensures { spelled result.now ≡ self.now.stored }
    {
        self.stored.as_slice()
    }
}

/// The parts of the chart of each unit that have leaves, by the numbers of the units.
pub fn chart_parts<'a>(
    alloc: Global,
    tables: &Tables<'a>,
) -> Result<Vec<ChartParts<'a>>, AllocError>
    ensures { IfOk result (λ charts. charts.items
        ≡ map (λ u. parts_of u.declares) (units_of tables.now)) }
{
    let mut charts = Vec::with_capacity(alloc, tables.len())?;
    'units: for unit in 0..tables.len() {
        charts.push(unit_parts(alloc, tables, unit)?)?;
    }
    Ok(charts)
}

/// The parts of the chart of the unit of this number. Without elements there is no chart.
fn unit_parts<'a>(
    alloc: Global,
    tables: &Tables<'a>,
    unit: usize,
) -> Result<ChartParts<'a>, AllocError>
    requires { unit < length (units_of tables.now) }
    ensures { IfOk result (λ parts. (u : Named) → unit_at (units_of tables.now) unit ≡ Some u
        → parts ≡ parts_of u.declares) }
{
    let elements = chart_of(tables.unit(unit).kind);
    Ok(ChartParts {
        is_there: !elements.is_empty(),
        steps: step_parts(alloc, elements)?,
        stored: names_stored(alloc, tables.declared(unit), elements)?,
    })
}

/// The chart of a unit. A unit without one has no elements.
fn chart_of<'a>(unit: UnitKind<'a>) -> &'a [ChartElement]
    ensures { result.now ≡ chart_in (declared_by unit.entry) }
{
    let (UnitKind::Block(pou) | UnitKind::Program(pou)) = unit else {
        return &[];
    };
    match &pou.body {
        Body::Statements(_) => &[],
        Body::Chart(elements) => elements.as_slice(),
    }
}

/// The steps among these elements, in order.
fn step_parts<'a>(
    alloc: Global,
    elements: &'a [ChartElement],
) -> Result<Vec<StepPart<'a>>, AllocError>
    ensures { IfOk result (λ steps. steps.items ≡ flat_map steps_in elements.now) }
{
    let mut steps = Vec::new(alloc);
    'elements: for element in elements {
        let ChartElement::Step(step) = element else {
            continue;
        };
        steps.push(StepPart::of(step))?;
    }
    Ok(steps)
}
