//! The names of a chart's steps and actions (2.6).
ghost use Rattle.std.specs.Prelude.{◌≡◌, ◌++◌, [], IfOk, OnOk};
ghost use Rattle.st_scopes.specs.Charts.{action_names, chart_names, element_names, step_names};
ghost use Rattle.st_types.specs.Inside.{declared_by};
ghost use Rattle.st_types.specs.Names.{actions_in, steps_in};

use st_tree::tree::{Body, ChartElement};
use st_types::{NameTable, UnitKind};
use std::alloc::{AllocError, Global};

/// The names of a chart's steps and actions.
#[derive(Drop)]
pub struct ChartNames<'a> {
    pub steps: NameTable<'a>,
    pub actions: NameTable<'a>,
}

impl<'a> ChartNames<'a> {
    /// Of a unit's chart. A unit without a chart has none.
    pub fn of_unit(alloc: Global, unit: UnitKind<'a>) -> Result<ChartNames<'a>, AllocError>
        ensures { IfOk result (λ names. names ≡ chart_names (declared_by unit.entry)) }
    {
        let body = match unit {
            UnitKind::Block(block) => &block.body,
            UnitKind::Program(program) => &program.body,
            UnitKind::Type(_) | UnitKind::Function(_) => return Ok(ChartNames::new(alloc)),
        };
        match body {
            Body::Statements(_) => Ok(ChartNames::new(alloc)),
            Body::Chart(elements) => ChartNames::of_elements(alloc, elements.as_slice()),
        }
    }

    /// None. They take no memory.
    fn new(alloc: Global) -> ChartNames<'a>
        ensures { result ≡ element_names [] }
    {
        ChartNames {
            steps: NameTable::new(alloc),
            actions: NameTable::new(alloc),
        }
    }

    /// Of a chart with these elements.
    fn of_elements(
        alloc: Global,
        elements: &'a [ChartElement],
    ) -> Result<ChartNames<'a>, AllocError>
        ensures { IfOk result (λ names. names ≡ element_names elements.now) }
    {
        let mut names = ChartNames::new(alloc);
        for element in elements {
            names.add(element)?;
        }
        Ok(names)
    }

    /// Adds the name of an element.
    fn add(&mut self, element: &'a ChartElement) -> Result<(), AllocError>
        ensures steps { OnOk result
            (self.new.steps ≡ self.old.steps ++ step_names (steps_in element.now)) }
        ensures actions { OnOk result
            (self.new.actions ≡ self.old.actions ++ action_names (actions_in element.now)) }
    {
        match element {
            ChartElement::Step(step) => self.steps.push(step.name.spelling.as_slice()),
            ChartElement::Action(action) => self.actions.push(action.name.spelling.as_slice()),
            ChartElement::Transition(_) => Ok(()),
        }
    }
}
