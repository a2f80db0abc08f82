//! Steps, and whether they have pulses.
ghost use Rattle.std.specs.List.{list_any};
ghost use Rattle.std.specs.Prelude.{◌≡◌};
ghost use Rattle.st_leaves.specs.Charts.{is_pulse};

use st_leaves::has_pulse;
use st_tree::Word;
use st_tree::tree::Step;
use std::marker::Model;

/// A step, and whether it has pulses: its associations are passed once.
#[derive(Drop)]
pub struct StepPart<'a> {
    step: &'a Step,
    /// Whether it has an association with the qualifier P.
    has_pulse: bool,
}

impl<'a> Model for StepPart<'a> {
    ghost use Rattle.st_tree.specs.declared.tree.unit.Step.{Step};

    ghost Value = { Step };

    ghost use Rattle.st_chart_parts.specs.Inside.{KnowsPulses, step_seen};

    ghost view = { step_seen };

    ghost invariant = { KnowsPulses };
}

impl<'a> StepPart<'a> {
    /// Of this step.
    pub(crate) fn of(step: &'a Step) -> StepPart<'a>
        ensures { result ≡ step.now }
    {
        StepPart {
            step,
            has_pulse: has_pulse(step.associations.as_slice()),
        }
    }

    /// The step's name, as the program spells it.
    pub fn name(&self) -> &'a Word
        ensures { result.now ≡ self.now.name.spelling }
    {
        &self.step.name.spelling
    }

    /// Whether it is the initial step.
    pub fn is_initial(&self) -> bool
        ensures { result ≡ self.now.is_initial }
    {
        self.step.is_initial
    }

    /// Whether it has an association with the qualifier P.
    pub fn has_pulse(&self) -> bool
        ensures { result ≡ list_any is_pulse self.now.associations }
    {
        self.has_pulse
    }
}
