//! The steps of a chart, from the values of their leaves and back.
ghost use Rattle.std.specs.Prelude.{◌≡◌, ◌≤◌, ◌+◌, ◌++◌, drop, length, take};
ghost use Rattle.std.specs.List.{AllZip};
ghost use Rattle.st_values.specs.Values.{IsOfType};
ghost use Rattle.st_chart_runs.specs.Parts.{AreFirst};
ghost use Rattle.st_meaning.specs.Charts.{cell_in, cells_in, step_values, steps_values};
ghost use Rattle.st_leaves.specs.Charts.{step_types};
ghost use Rattle.st_meaning.specs.Sketches.{steps_types};

use crate::values::{duration, is_true, of_duration};
use st_charts::StepCell;
use st_leaves::leaves_of_step;
use st_values::{Value, truth};

/// The step whose leaves have these values.
fn step_in(cells: &[Value], has_pulses: bool) -> StepCell
    requires { AllZip IsOfType (step_types has_pulses) cells.now }
    ensures { result ≡ cell_in has_pulses cells.now }
{
    StepCell {
        active: is_true(cells[0]),
        elapsed: duration(cells[1]),
        since: duration(cells[2]),
        pulsed: has_pulses && is_true(cells[3]),
    }
}

/// Reads steps from the values of their leaves, behind which there may be others. Of each step `pulses` says whether it has pulses.
pub(crate) fn read_steps(cells: &[Value], pulses: &[bool], steps: &mut [StepCell])
    requires typed { AreFirst (steps_types pulses.now) cells.now }
    requires count { length steps.old ≡ length pulses.now }
    ensures { steps.new ≡ cells_in pulses.now cells.now }
{
    let mut rest = cells;
    for (i, has_pulses) in pulses.iter().enumerate() {
        let (own, others) = rest.split_at(leaves_of_step(*has_pulses) as usize);
        steps[i] = step_in(own, *has_pulses);
        rest = others;
    }
}

/// Writes a step as the values of its leaves, from a place on. It gives the place behind them.
fn write_step(step: StepCell, has_pulses: bool, cells: &mut [Value], place: usize) -> usize
    requires { place + length (step_types has_pulses) ≤ length cells.old }
    ensures place { result ≡ place + length (step_types has_pulses) }
    ensures cells { cells.new ≡ take place cells.old
        ++ (step_values has_pulses step
        ++ drop (place + length (step_types has_pulses)) cells.old) }
{
    if has_pulses {
        cells[place..place + 4].copy_from_slice(&[
            truth(step.active),
            of_duration(step.elapsed),
            of_duration(step.since),
            truth(step.pulsed),
        ]);
        place + 4
    } else {
        cells[place..place + 3].copy_from_slice(&[
            truth(step.active),
            of_duration(step.elapsed),
            of_duration(step.since),
        ]);
        place + 3
    }
}

/// Writes steps as the values of their leaves.
pub(crate) fn write_steps(steps: &[StepCell], pulses: &[bool], cells: &mut [Value])
    requires count { length steps.now ≡ length pulses.now }
    requires leaves { length cells.old ≡ length (steps_types pulses.now) }
    ensures { cells.new ≡ steps_values pulses.now steps.now }
{
    let mut place = 0;
    for (i, has_pulses) in pulses.iter().enumerate() {
        place = write_step(steps[i], *has_pulses, cells, place);
    }
}
