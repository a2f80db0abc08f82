//! What a chart keeps of itself, from the values of its leaves and back.
ghost use Rattle.std.specs.Prelude.{◌≡◌, ◌+◌, ◌∷◌, ◌++◌, drop, false, length, replicate};
ghost use Rattle.std.specs.List.{AllZip};
ghost use Rattle.st_blocks.specs.Cells.{flag_at};
ghost use Rattle.st_chart_runs.specs.Views.{types_of};
ghost use Rattle.st_values.specs.Values.{truth, IsOfType};
ghost use Rattle.st_meaning.specs.Charts.{cells_in, flags_from, flags_values, steps_values};
ghost use Rattle.st_meaning.specs.Views.{flags_place};

use crate::flags::{read_flags, write_flags};
use crate::steps::{read_steps, write_steps};
use crate::values::is_true;
use st_charts::StepCell;
use st_meaning::Sketch;
use st_values::{Value, truth};

/// Reads the steps and the flags of a chart, and says whether it has begun.
pub(crate) fn read_state(
    sketch: &Sketch,
    cells: &[Value],
    steps: &mut [StepCell],
    flags: &mut [bool],
) -> bool
    requires typed { AllZip IsOfType (types_of sketch.now) cells.now }
    requires leaves { length cells.now ≡ flags_place sketch.now.pulses + length sketch.now.stored }
    requires steps { length steps.old ≡ length sketch.now.pulses }
    requires names { length flags.old ≡ length sketch.now.variables }
    ensures begun { result ≡ flag_at cells.now 0 }
    ensures steps { steps.new ≡ cells_in sketch.now.pulses (drop 1 cells.now) }
    ensures flags { flags.new ≡ flags_from sketch.now.stored
        (drop (flags_place sketch.now.pulses) cells.now) (replicate (length flags.old) false) }
{
    let behind = sketch.flags_offset();
    read_steps(&cells[1..], sketch.pulses(), steps);
    read_flags(&cells[behind..], sketch.stored(), flags);
    is_true(cells[0])
}

/// Writes whether a chart has begun, its steps and its flags.
pub(crate) fn write_state(
    sketch: &Sketch,
    begun: bool,
    steps: &[StepCell],
    flags: &[bool],
    cells: &mut [Value],
)
    requires leaves { length cells.old ≡ flags_place sketch.now.pulses + length sketch.now.stored }
    requires steps { length steps.now ≡ length sketch.now.pulses }
    requires names { length flags.now ≡ length sketch.now.variables }
    ensures { cells.new ≡ truth begun ∷ (steps_values sketch.now.pulses steps.now
        ++ flags_values sketch.now.stored flags.now) }
{
    let behind = sketch.flags_offset();
    cells[0] = truth(begun);
    write_steps(steps, sketch.pulses(), &mut cells[1..behind]);
    write_flags(flags, sketch.stored(), &mut cells[behind..]);
}
