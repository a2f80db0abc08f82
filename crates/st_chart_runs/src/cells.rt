//! One invocation of a chart, over the values of its leaves.
ghost use Rattle.std.specs.Prelude.{◌≡◌, length};
ghost use Rattle.std.specs.List.{AllZip};
ghost use Rattle.st_values.specs.Values.{IsOfType};
ghost use Rattle.st_chart_runs.specs.Views.{types_of};
ghost use Rattle.st_meaning.specs.Charts.{moved_on, names_on, times_set};
ghost use Rattle.st_meaning.specs.Sketches as sketches;
ghost use Rattle.st_meaning.specs.Views.{IsOf};

use crate::state::{read_state, write_state};
use st_charts::{StepCell, chart_step, chart_times};
use st_meaning::Sketch;
use st_values::Value;

/// Sets the times of the active steps at a moment.
pub(crate) fn set_cell_times(
    sketch: &Sketch,
    cells: &mut [Value],
    now: i64,
    steps: &mut [StepCell],
    flags: &mut [bool],
)
    requires typed { AllZip IsOfType (types_of sketch.now) cells.old }
    requires steps { length steps.old ≡ length sketch.now.pulses }
    requires names { length flags.old ≡ length sketch.now.variables }
    ensures { (s : sketches.Sketch) → IsOf sketch.now s → cells.new ≡ times_set s now cells.old }
{
    let begun = read_state(sketch, cells, steps, flags);
    chart_times(begun, steps, now);
    write_state(sketch, begun, steps, flags, cells);
}

/// Does what follows of the conditions of the transitions at a moment, and says which names are on.
pub(crate) fn move_cells_on(
    sketch: &Sketch,
    cells: &mut [Value],
    now: i64,
    steps: &mut [StepCell],
    flags: &mut [bool],
    conditions: &mut [bool],
    on: &mut [bool],
)
    requires typed { AllZip IsOfType (types_of sketch.now) cells.old }
    requires steps { length steps.old ≡ length sketch.now.pulses }
    requires names { length flags.old ≡ length sketch.now.variables }
    requires conditions { length conditions.old ≡ length sketch.now.passages }
    requires on { length on.old ≡ length sketch.now.variables }
    ensures cells { (s : sketches.Sketch) → IsOf sketch.now s
        → cells.new ≡ moved_on s conditions.old now cells.old }
    ensures on { (s : sketches.Sketch) → IsOf sketch.now s
        → on.new ≡ names_on s conditions.old now cells.old }
{
    let begun = read_state(sketch, cells, steps, flags);
    chart_step(sketch.table(), begun, steps, flags, conditions, on, now);
    write_state(sketch, true, steps, flags, cells);
}
