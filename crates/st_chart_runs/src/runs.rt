//! One invocation of a chart, over the leaves of a memory.
ghost use Rattle.std.specs.Prelude.{◌≡◌, ◌≤◌, ◌-◌, ◌^◌, length, map, min, take};
ghost use Rattle.st_chart_runs.specs.Views.{HasRoom, StandsAt, room_of, setting_at, types_of};
ghost use Rattle.st_meaning.specs.Charts.{names_on};
ghost use Rattle.st_meaning.specs.Sketches.{chart_size};
ghost use Rattle.st_meaning.specs.Sketches as sketches;
ghost use Rattle.st_meaning.specs.Statements.{chart_done, is_nonzero, stretch, times_done};
ghost use Rattle.st_meaning.specs.Views.{IsOf};

use crate::cells::{move_cells_on, set_cell_times};
use crate::leaves::{load_values, store_values};
use crate::rooms::leaves_of;
use crate::workspace::Workspace;
use st_charts::StepCell;
use st_layout::Layout;
use st_meaning::Sketch;
use st_memory::Memory;
use st_values::Value;

/// Sets the times of the active steps of a chart at a moment, in milliseconds. Its leaves stand from this one on.
pub fn set_times<M: Memory>(
    memory: &mut M,
    layout: &Layout,
    sketch: &Sketch,
    leaf: u32,
    now: i64,
    workspace: &mut Workspace,
)
    requires over { M.IsOver layout.now memory.old }
    requires few { length (M.content layout.now memory.old).values ≤ 65536 }
    requires stands { StandsAt sketch.now leaf (M.content layout.now memory.old).values }
    requires room { HasRoom (room_of workspace.old) sketch.now }
    ensures over { M.IsOver layout.now memory.new }
    ensures forced { (M.content layout.now memory.new).forced
        ≡ (M.content layout.now memory.old).forced }
    ensures values { (s : sketches.Sketch) → IsOf sketch.now s
        → (M.content layout.now memory.new).values
        ≡ times_done (setting_at now (M.content layout.now memory.old).forced)
        s leaf (M.content layout.now memory.old).values }
    ensures room { room_of workspace.new ≡ room_of workspace.old }
{
    let cells = workspace.cells.as_mut_slice();
    let steps = workspace.steps.as_mut_slice();
    let flags = workspace.flags.as_mut_slice();
    set_times_in(memory, layout, sketch, leaf, now, cells, steps, flags);
}

/// Takes which conditions of the transitions are TRUE, as numbers, in the order of the text; does what follows of them at a moment;
/// and keeps in the workspace which names are on.
pub fn invoke_chart<M: Memory>(
    memory: &mut M,
    layout: &Layout,
    sketch: &Sketch,
    leaf: u32,
    conditions: &[i64],
    now: i64,
    workspace: &mut Workspace,
)
    requires over { M.IsOver layout.now memory.old }
    requires few { length (M.content layout.now memory.old).values ≤ 65536 }
    requires stands { StandsAt sketch.now leaf (M.content layout.now memory.old).values }
    requires conditions { length conditions.now ≡ length sketch.now.passages }
    requires room { HasRoom (room_of workspace.old) sketch.now }
    ensures over { M.IsOver layout.now memory.new }
    ensures forced { (M.content layout.now memory.new).forced
        ≡ (M.content layout.now memory.old).forced }
    ensures values { (s : sketches.Sketch) → IsOf sketch.now s
        → (M.content layout.now memory.new).values
        ≡ chart_done (setting_at now (M.content layout.now memory.old).forced)
        s leaf (map is_nonzero conditions.now) (M.content layout.now memory.old).values }
    ensures on { (s : sketches.Sketch) → IsOf sketch.now s
        → take (length sketch.now.variables) workspace.new.on
        ≡ names_on s (map is_nonzero conditions.now)
        now (stretch (M.content layout.now memory.old).values leaf (chart_size s)) }
    ensures room { room_of workspace.new ≡ room_of workspace.old }
{
    let cells = workspace.cells.as_mut_slice();
    let steps = workspace.steps.as_mut_slice();
    let flags = workspace.flags.as_mut_slice();
    let holds = workspace.conditions.as_mut_slice();
    let on = workspace.on.as_mut_slice();
    invoke_in(
        memory, layout, sketch, leaf, conditions, now, cells, steps, flags, holds, on,
    );
}

/// The same, in these cells, steps and flags.
fn set_times_in<M: Memory>(
    memory: &mut M,
    layout: &Layout,
    sketch: &Sketch,
    leaf: u32,
    now: i64,
    cells: &mut [Value],
    steps: &mut [StepCell],
    flags: &mut [bool],
)
    requires over { M.IsOver layout.now memory.old }
    requires few { length (M.content layout.now memory.old).values ≤ 65536 }
    requires stands { StandsAt sketch.now leaf (M.content layout.now memory.old).values }
    requires cells { min (length (types_of sketch.now)) (2 ^ 64 - 1) ≤ length cells.old }
    requires steps { length sketch.now.pulses ≤ length steps.old }
    requires names { length sketch.now.variables ≤ length flags.old }
    ensures over { M.IsOver layout.now memory.new }
    ensures forced { (M.content layout.now memory.new).forced
        ≡ (M.content layout.now memory.old).forced }
    ensures values { (s : sketches.Sketch) → IsOf sketch.now s
        → (M.content layout.now memory.new).values
        ≡ times_done (setting_at now (M.content layout.now memory.old).forced)
        s leaf (M.content layout.now memory.old).values }
{
    let cells = &mut cells[..leaves_of(sketch)];
    let steps = &mut steps[..sketch.steps()];
    let flags = &mut flags[..sketch.names()];
    set_times_over(memory, layout, sketch, leaf, now, cells, steps, flags);
}

/// The same with a cell for each leaf, and with room for just as many steps and flags.
fn set_times_over<M: Memory>(
    memory: &mut M,
    layout: &Layout,
    sketch: &Sketch,
    leaf: u32,
    now: i64,
    cells: &mut [Value],
    steps: &mut [StepCell],
    flags: &mut [bool],
)
    requires over { M.IsOver layout.now memory.old }
    requires few { length (M.content layout.now memory.old).values ≤ 65536 }
    requires stands { StandsAt sketch.now leaf (M.content layout.now memory.old).values }
    requires cells { length cells.old ≡ length (types_of sketch.now) }
    requires steps { length steps.old ≡ length sketch.now.pulses }
    requires names { length flags.old ≡ length sketch.now.variables }
    ensures over { M.IsOver layout.now memory.new }
    ensures forced { (M.content layout.now memory.new).forced
        ≡ (M.content layout.now memory.old).forced }
    ensures values { (s : sketches.Sketch) → IsOf sketch.now s
        → (M.content layout.now memory.new).values
        ≡ times_done (setting_at now (M.content layout.now memory.old).forced)
        s leaf (M.content layout.now memory.old).values }
{
    load_values(memory, layout, leaf, cells);
    set_cell_times(sketch, cells, now, steps, flags);
    store_values(memory, layout, leaf, cells);
}

/// The same, in these cells, steps, flags, conditions and names.
fn invoke_in<M: Memory>(
    memory: &mut M,
    layout: &Layout,
    sketch: &Sketch,
    leaf: u32,
    numbers: &[i64],
    now: i64,
    cells: &mut [Value],
    steps: &mut [StepCell],
    flags: &mut [bool],
    conditions: &mut [bool],
    on: &mut [bool],
)
    requires over { M.IsOver layout.now memory.old }
    requires few { length (M.content layout.now memory.old).values ≤ 65536 }
    requires stands { StandsAt sketch.now leaf (M.content layout.now memory.old).values }
    requires cells { min (length (types_of sketch.now)) (2 ^ 64 - 1) ≤ length cells.old }
    requires steps { length sketch.now.pulses ≤ length steps.old }
    requires names { length sketch.now.variables ≤ length flags.old }
    requires numbers { length numbers.now ≡ length sketch.now.passages }
    requires conditions { length sketch.now.passages ≤ length conditions.old }
    requires on { length sketch.now.variables ≤ length on.old }
    ensures over { M.IsOver layout.now memory.new }
    ensures forced { (M.content layout.now memory.new).forced
        ≡ (M.content layout.now memory.old).forced }
    ensures values { (s : sketches.Sketch) → IsOf sketch.now s
        → (M.content layout.now memory.new).values
        ≡ chart_done (setting_at now (M.content layout.now memory.old).forced)
        s leaf (map is_nonzero numbers.now) (M.content layout.now memory.old).values }
    ensures on { (s : sketches.Sketch) → IsOf sketch.now s
        → take (length sketch.now.variables) on.new
        ≡ names_on s (map is_nonzero numbers.now)
        now (stretch (M.content layout.now memory.old).values leaf (chart_size s)) }
{
    let cells = &mut cells[..leaves_of(sketch)];
    let steps = &mut steps[..sketch.steps()];
    let flags = &mut flags[..sketch.names()];
    let holds = &mut conditions[..sketch.transitions()];
    let on = &mut on[..sketch.names()];
    set_conditions(numbers, holds);
    invoke_over(
        memory, layout, sketch, leaf, now, cells, steps, flags, holds, on,
    );
}

/// The same with a cell for each leaf, and with room for just as many steps, flags, conditions and names. What is on stands in the
/// last.
fn invoke_over<M: Memory>(
    memory: &mut M,
    layout: &Layout,
    sketch: &Sketch,
    leaf: u32,
    now: i64,
    cells: &mut [Value],
    steps: &mut [StepCell],
    flags: &mut [bool],
    conditions: &mut [bool],
    on: &mut [bool],
)
    requires over { M.IsOver layout.now memory.old }
    requires few { length (M.content layout.now memory.old).values ≤ 65536 }
    requires stands { StandsAt sketch.now leaf (M.content layout.now memory.old).values }
    requires cells { length cells.old ≡ length (types_of sketch.now) }
    requires steps { length steps.old ≡ length sketch.now.pulses }
    requires names { length flags.old ≡ length sketch.now.variables }
    requires conditions { length conditions.old ≡ length sketch.now.passages }
    requires on { length on.old ≡ length sketch.now.variables }
    ensures over { M.IsOver layout.now memory.new }
    ensures forced { (M.content layout.now memory.new).forced
        ≡ (M.content layout.now memory.old).forced }
    ensures values { (s : sketches.Sketch) → IsOf sketch.now s
        → (M.content layout.now memory.new).values
        ≡ chart_done (setting_at now (M.content layout.now memory.old).forced)
        s leaf conditions.old (M.content layout.now memory.old).values }
    ensures on { (s : sketches.Sketch) → IsOf sketch.now s
        → on.new ≡ names_on s conditions.old now
        (stretch (M.content layout.now memory.old).values leaf (chart_size s)) }
{
    load_values(memory, layout, leaf, cells);
    move_cells_on(sketch, cells, now, steps, flags, conditions, on);
    store_values(memory, layout, leaf, cells);
}

/// Whether a number isn't 0.
fn is_nonzero(number: i64) -> bool
    ensures { result ≡ is_nonzero number }
{
    number != 0
}

/// Sets which conditions are TRUE.
fn set_conditions(numbers: &[i64], conditions: &mut [bool])
    requires { length conditions.old ≡ length numbers.now }
    ensures { conditions.new ≡ map is_nonzero numbers.now }
{
    for (i, number) in numbers.iter().enumerate() {
        conditions[i] = is_nonzero(*number);
    }
}
