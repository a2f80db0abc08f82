//! Whether the condition of a transition is asked.
ghost use Rattle.std.specs.Prelude.{◌≡◌, ◌≤◌, ◌<◌, drop, length};
ghost use Rattle.std.specs.List.{All, list_all};
ghost use Rattle.st_chart_runs.specs.Views.{StandsAt, types_of};
ghost use Rattle.st_charts.specs.Charts.{active_in};
ghost use Rattle.st_meaning.specs.Charts.{cells_in, is_asked};
ghost use Rattle.st_meaning.specs.Sketches.{chart_size};
ghost use Rattle.st_meaning.specs.Sketches as sketches;
ghost use Rattle.st_meaning.specs.Statements.{stretch};
ghost use Rattle.st_meaning.specs.Views.{IsOf};

use crate::values::is_true;
use st_layout::Layout;
use st_meaning::Sketch;
use st_memory::Memory;

/// Whether a chart has begun, and all steps before its transition of this number are active. Its leaves stand from this one on.
pub fn is_asked<M: Memory>(
    memory: &M,
    layout: &Layout,
    sketch: &Sketch,
    leaf: u32,
    transition: u32,
) -> bool
    requires over { M.IsOver layout.now memory.now }
    requires few { length (M.content layout.now memory.now).values ≤ 65536 }
    requires stands { StandsAt sketch.now leaf (M.content layout.now memory.now).values }
    ensures { (s : sketches.Sketch) → IsOf sketch.now s
        → result ≡ is_asked s (stretch (M.content layout.now memory.now).values leaf (chart_size s))
        transition }
{
    if !is_true(memory.get(layout, leaf)) {
        return false;
    }
    let transitions = sketch.table().transitions.as_slice();
    if transition as usize >= transitions.len() {
        return true;
    }
    let before = transitions[transition as usize].before.as_slice();
    are_active(memory, layout, sketch, leaf, before)
}

/// Whether these steps are active.
fn are_active<M: Memory>(
    memory: &M,
    layout: &Layout,
    sketch: &Sketch,
    leaf: u32,
    steps: &[u32],
) -> bool
    requires over { M.IsOver layout.now memory.now }
    requires few { length (M.content layout.now memory.now).values ≤ 65536 }
    requires stands { StandsAt sketch.now leaf (M.content layout.now memory.now).values }
    requires steps { All (λ s. s < length sketch.now.pulses) steps.now }
    ensures { result ≡ list_all
        (active_in (cells_in sketch.now.pulses (drop 1
        (stretch (M.content layout.now memory.now).values leaf (length (types_of sketch.now))))))
        steps.now }
{
    let mut all = true;
    'steps: for step in steps {
        let active = is_active(memory, layout, sketch, leaf, *step);
        all = all && active;
    }
    all
}

/// Whether the step of this number is active.
fn is_active<M: Memory>(memory: &M, layout: &Layout, sketch: &Sketch, leaf: u32, step: u32) -> bool
    requires over { M.IsOver layout.now memory.now }
    requires few { length (M.content layout.now memory.now).values ≤ 65536 }
    requires stands { StandsAt sketch.now leaf (M.content layout.now memory.now).values }
    requires step { step < length sketch.now.pulses }
    ensures { result ≡ active_in
        (cells_in sketch.now.pulses
        (drop 1 (stretch (M.content layout.now memory.now).values leaf
        (length (types_of sketch.now))))) step }
{
    let place = leaf as usize + sketch.step_offset(step as usize);
    is_true(memory.get(layout, place as u32))
}
