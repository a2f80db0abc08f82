//! The instructions about charts.
ghost use Rattle.std.specs.Prelude.{◌≡◌, ◌≤◌, ◌+◌, ◌++◌, drop, false, get_or, length, map, Some, IsTrue};
ghost use Rattle.st_chart_runs.specs.Charts.{chart_at};
ghost use Rattle.st_chart_runs.specs.Views.{room_of};
ghost use Rattle.st_code.specs.Machine.{truth_of};
ghost use Rattle.st_machine.specs.Charts.{ChartWork, ChartWorkLeaves, is_known, on_among};

use st_chart_runs::{Workspace, invoke_chart, is_asked, set_times};
use st_code::Instr;
use st_instructions::Stack;
use st_layout::Layout;
use st_meaning::Sketch;
use st_memory::Memory;

/// A BOOL's cell.
fn truth(is: bool) -> i64
    ensures { result ≡ truth_of is }
{
    if is { 1 } else { 0 }
}

/// The chart of the unit of this number.
fn chart_of(charts: &[Option<Sketch>], unit: u32) -> &Sketch
    requires { IsTrue (is_known charts.now unit) }
    ensures { chart_at charts.now unit ≡ Some result.now }
{
    match &charts[unit as usize] {
        Some(sketch) => sketch,
        None => unreachable!(),
    }
}

/// Does `Times`, `Ask` or `Chart`.
pub(crate) fn do_chart<M: Memory>(
    instr: &Instr,
    charts: &[Option<Sketch>],
    memory: &mut M,
    layout: &Layout,
    stack: &mut Stack,
    workspace: &mut Workspace,
    now: i64,
)
    requires over { M.IsOver layout.now memory.old }
    requires work { ChartWork instr.now charts.now (room_of workspace.old) now
        (M.content layout.now memory.old) stack.old }
    ensures over { M.IsOver layout.now memory.new }
    ensures forced { (M.content layout.now memory.new).forced
        ≡ (M.content layout.now memory.old).forced }
    ensures does { ChartWorkLeaves instr.now charts.now (room_of workspace.old) now
        (M.content layout.now memory.old) stack.old
        (M.content layout.now memory.new) stack.new }
    ensures stack { stack.new.1 ≡ stack.old.1 }
    ensures room { room_of workspace.new ≡ room_of workspace.old }
{
    let _leaves = layout.len();
    match *instr {
        Instr::Times(unit, leaf) => {
            set_times(memory, layout, chart_of(charts, unit), leaf, now, workspace);
        }
        Instr::Ask(unit, leaf, number) => {
            let asked = is_asked(memory, layout, chart_of(charts, unit), leaf, number);
            stack.push(truth(asked));
        }
        Instr::Chart(unit, leaf) => {
            let sketch = chart_of(charts, unit);
            let conditions = stack.newest(sketch.transitions());
            invoke_chart(memory, layout, sketch, leaf, conditions, now, workspace);
            put_names(sketch, &workspace.on()[..sketch.names()], stack);
        }
        _ => unreachable!(),
    }
}

/// Takes the conditions away, and puts which names of a chart are on: those of its actions, and above them those that are variables.
fn put_names(sketch: &Sketch, on: &[bool], stack: &mut Stack)
    requires names { length sketch.now.variables ≡ length on.now }
    requires room { length (on_among sketch.now.variables on.now)
        + (length sketch.now.actions + length (drop (length sketch.now.passages) stack.old.0))
        ≤ stack.old.1 }
    ensures cells { stack.new.0
        ≡ map truth_of (on_among sketch.now.variables on.now)
        ++ (map truth_of (map (λ n. get_or on.now n false) sketch.now.actions)
        ++ drop (length sketch.now.passages) stack.old.0) }
    ensures room { stack.new.1 ≡ stack.old.1 }
{
    stack.lower(sketch.transitions());
    put_actions(sketch.actions(), on, stack);
    put_variables(sketch.variables(), on, stack);
}

/// Whether the name of this number is on, where there is one.
fn is_on(on: &[bool], number: usize) -> bool
    ensures { result ≡ get_or on.now number false }
{
    if number < on.len() { on[number] } else { false }
}

/// Puts for each action whether its name is on, the first one on top.
fn put_actions(actions: &[u32], on: &[bool], stack: &mut Stack)
    requires { length actions.now + length stack.old.0 ≤ stack.old.1 }
    ensures cells { stack.new.0
        ≡ map truth_of (map (λ n. get_or on.now n false) actions.now) ++ stack.old.0 }
    ensures room { stack.new.1 ≡ stack.old.1 }
{
    let mut place = actions.len();
    while place > 0 {
        place -= 1;
        stack.push(truth(is_on(on, actions[place] as usize)));
    }
}

/// Puts for each name that is a variable whether it is on, the first one on top.
fn put_variables(variables: &[bool], on: &[bool], stack: &mut Stack)
    requires names { length variables.now ≡ length on.now }
    requires room { length (on_among variables.now on.now) + length stack.old.0 ≤ stack.old.1 }
    ensures cells { stack.new.0 ≡ map truth_of (on_among variables.now on.now) ++ stack.old.0 }
    ensures room { stack.new.1 ≡ stack.old.1 }
{
    let mut place = variables.len();
    while place > 0 {
        place -= 1;
        if variables[place] {
            stack.push(truth(is_on(on, place)));
        }
    }
}
