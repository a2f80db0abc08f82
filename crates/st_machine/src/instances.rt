//! Running code, and what it enters, calls and works out, until it ends or a fault stops it.
ghost use Rattle.std.specs.Prelude.{◌≡◌, ◌≤◌, ◌<◌, is_some, length, IfErr, IfOk, IsTrue, None};
ghost use Rattle.st_code.specs.Beside.{line_at};
ghost use Rattle.st_code.specs.Relative.{code_from};
ghost use Rattle.st_machine.specs.Blocks.{Entrance, LeavesAs, Run, UnitWork, UnitWorkLeaves, made_by};
ghost use Rattle.st_chart_runs.specs.Views.{room_of};
ghost use Rattle.st_chart_runs.specs.Charts.{ChartsFit};
ghost use Rattle.st_machine.specs.Levels.{rooms_for, rooms_of};

use crate::calls::call;
use crate::charts::do_chart;
use crate::run::Halt;
use crate::stacks::Level;
use crate::stretches::{Pause, run_stretch};
use crate::units::Units;
use st_chart_runs::Workspace;
use st_code::{Fused, Instr};
use st_instructions::{Stack, is_own, perform, place_after};
use st_layout::Layout;
use st_meaning::RunFaultKind;
use st_memory::Memory;

/// Runs the body of the block of this number on the instance whose first leaf has the other one. There is a level for each one up to
/// that of the block. It gives how many steps are left.
///
/// # Errors
/// At a fault, with the unit that it is in: this one, or one that its body invoked or called.
#[cycle(enter)]
pub(crate) fn enter<M: Memory>(
    number: usize,
    first: u32,
    units: &Units,
    memory: &mut M,
    layout: &Layout,
    levels: &mut [Level],
    work: &mut Workspace,
    now: i64,
    limit: u32,
) -> Result<u32, Halt>
    requires over { M.IsOver layout.now memory.old }
    requires may { Entrance number first units.now (rooms_of levels.old) layout.now }
    requires fit { ChartsFit units.now.charts (room_of work.old) }
    ensures over { M.IsOver layout.now memory.new }
    ensures forced { (M.content layout.now memory.new).forced
        ≡ (M.content layout.now memory.old).forced }
    ensures leaves { (entrance : Entrance number first units.now (rooms_of levels.old) layout.now)
        → LeavesAs (made_by entrance.said number first now (M.content layout.now memory.old) limit)
        (M.content layout.now memory.new).values result }
    ensures steps { IfOk result (λ left. left ≤ limit) }
    ensures rooms { rooms_of levels.new ≡ rooms_of levels.old }
    ensures charts { room_of work.new ≡ room_of work.old }
{
    let blocks = units.blocks();
    let block = &blocks[number];
    let _leaves = layout.len();
    let (lower, upper) = levels.split_at_mut(block.level());
    let level = &mut upper[0];
    let stack = &mut level.stack;
    match run_body(
        block.code(),
        first,
        units,
        memory,
        layout,
        stack,
        lower,
        work,
        now,
        limit,
    ) {
        Ok(left) => Ok(left),
        Err(halt) => Err(halt.within(number)),
    }
}

/// Does an instruction that enters an instance, calls a function, or is about a chart. There is a level for each one up to that of the
/// block or function. It gives how many steps are left.
///
/// # Errors
/// At a fault, with the unit that it is in.
#[cycle(enter)]
pub(crate) fn do_with_units<M: Memory>(
    instr: &Instr,
    units: &Units,
    memory: &mut M,
    layout: &Layout,
    stack: &mut Stack,
    levels: &mut [Level],
    work: &mut Workspace,
    now: i64,
    limit: u32,
) -> Result<u32, Halt>
    requires over { M.IsOver layout.now memory.old }
    requires may { UnitWork instr.now units.now (rooms_of levels.old) (room_of work.old)
        layout.now now (M.content layout.now memory.old) stack.old limit }
    ensures over { M.IsOver layout.now memory.new }
    ensures forced { (M.content layout.now memory.new).forced
        ≡ (M.content layout.now memory.old).forced }
    ensures does { UnitWorkLeaves instr.now units.now (rooms_of levels.old) (room_of work.old)
        layout.now now (M.content layout.now memory.old) stack.old limit
        result (M.content layout.now memory.new) stack.new }
    ensures steps { IfOk result (λ left. left ≤ limit) }
    ensures unit { IfErr result (λ halt. IsTrue (is_some halt.unit)) }
    ensures room { stack.new.1 ≡ stack.old.1 }
    ensures rooms { rooms_of levels.new ≡ rooms_of levels.old }
    ensures charts { room_of work.new ≡ room_of work.old }
{
    match *instr {
        Instr::Enter(leaf, unit) => {
            enter(unit, leaf, units, memory, layout, levels, work, now, limit)
        }
        Instr::Call(unit, inputs, below) => {
            call(unit, inputs, below, units.functions(), stack, levels, limit)
        }
        _ => {
            do_chart(instr, units.charts(), memory, layout, stack, work, now);
            Ok(limit)
        }
    }
}

/// Runs code for the instance whose first leaf has this number, or the program's own code, where that is 0. What it enters are instances
/// of the blocks among the units, and what it calls are the functions. It gives how many steps are left.
///
/// # Errors
/// At a fault, as code that takes more steps than the limit.
#[cycle(enter)]
pub(crate) fn run_body<M: Memory>(
    code: &Fused,
    first: u32,
    units: &Units,
    memory: &mut M,
    layout: &Layout,
    stack: &mut Stack,
    levels: &mut [Level],
    work: &mut Workspace,
    now: i64,
    limit: u32,
) -> Result<u32, Halt>
    requires over { M.IsOver layout.now memory.old }
    requires first { first ≤ 65536 }
    requires runs { Run (code_from first code.now) units.now
        (rooms_for stack.old.1 levels.old (room_of work.old))
        layout.now now (M.content layout.now memory.old) limit }
    ensures over { M.IsOver layout.now memory.new }
    ensures forced { (M.content layout.now memory.new).forced
        ≡ (M.content layout.now memory.old).forced }
    ensures ends { (run : Run (code_from first code.now) units.now
        (rooms_for stack.old.1 levels.old (room_of work.old))
        layout.now now (M.content layout.now memory.old) limit)
        → LeavesAs run.outcome (M.content layout.now memory.new).values result }
    ensures steps { IfOk result (λ left. left ≤ limit) }
    ensures room { stack.new.1 ≡ stack.old.1 }
    ensures rooms { rooms_of levels.new ≡ rooms_of levels.old }
    ensures charts { room_of work.new ≡ room_of work.old }
{
    let instrs = code.instrs();
    let _leaves = layout.len();
    stack.clear();
    let mut place = 0;
    let mut left = limit;
    'stretches: loop {
        let stretch = run_stretch(code, first, memory, layout, stack, now, place, left);
        place = stretch.place;
        left = stretch.left;
        match stretch.pause {
            Pause::End => return Ok(left),
            Pause::Stop(kind) => return Err(halt_at(kind, code, place)),
            Pause::Left => {}
        }
        let instr = instrs[place].from_leaf(first);
        if !is_own(&instr) {
            left = do_with_units(
                &instr, units, memory, layout, stack, levels, work, now, left,
            )?;
            place += 1;
            continue;
        }
        let to = perform(&instr, memory, layout, stack, now, &mut left);
        match place_after(to, place) {
            Ok(other) => place = other,
            Err(kind) => return Err(halt_at(kind, code, place)),
        }
    }
}

/// The halt of a fault at the instruction of a place.
fn halt_at(kind: RunFaultKind, code: &Fused, place: usize) -> Halt
    requires { place < length code.now }
    ensures { result ≡ record { kind = kind; line = (line_at code.now place).line; unit = None } }
{
    let line = code.line(place);
    let unit = None;
    Halt { kind, line, unit }
}
