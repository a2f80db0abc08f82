//! Invocations of standard function blocks.
ghost use Rattle.std.specs.Prelude.{◌≡◌, ◌≤◌, ◌+◌, drop, length, IsTrue};
ghost use Rattle.st_blocks.specs.Cells.{types_of};
ghost use Rattle.st_code.specs.Machine.{has_leaves};
ghost use Rattle.st_code.specs.declared.instr.Instr.{Instr};
ghost use Rattle.st_chart_runs.specs.Views.{setting_at};
ghost use Rattle.st_instructions.specs.Moves.{Writes, environment_at};
ghost use Rattle.st_chart_runs.specs.Leaves.{FitFrom};
ghost use Rattle.st_meaning.specs.Statements.{block_done, stretch, unless_forced, with_stretch};

use crate::cells::NO_VALUE;
use crate::leaves::value_as;
use crate::moves::Move;
use st_blocks::{MAX_BLOCK_LEAVES, Timer, Ton, block_step, leaf_count};
use st_chart_runs::{load_values, store_value, store_values};
use st_layout::Layout;
use st_memory::Memory;
use st_types::StandardBlock;
use st_values::{Elem, Value};

/// Does `Invoke`. Timers are done by themselves, so that it is known as their code is made where each of their leaves lies.
#[inline(never)]
pub fn invoke<M: Memory>(
    memory: &mut M,
    layout: &Layout,
    block: StandardBlock,
    leaf: u32,
    now: i64,
) -> Move
    requires over { M.IsOver layout.now memory.old }
    requires few { length (M.content layout.now memory.old).values ≤ 65536 }
    requires ready { IsTrue (has_leaves (M.content layout.now memory.old).values block leaf) }
    ensures over { M.IsOver layout.now memory.new }
    ensures forced { (M.content layout.now memory.new).forced
        ≡ (M.content layout.now memory.old).forced }
    ensures does { Writes (environment_at now (M.content layout.now memory.old).forced)
        (Instr.Invoke block leaf) result (M.content layout.now memory.old).values
        (M.content layout.now memory.new).values }
{
    match block {
        StandardBlock::Ton => do_ton(memory, layout, leaf, now),
        StandardBlock::Tof => do_tof(memory, layout, leaf, now),
        StandardBlock::Tp => do_tp(memory, layout, leaf, now),
        _ => {
            let mut cells = [NO_VALUE; MAX_BLOCK_LEAVES];
            let cells = &mut cells[..leaf_count(block)];
            do_block(memory, layout, block, leaf, now, cells);
        }
    }
    Move::On
}

/// Does what one invocation of a block does to its leaves. There is a cell for each of them.
fn do_block<M: Memory>(
    memory: &mut M,
    layout: &Layout,
    block: StandardBlock,
    leaf: u32,
    now: i64,
    cells: &mut [Value],
)
    requires over { M.IsOver layout.now memory.old }
    requires few { length (M.content layout.now memory.old).values ≤ 65536 }
    requires leaves { IsTrue (has_leaves (M.content layout.now memory.old).values block leaf) }
    requires cells { length cells.old ≡ length (types_of block) }
    ensures over { M.IsOver layout.now memory.new }
    ensures values { (M.content layout.now memory.new).values
        ≡ block_done (setting_at now (M.content layout.now memory.old).forced) block leaf
        (M.content layout.now memory.old).values }
    ensures forced { (M.content layout.now memory.new).forced
        ≡ (M.content layout.now memory.old).forced }
{
    load_values(memory, layout, leaf, cells);
    block_step(block, cells, now);
    store_values(memory, layout, leaf, cells);
}

/// Does what one invocation of TON does to its leaves.
#[inline]
fn do_ton<M: Memory>(memory: &mut M, layout: &Layout, leaf: u32, now: i64)
    requires over { M.IsOver layout.now memory.old }
    requires few { length (M.content layout.now memory.old).values ≤ 65536 }
    requires leaves { IsTrue (has_leaves (M.content layout.now memory.old).values StandardBlock.Ton leaf) }
    ensures over { M.IsOver layout.now memory.new }
    ensures values { (M.content layout.now memory.new).values
        ≡ block_done (setting_at now (M.content layout.now memory.old).forced) StandardBlock.Ton leaf
        (M.content layout.now memory.old).values }
    ensures forced { (M.content layout.now memory.new).forced
        ≡ (M.content layout.now memory.old).forced }
{
    let cells = load_ton(memory, layout, leaf);
    let after = Ton::read(&cells).on_delay(now).cells();
    store_six(memory, layout, leaf, &after);
}

/// Does what one invocation of TOF does to its leaves.
#[inline]
fn do_tof<M: Memory>(memory: &mut M, layout: &Layout, leaf: u32, now: i64)
    requires over { M.IsOver layout.now memory.old }
    requires few { length (M.content layout.now memory.old).values ≤ 65536 }
    requires leaves { IsTrue (has_leaves (M.content layout.now memory.old).values StandardBlock.Tof leaf) }
    ensures over { M.IsOver layout.now memory.new }
    ensures values { (M.content layout.now memory.new).values
        ≡ block_done (setting_at now (M.content layout.now memory.old).forced) StandardBlock.Tof leaf
        (M.content layout.now memory.old).values }
    ensures forced { (M.content layout.now memory.new).forced
        ≡ (M.content layout.now memory.old).forced }
{
    let cells = load_timer(memory, layout, leaf);
    let after = Timer::read(&cells).off_delay(now).cells();
    store_seven(memory, layout, leaf, &after);
}

/// Does what one invocation of TP does to its leaves.
#[inline]
fn do_tp<M: Memory>(memory: &mut M, layout: &Layout, leaf: u32, now: i64)
    requires over { M.IsOver layout.now memory.old }
    requires few { length (M.content layout.now memory.old).values ≤ 65536 }
    requires leaves { IsTrue (has_leaves (M.content layout.now memory.old).values StandardBlock.Tp leaf) }
    ensures over { M.IsOver layout.now memory.new }
    ensures values { (M.content layout.now memory.new).values
        ≡ block_done (setting_at now (M.content layout.now memory.old).forced) StandardBlock.Tp leaf
        (M.content layout.now memory.old).values }
    ensures forced { (M.content layout.now memory.new).forced
        ≡ (M.content layout.now memory.old).forced }
{
    let cells = load_timer(memory, layout, leaf);
    let after = Timer::read(&cells).pulse(now).cells();
    store_seven(memory, layout, leaf, &after);
}

/// The values of the leaves of TON.
#[inline(always)]
fn load_ton<M: Memory>(memory: &M, layout: &Layout, leaf: u32) -> [Value; 6]
    requires over { M.IsOver layout.now memory.now }
    requires few { length (M.content layout.now memory.now).values ≤ 65536 }
    requires there { leaf + 6 ≤ length (M.content layout.now memory.now).values }
    ensures { result ≡ stretch (M.content layout.now memory.now).values leaf 6 }
{
    [
        value_as(memory, layout, Elem::Bool, leaf),
        value_as(memory, layout, Elem::Time, leaf + 1),
        value_as(memory, layout, Elem::Bool, leaf + 2),
        value_as(memory, layout, Elem::Time, leaf + 3),
        value_as(memory, layout, Elem::Bool, leaf + 4),
        value_as(memory, layout, Elem::Time, leaf + 5),
    ]
}

/// The values of the leaves of TOF or TP.
#[inline(always)]
fn load_timer<M: Memory>(memory: &M, layout: &Layout, leaf: u32) -> [Value; 7]
    requires over { M.IsOver layout.now memory.now }
    requires few { length (M.content layout.now memory.now).values ≤ 65536 }
    requires there { leaf + 7 ≤ length (M.content layout.now memory.now).values }
    ensures { result ≡ stretch (M.content layout.now memory.now).values leaf 7 }
{
    [
        value_as(memory, layout, Elem::Bool, leaf),
        value_as(memory, layout, Elem::Time, leaf + 1),
        value_as(memory, layout, Elem::Bool, leaf + 2),
        value_as(memory, layout, Elem::Time, leaf + 3),
        value_as(memory, layout, Elem::Bool, leaf + 4),
        value_as(memory, layout, Elem::Bool, leaf + 5),
        value_as(memory, layout, Elem::Time, leaf + 6),
    ]
}

/// Stores six values in leaves that stand together, unless these are forced.
#[inline(always)]
fn store_six<M: Memory>(memory: &mut M, layout: &Layout, leaf: u32, cells: &[Value; 6])
    requires over { M.IsOver layout.now memory.old }
    requires few { length (M.content layout.now memory.old).values ≤ 65536 }
    requires there { leaf + 6 ≤ length (M.content layout.now memory.old).values }
    requires fit { FitFrom layout.now leaf cells.now }
    ensures over { M.IsOver layout.now memory.new }
    ensures values { (M.content layout.now memory.new).values
        ≡ with_stretch (M.content layout.now memory.old).values leaf
        (unless_forced (drop leaf (M.content layout.now memory.old).forced)
        (stretch (M.content layout.now memory.old).values leaf 6) cells.now) }
    ensures forced { (M.content layout.now memory.new).forced
        ≡ (M.content layout.now memory.old).forced }
{
    store_value(memory, layout, leaf, cells[0]);
    store_value(memory, layout, leaf + 1, cells[1]);
    store_value(memory, layout, leaf + 2, cells[2]);
    store_value(memory, layout, leaf + 3, cells[3]);
    store_value(memory, layout, leaf + 4, cells[4]);
    store_value(memory, layout, leaf + 5, cells[5]);
}

/// The same of seven values.
#[inline(always)]
fn store_seven<M: Memory>(memory: &mut M, layout: &Layout, leaf: u32, cells: &[Value; 7])
    requires over { M.IsOver layout.now memory.old }
    requires few { length (M.content layout.now memory.old).values ≤ 65536 }
    requires there { leaf + 7 ≤ length (M.content layout.now memory.old).values }
    requires fit { FitFrom layout.now leaf cells.now }
    ensures over { M.IsOver layout.now memory.new }
    ensures values { (M.content layout.now memory.new).values
        ≡ with_stretch (M.content layout.now memory.old).values leaf
        (unless_forced (drop leaf (M.content layout.now memory.old).forced)
        (stretch (M.content layout.now memory.old).values leaf 7) cells.now) }
    ensures forced { (M.content layout.now memory.new).forced
        ≡ (M.content layout.now memory.old).forced }
{
    store_value(memory, layout, leaf, cells[0]);
    store_value(memory, layout, leaf + 1, cells[1]);
    store_value(memory, layout, leaf + 2, cells[2]);
    store_value(memory, layout, leaf + 3, cells[3]);
    store_value(memory, layout, leaf + 4, cells[4]);
    store_value(memory, layout, leaf + 5, cells[5]);
    store_value(memory, layout, leaf + 6, cells[6]);
}
