//! Leaves of a memory that stand together.
ghost use Rattle.std.specs.Prelude.{◌≡◌, ◌≤◌, ◌<◌, ◌+◌, drop, length, Some};
ghost use Rattle.st_layout.specs.Layout.{IsValueAt};
ghost use Rattle.st_meaning.specs.Meaning.{stored_to};
ghost use Rattle.st_meaning.specs.Statements.{stretch, unless_forced, with_stretch};
ghost use Rattle.st_chart_runs.specs.Leaves.{FitFrom};

use st_layout::Layout;
use st_memory::Memory;
use st_values::Value;

/// Stores a value of the leaf's type, unless the leaf is forced.
#[inline(always)]
pub fn store_value<M: Memory>(memory: &mut M, layout: &Layout, leaf: u32, value: Value)
    requires over { M.IsOver layout.now memory.old }
    requires below { leaf < length layout.now }
    requires value { IsValueAt layout.now leaf value }
    ensures over { M.IsOver layout.now memory.new }
    ensures values { (M.content layout.now memory.new).values
        ≡ stored_to (M.content layout.now memory.old).forced
        (M.content layout.now memory.old).values value (Some leaf) }
    ensures forced { (M.content layout.now memory.new).forced
        ≡ (M.content layout.now memory.old).forced }
{
    if !memory.forced(layout, leaf) {
        memory.set(layout, leaf, value);
    }
}

/// Reads the leaves that stand from one of them on into cells.
pub fn load_values<M: Memory>(memory: &M, layout: &Layout, leaf: u32, cells: &mut [Value])
    requires over { M.IsOver layout.now memory.now }
    requires few { length (M.content layout.now memory.now).values ≤ 65536 }
    requires there { leaf + length cells.old ≤ length (M.content layout.now memory.now).values }
    ensures { cells.new ≡ stretch (M.content layout.now memory.now).values leaf (length cells.old) }
{
    for (i, cell) in cells.iter_mut().enumerate() {
        *cell = memory.get(layout, leaf + i as u32);
    }
}

/// Stores cells into the leaves that stand from one of them on, unless they are forced.
pub fn store_values<M: Memory>(memory: &mut M, layout: &Layout, leaf: u32, cells: &[Value])
    requires over { M.IsOver layout.now memory.old }
    requires few { length (M.content layout.now memory.old).values ≤ 65536 }
    requires there { leaf + length cells.now ≤ length (M.content layout.now memory.old).values }
    requires fit { FitFrom layout.now leaf cells.now }
    ensures over { M.IsOver layout.now memory.new }
    ensures values { (M.content layout.now memory.new).values
        ≡ with_stretch (M.content layout.now memory.old).values leaf
        (unless_forced (drop leaf (M.content layout.now memory.old).forced)
        (stretch (M.content layout.now memory.old).values leaf (length cells.now)) cells.now) }
    ensures forced { (M.content layout.now memory.new).forced
        ≡ (M.content layout.now memory.old).forced }
{
    for (i, cell) in cells.iter().enumerate() {
        store_value(memory, layout, leaf + i as u32, *cell);
    }
}
