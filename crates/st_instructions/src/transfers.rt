//! The instructions that read leaves and store into them.
ghost use Rattle.std.specs.Prelude.{◌≡◌, ◌≤◌, ◌<◌, ◌+◌, length, IsTrue};
ghost use Rattle.st_code.specs.Machine.{distance_in};
ghost use Rattle.st_code.specs.declared.instr.Instr.{Instr};
ghost use Rattle.st_instructions.specs.Ready.{can_put, can_put_at, finds};
ghost use Rattle.st_instructions.specs.Moves.{DoesFrom};

use crate::distances::distance_in;
use crate::leaves::{load, store};
use crate::moves::Move;
use crate::stack::Stack;
use st_code::Instr;
use st_layout::Layout;
use st_memory::Memory;
use st_values::Elem;

/// The leaf that stands so far behind another.
#[inline]
pub fn leaf_behind(leaf: u32, cell: i64) -> u32
    requires { leaf + distance_in cell < 65536 }
    ensures { result ≡ leaf + distance_in cell }
{
    leaf + distance_in(cell) as u32
}

/// Does `Get`.
#[inline(always)]
pub fn get<M: Memory>(memory: &M, layout: &Layout, stack: &mut Stack, leaf: u32) -> Move
    requires over { M.IsOver layout.now memory.now }
    requires there { leaf < length (M.content layout.now memory.now).values }
    requires spare { length stack.old.0 < stack.old.1 }
    ensures does { DoesFrom (Instr.Get leaf) result
        (M.content layout.now memory.now) stack.old
        (M.content layout.now memory.now) stack.new }
    ensures room { stack.new.1 ≡ stack.old.1 }
{
    stack.push(load(memory, layout, leaf));
    Move::On
}

/// Does `GetAt`.
#[inline(always)]
pub fn get_at<M: Memory>(memory: &M, layout: &Layout, stack: &mut Stack, leaf: u32) -> Move
    requires over { M.IsOver layout.now memory.now }
    requires few { length (M.content layout.now memory.now).values ≤ 65536 }
    requires ready { IsTrue (finds leaf stack.old.0 (M.content layout.now memory.now).values) }
    ensures does { DoesFrom (Instr.GetAt leaf) result
        (M.content layout.now memory.now) stack.old
        (M.content layout.now memory.now) stack.new }
    ensures room { stack.new.1 ≡ stack.old.1 }
{
    let at = leaf_behind(leaf, stack.pop());
    stack.push(load(memory, layout, at));
    Move::On
}

/// Does `Put`.
#[inline(always)]
pub fn put<M: Memory>(
    memory: &mut M,
    layout: &Layout,
    stack: &mut Stack,
    elem: Elem,
    leaf: u32,
) -> Move
    requires over { M.IsOver layout.now memory.old }
    requires ready { IsTrue
        (can_put elem leaf stack.old.0 (M.content layout.now memory.old).values) }
    ensures over { M.IsOver layout.now memory.new }
    ensures forced { (M.content layout.now memory.new).forced
        ≡ (M.content layout.now memory.old).forced }
    ensures does { DoesFrom (Instr.Put elem leaf) result
        (M.content layout.now memory.old) stack.old
        (M.content layout.now memory.new) stack.new }
    ensures room { stack.new.1 ≡ stack.old.1 }
{
    let cell = stack.pop();
    store(memory, layout, elem, leaf, cell);
    Move::On
}

/// Does `PutAt`.
#[inline(always)]
pub fn put_at<M: Memory>(
    memory: &mut M,
    layout: &Layout,
    stack: &mut Stack,
    elem: Elem,
    leaf: u32,
) -> Move
    requires over { M.IsOver layout.now memory.old }
    requires few { length (M.content layout.now memory.old).values ≤ 65536 }
    requires ready { IsTrue
        (can_put_at elem leaf stack.old.0 (M.content layout.now memory.old).values) }
    ensures over { M.IsOver layout.now memory.new }
    ensures forced { (M.content layout.now memory.new).forced
        ≡ (M.content layout.now memory.old).forced }
    ensures does { DoesFrom (Instr.PutAt elem leaf) result
        (M.content layout.now memory.old) stack.old
        (M.content layout.now memory.new) stack.new }
    ensures room { stack.new.1 ≡ stack.old.1 }
{
    let at = leaf_behind(leaf, stack.pop());
    let cell = stack.pop();
    store(memory, layout, elem, at, cell);
    Move::On
}
