//! Doing an instruction.
ghost use Rattle.std.specs.Prelude.{◌≡◌, ◌≤◌, length};
ghost use Rattle.st_code.specs.Fused.{is_own};
ghost use Rattle.st_instructions.specs.Ready.{IsReadyFrom};
ghost use Rattle.st_instructions.specs.Moves.{GivesFrom};

use crate::blocks::invoke;
use crate::counting::{begin, go_back, go_next, step, test};
use crate::distances::{add, index, index_below};
use crate::moves::Move;
use crate::operations::{
    apply, combine, cut, drop_one, leave, pick, push, select, skip_if, skip_unless, within,
};
use crate::stack::Stack;
use crate::transfers::{get, get_at, put, put_at};
use st_code::Instr;
use st_layout::Layout;
use st_memory::Memory;

/// Whether the machine does an instruction by itself: it enters no instance, calls no function, and is about no chart.
#[inline(always)]
pub fn is_own(instr: &Instr) -> bool
    ensures { result ≡ is_own instr.now }
{
    match *instr {
        Instr::Enter(..) | Instr::Call(..) => false,
        Instr::Times(..) | Instr::Ask(..) | Instr::Chart(..) => false,
        _ => true,
    }
}

/// Does an instruction that the machine does by itself.
#[inline(always)]
pub fn perform<M: Memory>(
    instr: &Instr,
    memory: &mut M,
    layout: &Layout,
    stack: &mut Stack,
    now: i64,
    left: &mut u32,
) -> Move
    requires over { M.IsOver layout.now memory.old }
    requires few { length (M.content layout.now memory.old).values ≤ 65536 }
    requires ready { IsReadyFrom instr.now (M.content layout.now memory.old) stack.old left.old }
    ensures over { M.IsOver layout.now memory.new }
    ensures forced { (M.content layout.now memory.new).forced
        ≡ (M.content layout.now memory.old).forced }
    ensures does { GivesFrom instr.now now result
        (M.content layout.now memory.old) stack.old left.old
        (M.content layout.now memory.new) stack.new left.new }
    ensures room { stack.new.1 ≡ stack.old.1 }
{
    match *instr {
        Instr::Push(number) => push(stack, number),
        Instr::Get(leaf) => get(memory, layout, stack, leaf),
        Instr::GetAt(leaf) => get_at(memory, layout, stack, leaf),
        Instr::Put(elem, leaf) => put(memory, layout, stack, elem, leaf),
        Instr::PutAt(elem, leaf) => put_at(memory, layout, stack, elem, leaf),
        Instr::Index(elem, last, stride, low) => index(stack, elem, last, stride, low),
        Instr::IndexBelow(elem, last, stride, low) => index_below(stack, elem, last, stride, low),
        Instr::Add => add(stack),
        Instr::Apply(operation, elem) => apply(stack, operation, elem),
        Instr::Combine(operation, left, right) => combine(stack, operation, left, right),
        Instr::Select => select(stack),
        Instr::Step => step(left),
        Instr::GoOn(distance) => Move::Skip(distance),
        Instr::SkipUnless(distance) => skip_unless(stack, distance),
        Instr::SkipIf(distance) => skip_if(stack, distance),
        Instr::GoBack(distance) => go_back(left, distance),
        Instr::Within(elem) => within(stack, elem),
        Instr::Drop => drop_one(stack),
        Instr::Begin(elem, leaf) => begin(memory, layout, stack, elem, leaf),
        Instr::Test(elem, leaf, distance) => test(memory, layout, stack, elem, leaf, distance),
        Instr::Next(elem, leaf, distance) => {
            go_next(memory, layout, stack, left, elem, leaf, distance)
        }
        Instr::Leave => leave(stack),
        Instr::Invoke(block, leaf) => invoke(memory, layout, block, leaf, now),
        Instr::Pick(distance) => pick(stack, distance),
        Instr::Cut(count) => cut(stack, count),
        // they are for the caller, who has the units
        Instr::Enter(..) | Instr::Call(..) => unreachable!(),
        Instr::Times(..) | Instr::Ask(..) | Instr::Chart(..) => unreachable!(),
    }
}
