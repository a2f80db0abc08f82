//! Doing an instruction of a function, over its variables.
ghost use Rattle.std.specs.Prelude.{◌≡◌, [], pos, IsTrue};
ghost use Rattle.std.specs.List.{All};
ghost use Rattle.st_instructions.specs.Moves.{Gives, environment_at};
ghost use Rattle.st_instructions.specs.Ready.{is_ready};
ghost use Rattle.st_values.specs.Values.{IsValue};

use crate::counting::{go_back, step};
use crate::distances::{add, index, index_below};
use crate::moves::Move;
use crate::operations::{
    apply, combine, cut, drop_one, leave, pick, push, select, skip_if, skip_unless, within,
};
use crate::stack::Stack;
pub use crate::variables::load;
use crate::variables::{begin, get, get_at, go_next, invoke, put, put_at, test};
use st_code::Instr;
use st_values::Value;

/// Does an instruction of a function, which enters no instance, calls no function and is about no chart.
#[inline(always)]
pub fn perform(instr: &Instr, variables: &mut [Value], stack: &mut Stack, left: &mut u32) -> Move
    requires values { All IsValue variables.old }
    requires ready { IsTrue (is_ready stack.old.1 instr.now stack.old.0 variables.old left.old) }
    ensures values { All IsValue variables.new }
    ensures does { Gives (environment_at (pos 0) []) stack.old.1 instr.now result
        stack.old.0 variables.old left.old stack.new.0 variables.new left.new }
    ensures room { stack.new.1 ≡ stack.old.1 }
{
    match *instr {
        Instr::Push(number) => push(stack, number),
        Instr::Get(leaf) => get(variables, stack, leaf),
        Instr::GetAt(leaf) => get_at(variables, stack, leaf),
        Instr::Put(elem, leaf) => put(variables, stack, elem, leaf),
        Instr::PutAt(elem, leaf) => put_at(variables, stack, elem, leaf),
        Instr::Index(elem, last, stride, low) => index(stack, elem, last, stride, low),
        Instr::IndexBelow(elem, last, stride, low) => index_below(stack, elem, last, stride, low),
        Instr::Add => add(stack),
        Instr::Apply(operation, elem) => apply(stack, operation, elem),
        Instr::Combine(operation, left, right) => combine(stack, operation, left, right),
        Instr::Select => select(stack),
        Instr::Step => step(left),
        Instr::GoOn(distance) => Move::Skip(distance),
        Instr::SkipUnless(distance) => skip_unless(stack, distance),
        Instr::SkipIf(distance) => skip_if(stack, distance),
        Instr::GoBack(distance) => go_back(left, distance),
        Instr::Within(elem) => within(stack, elem),
        Instr::Drop => drop_one(stack),
        Instr::Begin(elem, leaf) => begin(variables, stack, elem, leaf),
        Instr::Test(elem, leaf, distance) => test(variables, stack, elem, leaf, distance),
        Instr::Next(elem, leaf, distance) => {
            go_next(variables, stack, left, elem, leaf, distance)
        }
        Instr::Leave => leave(stack),
        Instr::Invoke(block, leaf) => invoke(variables, block, leaf),
        Instr::Pick(distance) => pick(stack, distance),
        Instr::Cut(count) => cut(stack, count),
        // they are for the caller, who has the functions
        Instr::Enter(..) | Instr::Call(..) => unreachable!(),
        Instr::Times(..) | Instr::Ask(..) | Instr::Chart(..) => unreachable!(),
    }
}
