//! The instructions that read the variables of a function and store into them. None of these is forced, and none measures time.
ghost use Rattle.std.specs.Prelude.{◌≡◌, ◌<◌, ◌+◌, ◌^◌, [], get_or, length, pos, ℤ, IsTrue, Some};
ghost use Rattle.std.specs.List.{All};
ghost use Rattle.st_code.specs.Code.{cell_of};
ghost use Rattle.st_code.specs.Machine.{distance_in, has_leaf, has_leaves, is_cell_of, value_in};
ghost use Rattle.st_code.specs.declared.instr.Instr.{Instr};
ghost use Rattle.st_instructions.specs.Ready.{can_begin, can_go_next, can_put, can_put_at, can_test, finds};
ghost use Rattle.st_instructions.specs.Moves.{DoesWith, Gives, Writes, environment_at};
ghost use Rattle.st_meaning.specs.Meaning.{no_value, stored_to};
ghost use Rattle.st_values.specs.Values.{IsValue};

use crate::cells::{cell, value_in};
use crate::counting::{count_goes_on, count_on, next_counter, set_counter};
use crate::distances::distance_in;
use crate::moves::Move;
use crate::stack::Stack;
use st_blocks::{block_step, leaf_count};
use st_code::Instr;
use st_meaning::RunFaultKind;
use st_types::StandardBlock;
use st_values::{Elem, Value};

/// The variable that stands so far behind another.
#[inline]
fn place_behind(leaf: u32, cell: i64) -> usize
    requires { leaf + distance_in cell < 2 ^ 64 }
    ensures { result ≡ leaf + distance_in cell }
{
    leaf as usize + distance_in(cell) as usize
}

/// The value of a variable, as a cell.
#[inline]
pub fn load(variables: &[Value], place: usize) -> i64
    requires values { All IsValue variables.now }
    requires below { place < length variables.now }
    ensures { result ≡ cell_of (get_or variables.now place no_value).bits }
{
    cell(variables[place])
}

/// Stores a cell, which is a value of the variable's type.
#[inline]
fn store(variables: &mut [Value], elem: Elem, place: usize, cell: i64)
    requires values { All IsValue variables.old }
    requires variable { IsTrue (has_leaf variables.old elem place) }
    requires cell { IsTrue (is_cell_of elem cell) }
    ensures values { All IsValue variables.new }
    ensures stored { variables.new ≡ stored_to [] variables.old (value_in elem cell) (Some place) }
{
    variables[place] = value_in(elem, cell);
}

/// Does `Get`.
#[inline(always)]
pub(crate) fn get(variables: &[Value], stack: &mut Stack, leaf: u32) -> Move
    requires values { All IsValue variables.now }
    requires there { leaf < length variables.now }
    requires spare { length stack.old.0 < stack.old.1 }
    ensures does { DoesWith [] (Instr.Get leaf) result
        stack.old.1 stack.old.0 stack.new.0 variables.now variables.now }
    ensures room { stack.new.1 ≡ stack.old.1 }
{
    stack.push(load(variables, leaf as usize));
    Move::On
}

/// Does `GetAt`.
#[inline(always)]
pub(crate) fn get_at(variables: &[Value], stack: &mut Stack, leaf: u32) -> Move
    requires values { All IsValue variables.now }
    requires ready { IsTrue (finds leaf stack.old.0 variables.now) }
    ensures does { DoesWith [] (Instr.GetAt leaf) result
        stack.old.1 stack.old.0 stack.new.0 variables.now variables.now }
    ensures room { stack.new.1 ≡ stack.old.1 }
{
    let _many = variables.len();
    let at = place_behind(leaf, stack.pop());
    stack.push(load(variables, at));
    Move::On
}

/// Does `Put`.
#[inline(always)]
pub(crate) fn put(variables: &mut [Value], stack: &mut Stack, elem: Elem, leaf: u32) -> Move
    requires values { All IsValue variables.old }
    requires ready { IsTrue (can_put elem leaf stack.old.0 variables.old) }
    ensures values { All IsValue variables.new }
    ensures does { DoesWith [] (Instr.Put elem leaf) result
        stack.old.1 stack.old.0 stack.new.0 variables.old variables.new }
    ensures room { stack.new.1 ≡ stack.old.1 }
{
    let cell = stack.pop();
    store(variables, elem, leaf as usize, cell);
    Move::On
}

/// Does `PutAt`.
#[inline(always)]
pub(crate) fn put_at(variables: &mut [Value], stack: &mut Stack, elem: Elem, leaf: u32) -> Move
    requires values { All IsValue variables.old }
    requires ready { IsTrue (can_put_at elem leaf stack.old.0 variables.old) }
    ensures values { All IsValue variables.new }
    ensures does { DoesWith [] (Instr.PutAt elem leaf) result
        stack.old.1 stack.old.0 stack.new.0 variables.old variables.new }
    ensures room { stack.new.1 ≡ stack.old.1 }
{
    let _many = variables.len();
    let at = place_behind(leaf, stack.pop());
    let cell = stack.pop();
    store(variables, elem, at, cell);
    Move::On
}

/// Does `Begin`.
pub(crate) fn begin(variables: &mut [Value], stack: &mut Stack, elem: Elem, leaf: u32) -> Move
    requires values { All IsValue variables.old }
    requires ready { IsTrue (can_begin elem leaf stack.old.0 variables.old) }
    ensures values { All IsValue variables.new }
    ensures does { DoesWith [] (Instr.Begin elem leaf) result
        stack.old.1 stack.old.0 stack.new.0 variables.old variables.new }
    ensures room { stack.new.1 ≡ stack.old.1 }
{
    let step = stack.pop();
    let last = stack.pop();
    let counter = stack.pop();
    stack.push(counter);
    stack.push(last);
    stack.push(step);
    store(variables, elem, leaf as usize, counter);
    Move::On
}

/// Does `Test`.
pub(crate) fn test(
    variables: &mut [Value],
    stack: &mut Stack,
    elem: Elem,
    leaf: u32,
    distance: usize,
) -> Move
    requires values { All IsValue variables.old }
    requires ready { IsTrue (can_test elem leaf stack.old.0 variables.old) }
    ensures values { All IsValue variables.new }
    ensures does { DoesWith [] (Instr.Test elem leaf distance) result
        stack.old.1 stack.old.0 stack.new.0 variables.old variables.new }
    ensures room { stack.new.1 ≡ stack.old.1 }
{
    let count = count_on(stack);
    if !count_goes_on(elem, count) {
        return Move::Skip(distance);
    }
    store(variables, elem, leaf as usize, count.counter);
    Move::On
}

/// Does `Next`.
pub(crate) fn go_next(
    variables: &mut [Value],
    stack: &mut Stack,
    left: &mut u32,
    elem: Elem,
    leaf: u32,
    distance: usize,
) -> Move
    requires values { All IsValue variables.old }
    requires ready { IsTrue (can_go_next elem leaf stack.old.0 variables.old left.old) }
    ensures values { All IsValue variables.new }
    ensures does { (moment : ℤ) →
        Gives (environment_at moment []) stack.old.1 (Instr.Next elem leaf distance) result
        stack.old.0 variables.old left.old stack.new.0 variables.new left.new }
    ensures room { stack.new.1 ≡ stack.old.1 }
{
    if *left == 0 {
        return Move::Stop(RunFaultKind::StepLimit);
    }
    *left -= 1;
    let count = count_on(stack);
    match next_counter(elem, count) {
        Some(cell) => {
            set_counter(stack, cell);
            store(variables, elem, leaf as usize, cell);
            Move::Back(distance)
        }
        None => Move::On,
    }
}

/// Does `Invoke`.
pub(crate) fn invoke(variables: &mut [Value], block: StandardBlock, leaf: u32) -> Move
    requires values { All IsValue variables.old }
    requires ready { IsTrue (has_leaves variables.old block leaf) }
    ensures values { All IsValue variables.new }
    ensures does { Writes (environment_at (pos 0) []) (Instr.Invoke block leaf) result
        variables.old variables.new }
{
    let first = leaf as usize;
    block_step(block, &mut variables[first..first + leaf_count(block)], 0);
    Move::On
}
