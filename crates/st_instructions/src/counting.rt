//! The instructions that count steps, and those of FOR.
ghost use Rattle.std.specs.Prelude.{◌≡◌, ◌∷◌, ◌^◌, ◌+ℤ◌, ◌≤ℤ◌, ◌<ℤ◌, ℤ, neg_ℤ, pos, true, IsTrue, List};
ghost use Rattle.st_code.specs.declared.instr.Instr.{Instr};
ghost use Rattle.st_meaning.specs.Statements.{goes_on};
ghost use Rattle.st_instructions.specs.Ready.{can_begin, can_go_next, can_test, has_three, next_cell, next_of};
ghost use Rattle.st_instructions.specs.Moves.{Counts, DoesFrom, GivesFrom};
ghost use Rattle.st_code.specs.Machine.{number_in};

use crate::cells::{cell_of, number_in};
use crate::leaves::store;
use crate::moves::Move;
use crate::quick::{is_less, is_signed};
use crate::stack::Stack;
use st_code::Instr;
use st_layout::Layout;
use st_meaning::RunFaultKind;
use st_memory::Memory;
use st_values::Elem;

/// Does `Step`.
#[inline]
pub fn step(left: &mut u32) -> Move
    ensures { Counts Instr.Step result left.old left.new }
{
    if *left == 0 {
        return Move::Stop(RunFaultKind::StepLimit);
    }
    *left -= 1;
    Move::On
}

/// Does `GoBack`.
#[inline]
pub fn go_back(left: &mut u32, distance: usize) -> Move
    ensures { Counts (Instr.GoBack distance) result left.old left.new }
{
    if *left == 0 {
        return Move::Stop(RunFaultKind::StepLimit);
    }
    *left -= 1;
    Move::Back(distance)
}

/// The step, the last value and the counter of a FOR, as cells.
#[derive(Clone, Copy)]
pub(crate) struct Count {
    pub(crate) step: i64,
    pub(crate) last: i64,
    pub(crate) counter: i64,
}

/// The three cells on top of the stack.
#[inline(always)]
pub(crate) fn count_on(stack: &Stack) -> Count
    requires { IsTrue (has_three stack.now.0) }
    ensures cells { (rest : List ℤ)
        × (stack.now.0 ≡ result.step ∷ result.last ∷ result.counter ∷ rest) }
{
    Count {
        step: stack.pick(0),
        last: stack.pick(1),
        counter: stack.pick(2),
    }
}

/// Puts another counter in the place of the one on the stack.
#[inline]
pub(crate) fn set_counter(stack: &mut Stack, cell: i64)
    requires { IsTrue (has_three stack.old.0) }
    ensures cells { (step last counter : ℤ) (rest : List ℤ) →
        stack.old.0 ≡ step ∷ last ∷ counter ∷ rest → stack.new.0 ≡ step ∷ last ∷ cell ∷ rest }
    ensures room { stack.new.1 ≡ stack.old.1 }
{
    stack.put(2, cell);
}

/// Whether the counter of a FOR hasn't passed its last value.
#[inline(always)]
pub(crate) fn count_goes_on(elem: Elem, count: Count) -> bool
    ensures { result
        ≡ goes_on (number_in elem count.counter) (number_in elem count.last)
        (number_in elem count.step) }
{
    if !is_signed(elem) || count.step >= 0 {
        !is_less(elem, count.last, count.counter)
    } else {
        !is_less(elem, count.counter, count.last)
    }
}

/// Whether a counter hasn't passed the last value.
#[inline]
fn goes_on(counter: i128, last: i128, step: i128) -> bool
    ensures { result ≡ goes_on counter last step }
{
    if step >= 0 {
        counter <= last
    } else {
        last <= counter
    }
}

/// The sum of two numbers of cells.
fn sum(a: i128, b: i128) -> i128
    requires a_low { neg_ℤ (pos (2 ^ 63)) ≤ℤ a }
    requires a_high { a <ℤ pos (2 ^ 64) }
    requires b_low { neg_ℤ (pos (2 ^ 63)) ≤ℤ b }
    requires b_high { b <ℤ pos (2 ^ 64) }
    ensures { result ≡ a +ℤ b }
{
    a + b
}

/// The next counter as a cell, where it hasn't passed the last value.
fn next_of(counter: i128, last: i128, step: i128) -> Option<i64>
    requires counter_low { neg_ℤ (pos (2 ^ 63)) ≤ℤ counter }
    requires counter_high { counter <ℤ pos (2 ^ 64) }
    requires last_low { neg_ℤ (pos (2 ^ 63)) ≤ℤ last }
    requires last_high { last <ℤ pos (2 ^ 64) }
    requires step_low { neg_ℤ (pos (2 ^ 63)) ≤ℤ step }
    requires step_high { step <ℤ pos (2 ^ 64) }
    ensures { result ≡ next_of counter last step }
{
    let next = sum(counter, step);
    if goes_on(next, last, step) {
        Some(cell_of(next))
    } else {
        None
    }
}

/// The next counter of a FOR, where it hasn't passed the last value.
#[inline(always)]
pub(crate) fn next_counter(elem: Elem, count: Count) -> Option<i64>
    ensures { result ≡ next_cell elem count.step count.last count.counter }
{
    if is_itself(elem, count.counter)
        && is_itself(elem, count.last)
        && is_itself(elem, count.step)
    {
        near_next(count)
    } else {
        far_next(elem, count)
    }
}

/// Whether a cell is sure to be the number of the type itself.
#[inline(always)]
fn is_itself(elem: Elem, cell: i64) -> bool
    ensures { result ≡ true → number_in elem cell ≡ cell }
{
    is_signed(elem) || cell >= 0
}

/// The same where the cells are the numbers themselves.
#[inline(always)]
fn near_next(count: Count) -> Option<i64>
    ensures { result ≡ next_of count.counter count.last count.step }
{
    if count.step >= 0 {
        match count.counter.checked_add(count.step) {
            Some(next) if next <= count.last => Some(next),
            _ => None,
        }
    } else {
        match count.counter.checked_add(count.step) {
            Some(next) if count.last <= next => Some(next),
            _ => None,
        }
    }
}

/// The same of numbers that need not fit into 64 bits with their sign.
#[cold]
#[inline(never)]
fn far_next(elem: Elem, count: Count) -> Option<i64>
    ensures { result ≡ next_cell elem count.step count.last count.counter }
{
    let step = number_in(elem, count.step);
    next_of(
        number_in(elem, count.counter),
        number_in(elem, count.last),
        step,
    )
}

/// Does `Begin`.
pub fn begin<M: Memory>(
    memory: &mut M,
    layout: &Layout,
    stack: &mut Stack,
    elem: Elem,
    leaf: u32,
) -> Move
    requires over { M.IsOver layout.now memory.old }
    requires ready { IsTrue
        (can_begin elem leaf stack.old.0 (M.content layout.now memory.old).values) }
    ensures over { M.IsOver layout.now memory.new }
    ensures forced { (M.content layout.now memory.new).forced
        ≡ (M.content layout.now memory.old).forced }
    ensures does { DoesFrom (Instr.Begin elem leaf) result
        (M.content layout.now memory.old) stack.old
        (M.content layout.now memory.new) stack.new }
    ensures room { stack.new.1 ≡ stack.old.1 }
{
    let step = stack.pop();
    let last = stack.pop();
    let counter = stack.pop();
    stack.push(counter);
    stack.push(last);
    stack.push(step);
    store(memory, layout, elem, leaf, counter);
    Move::On
}

/// Does `Test`.
#[inline(always)]
pub fn test<M: Memory>(
    memory: &mut M,
    layout: &Layout,
    stack: &mut Stack,
    elem: Elem,
    leaf: u32,
    distance: usize,
) -> Move
    requires over { M.IsOver layout.now memory.old }
    requires ready { IsTrue
        (can_test elem leaf stack.old.0 (M.content layout.now memory.old).values) }
    ensures over { M.IsOver layout.now memory.new }
    ensures forced { (M.content layout.now memory.new).forced
        ≡ (M.content layout.now memory.old).forced }
    ensures does { DoesFrom (Instr.Test elem leaf distance) result
        (M.content layout.now memory.old) stack.old
        (M.content layout.now memory.new) stack.new }
    ensures room { stack.new.1 ≡ stack.old.1 }
{
    let count = count_on(stack);
    if !count_goes_on(elem, count) {
        return Move::Skip(distance);
    }
    store(memory, layout, elem, leaf, count.counter);
    Move::On
}

/// Does `Next`.
#[inline(always)]
pub fn go_next<M: Memory>(
    memory: &mut M,
    layout: &Layout,
    stack: &mut Stack,
    left: &mut u32,
    elem: Elem,
    leaf: u32,
    distance: usize,
) -> Move
    requires over { M.IsOver layout.now memory.old }
    requires ready { IsTrue
        (can_go_next elem leaf stack.old.0 (M.content layout.now memory.old).values left.old) }
    ensures over { M.IsOver layout.now memory.new }
    ensures forced { (M.content layout.now memory.new).forced
        ≡ (M.content layout.now memory.old).forced }
    ensures does { (moment : ℤ) → GivesFrom (Instr.Next elem leaf distance) moment result
        (M.content layout.now memory.old) stack.old left.old
        (M.content layout.now memory.new) stack.new left.new }
    ensures room { stack.new.1 ≡ stack.old.1 }
{
    if *left == 0 {
        return Move::Stop(RunFaultKind::StepLimit);
    }
    *left -= 1;
    let count = count_on(stack);
    match next_counter(elem, count) {
        Some(cell) => {
            set_counter(stack, cell);
            store(memory, layout, elem, leaf, cell);
            Move::Back(distance)
        }
        None => Move::On,
    }
}
