//! The instructions that reckon with distances between leaves.
ghost use Rattle.std.specs.Prelude.{◌≡◌, ◌<◌, ◌+◌, ◌*◌, ◌^◌, ◌-ℤ◌, ◌∷◌, length, pos, IsTrue};
ghost use Rattle.st_code.specs.Machine.{distance_in, number_in};
ghost use Rattle.st_code.specs.declared.instr.Instr.{Instr};
ghost use Rattle.st_instructions.specs.Ready.{can_add, can_index, can_index_below, far_in};
ghost use Rattle.st_instructions.specs.Moves.{Does};

use crate::cells::number_in;
use crate::moves::Move;
use crate::stack::Stack;
use st_code::Instr;
use st_meaning::RunFaultKind;
use st_values::Elem;

/// A distance, which is never negative on the stack.
#[inline]
pub fn distance_in(cell: i64) -> u64
    ensures value { result ≡ distance_in cell }
    ensures high { result < 2 ^ 63 }
{
    if cell < 0 { 0 } else { cell as u64 }
}

/// Does `Add`.
pub fn add(stack: &mut Stack) -> Move
    requires { IsTrue (can_add stack.old.0) }
    ensures does { Does Instr.Add result stack.old.1 stack.old.0 stack.new.0 }
    ensures room { stack.new.1 ≡ stack.old.1 }
{
    let m = distance_in(stack.pop());
    let n = distance_in(stack.pop());
    stack.push((n + m) as i64);
    Move::On
}

/// How far a subscript lies behind the lower bound, where that is at most the last distance.
#[inline(always)]
pub fn far_in(elem: Elem, subscript: i64, low: i64, last: u16) -> Option<u16>
    ensures { result ≡ far_in (number_in elem subscript -ℤ low) last }
{
    if elem.is_signed() || subscript >= 0 {
        return near_in(subscript, low, last);
    }
    let far = behind(elem, subscript, low);
    if far < 0 || far > i128::from(last) {
        None
    } else {
        Some(far as u16)
    }
}

/// The same of numbers of 64 bits.
#[inline(always)]
fn near_in(subscript: i64, low: i64, last: u16) -> Option<u16>
    ensures { result ≡ far_in (subscript -ℤ low) last }
{
    let far = subscript.abs_diff(low);
    if subscript < low || far > u64::from(last) {
        None
    } else {
        Some(far as u16)
    }
}

/// How far a subscript lies behind the lower bound.
#[inline]
fn behind(elem: Elem, subscript: i64, low: i64) -> i128
    ensures value { result ≡ number_in elem subscript -ℤ low }
{
    number_in(elem, subscript) - i128::from(low)
}

/// So many strides.
#[inline]
pub fn strides(far: u16, stride: u32) -> u64
    ensures value { result ≡ far * stride }
    ensures high { result < 2 ^ 48 }
{
    u64::from(far) * u64::from(stride)
}

/// Puts the sum of two distances.
#[inline]
fn push_sum(stack: &mut Stack, more: u64, distance: u64)
    requires spare { length stack.old.0 < stack.old.1 }
    requires fits { more + distance < 2 ^ 63 }
    ensures cells { stack.new.0 ≡ pos (more + distance) ∷ stack.old.0 }
    ensures room { stack.new.1 ≡ stack.old.1 }
{
    stack.push((more + distance) as i64);
}

/// Does `Index`.
#[inline(always)]
pub fn index(stack: &mut Stack, elem: Elem, last: u16, stride: u32, low: i64) -> Move
    requires { IsTrue (can_index elem last stride low stack.old.0) }
    ensures does { Does (Instr.Index elem last stride low) result
        stack.old.1 stack.old.0 stack.new.0 }
    ensures room { stack.new.1 ≡ stack.old.1 }
{
    let subscript = stack.pop();
    match far_in(elem, subscript, low, last) {
        Some(far) => {
            push_sum(stack, 0, strides(far, stride));
            Move::On
        }
        None => Move::Stop(RunFaultKind::IndexOutOfRange),
    }
}

/// Does `IndexBelow`.
pub fn index_below(stack: &mut Stack, elem: Elem, last: u16, stride: u32, low: i64) -> Move
    requires { IsTrue (can_index_below elem last stride low stack.old.0) }
    ensures does { Does (Instr.IndexBelow elem last stride low) result
        stack.old.1 stack.old.0 stack.new.0 }
    ensures room { stack.new.1 ≡ stack.old.1 }
{
    let more = distance_in(stack.pop());
    let subscript = stack.pop();
    match far_in(elem, subscript, low, last) {
        Some(far) => {
            push_sum(stack, more, strides(far, stride));
            Move::On
        }
        None => Move::Stop(RunFaultKind::IndexOutOfRange),
    }
}
