//! Arithmetic over values. All of it wraps: it is enough to know a number modulo 2 to the 128, which 2 to the width of each
//! type divides.
ghost use Rattle.std.specs.Prelude.{◌≡◌, ◌≢◌, IfOk, IsTrue, ◌+ℤ◌, ◌-ℤ◌, ◌*ℤ◌, int_div, int_rem, pos};
ghost use Rattle.st_values.specs.Values.{wrapped, IsValue};
ghost use Rattle.st_tree.specs.declared.operator.BinOp.{BinOp};
ghost use Rattle.st_operators.specs.Functions.{absolute_of};
ghost use Rattle.st_operators.specs.Operators.{applied, is_integer, negated, negates, Takes};

use crate::binary::ZeroDivisor;
use st_values::{Value, wrap};

/// The sum of two values.
pub(crate) fn sum(a: Value, b: Value) -> Value
    requires { Takes BinOp.Add a b }
    ensures value { result ≡ wrapped a.elem (a.bits +ℤ b.bits) }
    ensures in_range { IsValue result }
{
    wrap(a.elem, a.bits.wrapping_add(b.bits))
}

/// A value less another.
pub(crate) fn difference(a: Value, b: Value) -> Value
    requires { Takes BinOp.Sub a b }
    ensures value { result ≡ wrapped a.elem (a.bits -ℤ b.bits) }
    ensures in_range { IsValue result }
{
    wrap(a.elem, a.bits.wrapping_sub(b.bits))
}

/// The product of two values.
pub(crate) fn product(a: Value, b: Value) -> Value
    requires { Takes BinOp.Mul a b }
    ensures value { result ≡ wrapped a.elem (a.bits *ℤ b.bits) }
    ensures in_range { IsValue result }
{
    wrap(a.elem, a.bits.wrapping_mul(b.bits))
}

/// A value by another, rounded toward 0.
///
/// # Errors
/// Where the divisor is 0.
pub(crate) fn quotient(a: Value, b: Value) -> Result<Value, ZeroDivisor>
    requires { Takes BinOp.Div a b }
    ensures value { result ≡ applied BinOp.Div a b }
    ensures in_range { IfOk result (λ value. IsValue value) }
{
    if b.bits == 0 {
        return Err(ZeroDivisor);
    }
    Ok(wrap(a.elem, quotient_number(a, b)))
}

/// The quotient as a number.
fn quotient_number(a: Value, b: Value) -> i128
    requires left { IsValue a }
    requires right { IsValue b }
    requires nonzero { b.bits ≢ pos 0 }
    ensures { result ≡ int_div a.bits b.bits }
{
    a.bits / b.bits
}

/// What the quotient of two values leaves.
///
/// # Errors
/// Where the divisor is 0.
pub(crate) fn remainder(a: Value, b: Value) -> Result<Value, ZeroDivisor>
    requires { Takes BinOp.Mod a b }
    ensures value { result ≡ applied BinOp.Mod a b }
    ensures in_range { IfOk result (λ value. IsValue value) }
{
    if b.bits == 0 {
        return Err(ZeroDivisor);
    }
    Ok(wrap(a.elem, remainder_number(a, b)))
}

/// The remainder as a number.
fn remainder_number(a: Value, b: Value) -> i128
    requires left { IsValue a }
    requires right { IsValue b }
    requires nonzero { b.bits ≢ pos 0 }
    ensures { result ≡ int_rem a.bits b.bits }
{
    a.bits % b.bits
}

/// `-` before an operand of an integer type or TIME.
pub fn negate(a: Value) -> Value
    requires { IsTrue (negates a.elem) }
    ensures value { result ≡ negated a }
    ensures in_range { IsValue result }
    ensures elem { result.elem ≡ a.elem }
{
    wrap(a.elem, a.bits.wrapping_neg())
}

/// `ABS` (2.5.1.5.2, table 23). The least number of a signed type stays as it is.
pub fn absolute(a: Value) -> Value
    requires { IsTrue (is_integer a.elem) }
    ensures value { result ≡ absolute_of a }
    ensures in_range { IsValue result }
    ensures elem { result.elem ≡ a.elem }
{
    if a.bits < 0 {
        negate(a)
    } else {
        wrap(a.elem, a.bits)
    }
}
