//! Operators that go bit by bit, over BOOL and bit strings.
ghost use Rattle.std.specs.Prelude.{◌≡◌, ◌<◌, ◌^◌, IsTrue, bit_and, bit_or, bit_xor};
ghost use Rattle.st_values.specs.Types.{bits_of};
ghost use Rattle.st_values.specs.Values.{IsValue};
ghost use Rattle.st_tree.specs.declared.operator.BinOp.{BinOp};
ghost use Rattle.st_operators.specs.Operators.{bits_in, complemented, complements, of_bits, Takes};

use st_values::{Elem, Value};

/// Bits as a value of a type.
pub(crate) fn of_bits(elem: Elem, bits: u128) -> Value
    requires taken { IsTrue (complements elem) }
    requires few { bits < 2 ^ bits_of elem }
    ensures value { result ≡ of_bits elem bits }
    ensures in_range { IsValue result }
{
    Value {
        elem,
        bits: bits as i128,
    }
}

/// The bits of a value.
pub(crate) fn bits_in(a: Value) -> u128
    requires taken { IsTrue (complements a.elem) }
    requires value { IsValue a }
    ensures value { result ≡ bits_in a }
    ensures few { result < 2 ^ bits_of a.elem }
{
    a.bits.unsigned_abs()
}

/// `AND` of two values.
pub(crate) fn conjunction(a: Value, b: Value) -> Value
    requires { Takes BinOp.And a b }
    ensures value { result ≡ of_bits a.elem (bit_and (bits_in a) (bits_in b)) }
    ensures in_range { IsValue result }
{
    of_bits(a.elem, bits_in(a) & bits_in(b))
}

/// `OR` of two values.
pub(crate) fn disjunction(a: Value, b: Value) -> Value
    requires { Takes BinOp.Or a b }
    ensures value { result ≡ of_bits a.elem (bit_or (bits_in a) (bits_in b)) }
    ensures in_range { IsValue result }
{
    of_bits(a.elem, bits_in(a) | bits_in(b))
}

/// `XOR` of two values.
pub(crate) fn exclusion(a: Value, b: Value) -> Value
    requires { Takes BinOp.Xor a b }
    ensures value { result ≡ of_bits a.elem (bit_xor (bits_in a) (bits_in b)) }
    ensures in_range { IsValue result }
{
    of_bits(a.elem, bits_in(a) ^ bits_in(b))
}

/// `NOT` before an operand of type BOOL or of a bit string type.
pub fn complement(a: Value) -> Value
    requires taken { IsTrue (complements a.elem) }
    requires value { IsValue a }
    ensures value { result ≡ complemented a }
    ensures in_range { IsValue result }
    ensures elem { result.elem ≡ a.elem }
{
    of_bits(a.elem, modulus(a.elem) - 1 - bits_in(a))
}

/// 2 to the width of a type.
pub(crate) fn modulus(elem: Elem) -> u128
    ensures { result ≡ 2 ^ bits_of elem }
{
    1 << elem.bits()
}
