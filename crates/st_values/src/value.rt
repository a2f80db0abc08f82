//! Values of the elementary types.
ghost use Rattle.std.specs.Prelude.{◌≡◌, ◌≢◌};
ghost use Rattle.st_values.specs.Values.{is_value, residue, truth, wrapped, IsOfType, IsValue};

use crate::elem::Elem;

/// A value of an elementary type.
#[derive(Clone, Copy, Debug, PartialEq, Eq)]
pub struct Value {
    /// Its type.
    pub elem: Elem,
    /// The number. A BOOL is 0 or 1, and a TIME is in milliseconds.
    pub bits: i128,
}

/// Tests whether the number lies in the range of the type (2.3.1, table 10).
pub fn is_value(value: Value) -> bool
    ensures { result ≡ is_value value }
{
    let magnitude = value.bits.unsigned_abs();
    if value.bits < 0 {
        value.elem.is_signed() && magnitude <= value.elem.limit()
    } else {
        magnitude < value.elem.limit()
    }
}

/// The value of a type that differs from a number by a multiple of 2 to the type's width; of BOOL, whether the number
/// isn't 0.
pub fn wrap(elem: Elem, number: i128) -> Value
    ensures value { result ≡ wrapped elem number }
    ensures in_range { IsValue result }
    ensures agrees { elem ≢ Elem.Bool → residue elem result.bits ≡ residue elem number }
{
    if elem == Elem::Bool {
        return Value {
            elem,
            bits: if number == 0 { 0 } else { 1 },
        };
    }
    let modulus = 1i128 << elem.bits();
    let residue = number.rem_euclid(modulus);
    let value = Value {
        elem,
        bits: residue,
    };
    if is_value(value) {
        value
    } else {
        Value {
            elem,
            bits: residue - modulus,
        }
    }
}

/// TRUE or FALSE as a value.
pub fn truth(is_true: bool) -> Value
    ensures value { result ≡ truth is_true }
    ensures typed { IsOfType Elem.Bool result }
{
    Value {
        elem: Elem::Bool,
        bits: if is_true { 1 } else { 0 },
    }
}
