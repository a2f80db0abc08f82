//! Cells of the stack: the number of a value as a two's complement of 64 bits.
ghost use Rattle.std.specs.Prelude.{◌≡◌, ◌≤ℤ◌, ◌<ℤ◌, ◌^◌, pos, neg_ℤ};
ghost use Rattle.st_code.specs.Code.{cell_of};
ghost use Rattle.st_code.specs.Machine.{number_in, value_in};
ghost use Rattle.st_values.specs.Values.{IsValue};

use st_values::{Elem, Value, is_value};

/// What stands where no value has been put yet.
pub const NO_VALUE: Value = Value {
    elem: Elem::Bool,
    bits: 0,
};

/// The number of a type that a cell is.
#[inline]
pub fn number_in(elem: Elem, cell: i64) -> i128
    ensures value { result ≡ number_in elem cell }
    ensures low { neg_ℤ (pos (2 ^ 63)) ≤ℤ result }
    ensures high { result <ℤ pos (2 ^ 64) }
{
    let number = i128::from(cell);
    if elem.is_signed() || cell >= 0 {
        number
    } else {
        number + (1 << 64)
    }
}

/// The value of a type that a cell is.
#[inline]
pub fn value_in(elem: Elem, cell: i64) -> Value
    ensures { result ≡ value_in elem cell }
{
    Value {
        elem,
        bits: number_in(elem, cell),
    }
}

/// The cell that a number is.
#[inline]
pub fn cell_of(number: i128) -> i64
    requires low { neg_ℤ (pos (2 ^ 63)) ≤ℤ number }
    requires high { number <ℤ pos (2 ^ 64) }
    ensures { result ≡ cell_of number }
{
    if number < 1 << 63 {
        number as i64
    } else {
        (number - (1 << 64)) as i64
    }
}

/// The cell that a value is.
#[inline]
pub fn cell(value: Value) -> i64
    requires { IsValue value }
    ensures { result ≡ cell_of value.bits }
{
    cell_of(value.bits)
}
