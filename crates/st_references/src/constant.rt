//! The values that literals write (2.2).
ghost use Rattle.std.specs.Prelude.{◌≡◌};
ghost use Rattle.st_types.specs.Initials.{integer_of, number_in, value_written};
ghost use Rattle.st_values.specs.Values.{IsValue};

use st_tree::tree::{Constant, SignedInteger};
use st_values::{Elem, Value, wrap};

/// The value of a type that is written.
pub fn value_written(elem: Elem, constant: &Constant) -> Value
    ensures value { result ≡ value_written elem constant.now }
    ensures in_range { IsValue result }
{
    wrap(elem, number_in(constant))
}

/// The number that is written.
fn number_in(constant: &Constant) -> i128
    ensures { result ≡ number_in constant.now }
{
    match constant {
        Constant::Integer(number) => integer_of(*number),
        Constant::Typed(_, value) => value.get().bits,
        Constant::Duration(duration) => duration.milliseconds.get(),
        Constant::Bool(_, is_true) => i128::from(*is_true),
    }
}

/// A whole number. Each above all types' ranges counts as 2^64.
fn integer_of(number: SignedInteger) -> i128
    ensures { result ≡ integer_of number }
{
    let magnitude = number.magnitude.get().min(1 << 64) as i128;
    if number.is_negative {
        -magnitude
    } else {
        magnitude
    }
}
