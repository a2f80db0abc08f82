//! Conversions (IEC 61131-3:2003, 2.5.1.5.1, table 22).
ghost use Rattle.std.specs.Prelude.{◌≡◌};
ghost use Rattle.st_values.specs.Values.{IsValue};
ghost use Rattle.st_operators.specs.Functions.{converted_to};

use st_values::{Elem, Value, wrap};

/// `X_TO_Y`: the number as a value of another type. It wraps to the width of that type; to BOOL it is whether the number isn't
/// 0, and from BOOL 0 or 1.
pub fn converted(a: Value, to: Elem) -> Value
    ensures value { result ≡ converted_to to a }
    ensures in_range { IsValue result }
    ensures elem { result.elem ≡ to }
{
    wrap(to, a.bits)
}
