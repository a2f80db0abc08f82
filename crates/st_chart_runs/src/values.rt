//! Values of leaves.
ghost use Rattle.std.specs.Ordering.{int_eq};
ghost use Rattle.std.specs.Prelude.{◌≡◌, IsTrue, not, pos};
ghost use Rattle.st_blocks.specs.Cells.{of_type};
ghost use Rattle.st_values.specs.Values.{in_range};

use st_values::{Elem, Value};

/// Whether a BOOL is TRUE.
pub(crate) fn is_true(value: Value) -> bool
    ensures { result ≡ not (int_eq value.bits (pos 0)) }
{
    value.bits != 0
}

/// The milliseconds of a TIME.
pub(crate) fn duration(value: Value) -> i64
    requires { IsTrue (in_range Elem.Time value.bits) }
    ensures { result ≡ value.bits }
{
    value.bits as i64
}

/// The value of type TIME.
pub(crate) fn of_duration(milliseconds: i64) -> Value
    ensures { result ≡ of_type Elem.Time milliseconds }
{
    Value {
        elem: Elem::Time,
        bits: i128::from(milliseconds),
    }
}
