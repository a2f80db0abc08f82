//! Values as numbers of the stack.
ghost use Rattle.std.specs.Prelude.{◌≡◌};
ghost use Rattle.st_values.specs.Values.{IsValue};
ghost use Rattle.st_code.specs.Code.{cell_of};

use st_values::Value;

/// A value as a number of the stack.
pub(crate) fn cell(value: Value) -> i64
    requires { IsValue value }
    ensures { result ≡ cell_of value.bits }
{
    if value.bits < 1 << 63 {
        value.bits as i64
    } else {
        (value.bits - (1 << 64)) as i64
    }
}
