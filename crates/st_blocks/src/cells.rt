//! Reading and writing the leaves of a block.
ghost use Rattle.std.specs.Prelude.{◌≡◌, ◌<◌, IsTrue, length};
ghost use Rattle.st_blocks.specs.Cells.{flag_at, number_at, of_type};
ghost use Rattle.st_values.specs.Values.{in_range, IsOfType};

use st_values::{Elem, Value};

/// Whether the BOOL at this place is TRUE.
pub fn flag(cells: &[Value], place: usize) -> bool
    requires { place < length cells.now }
    ensures { result ≡ flag_at cells.now place }
{
    cells[place].bits != 0
}

/// The INT at this place.
pub fn integer(cells: &[Value], place: usize) -> i16
    requires place { place < length cells.now }
    requires fits { IsTrue (in_range Elem.Int (number_at cells.now place)) }
    ensures { result ≡ number_at cells.now place }
{
    cells[place].bits as i16
}

/// The TIME at this place, in milliseconds.
pub fn duration(cells: &[Value], place: usize) -> i64
    requires place { place < length cells.now }
    requires fits { IsTrue (in_range Elem.Time (number_at cells.now place)) }
    ensures { result ≡ number_at cells.now place }
{
    cells[place].bits as i64
}

/// The value of type INT.
pub fn of_integer(number: i16) -> Value
    ensures value { result ≡ of_type Elem.Int number }
    ensures typed { IsOfType Elem.Int result }
{
    Value {
        elem: Elem::Int,
        bits: i128::from(number),
    }
}

/// The value of type TIME.
pub fn of_duration(milliseconds: i64) -> Value
    ensures value { result ≡ of_type Elem.Time milliseconds }
    ensures typed { IsOfType Elem.Time result }
{
    Value {
        elem: Elem::Time,
        bits: i128::from(milliseconds),
    }
}
