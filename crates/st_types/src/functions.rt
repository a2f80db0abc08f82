//! What the standard functions take and give (2.5.1.5).
ghost use Rattle.std.specs.Prelude.{◌≡◌};
ghost use Rattle.st_types.specs.OwnTypes.{function_gives, is_at_most, is_shift, least_arguments, most_arguments, standard_due, takes_count, types_call};

use crate::standard::StandardFunction;
use crate::symbol::Due;
use st_operators::{is_bits, is_integer};
use st_values::Elem;

/// Whether a function is a shift or a rotation.
fn is_shift(function: StandardFunction) -> bool
    ensures { result ≡ is_shift function }
{
    matches!(
        function,
        StandardFunction::Shl
            | StandardFunction::Shr
            | StandardFunction::Rol
            | StandardFunction::Ror
    )
}

/// How many arguments a function takes at least.
fn least_arguments(function: StandardFunction) -> usize
    ensures { result ≡ least_arguments function }
{
    match function {
        StandardFunction::Abs => 1,
        StandardFunction::Limit | StandardFunction::Sel => 3,
        _ => 2,
    }
}

/// How many arguments a function takes at most, where there is a most.
fn most_arguments(function: StandardFunction) -> Option<usize>
    ensures { result ≡ most_arguments function }
{
    match function {
        StandardFunction::Abs => Some(1),
        StandardFunction::Min | StandardFunction::Max => None,
        StandardFunction::Limit | StandardFunction::Sel => Some(3),
        _ => Some(2),
    }
}

/// Whether a number is no more than another, where there is one.
fn is_at_most(number: usize, most: Option<usize>) -> bool
    ensures { result ≡ is_at_most number most }
{
    match most {
        Some(most) => number <= most,
        None => true,
    }
}

/// Whether a function takes so many arguments.
pub fn takes_count(function: StandardFunction, count: usize) -> bool
    ensures { result ≡ takes_count function count }
{
    least_arguments(function) <= count && is_at_most(count, most_arguments(function))
}

/// Whether a function gives values of the type.
pub fn function_gives(function: StandardFunction, elem: Elem) -> bool
    ensures { result ≡ function_gives function elem }
{
    match function {
        StandardFunction::Abs => is_integer(elem),
        _ => !is_shift(function) || is_bits(elem),
    }
}

/// What is asked of the argument of this number, from 0, where `whole` is asked of the call.
pub fn standard_due(function: StandardFunction, whole: Due, number: usize) -> Due
    ensures { result ≡ standard_due function whole number }
{
    match function {
        StandardFunction::Sel => {
            if number == 0 {
                Due::Type(Elem::Bool)
            } else {
                whole
            }
        }
        _ => {
            if is_shift(function) && number != 0 {
                Due::Integer
            } else {
                whole
            }
        }
    }
}

/// Whether an argument's own type is that of the call: of SEL all but the first, of a shift the first. `is_first` says
/// whether it is the first.
pub fn types_call(function: StandardFunction, is_first: bool) -> bool
    ensures { result ≡ types_call function is_first }
{
    match function {
        StandardFunction::Sel => !is_first,
        _ => !is_shift(function) || is_first,
    }
}
