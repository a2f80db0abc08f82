//! The types that operators and functions take (3.3.1, 2.5.1.5).
ghost use Rattle.std.specs.Prelude.{◌≡◌};
ghost use Rattle.st_meaning.specs.Operations.{takes_one};
ghost use Rattle.st_emit_expressions.specs.Calls.{gives_type};

use st_meaning::Unary;
use st_operators::{complements, is_integer, negates};
use st_types::{Standard, function_gives};
use st_values::Elem;

/// Whether an operator before an operand takes one of the type.
pub(crate) fn takes_one(unary: Unary, elem: Elem) -> bool
    ensures { result ≡ takes_one unary elem }
{
    match unary {
        Unary::Negate => negates(elem),
        Unary::Complement => complements(elem),
        Unary::Absolute => is_integer(elem),
        Unary::Convert(_) => true,
    }
}

/// Whether a function gives values of the type.
pub(crate) fn gives_type(standard: Standard, elem: Elem) -> bool
    ensures { result ≡ gives_type standard elem }
{
    match standard {
        Standard::Function(function) => function_gives(function, elem),
        Standard::Conversion(_, to) => to.is(elem),
        Standard::Block(_) => false,
    }
}
