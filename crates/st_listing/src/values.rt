//! Values with which leaves begin.
ghost use Rattle.std.specs.Prelude.{◌≡◌};
ghost use Rattle.std.specs.Option.{option_copied};
ghost use Rattle.st_types.specs.Initials.{zero_of};
ghost use Rattle.st_listing.specs.Walks.{started_value};

use st_references::{Written, value_written};
use st_tree::tree::Initial;
use st_values::{Elem, Value};

/// The value of a type where none is written.
pub(crate) fn zero_of(elem: Elem) -> Value
    ensures { result ≡ zero_of elem }
{
    Value { elem, bits: 0 }
}

/// With what a value of this type begins: with the one that is written, or else with that of the type.
pub(crate) fn started_value(elem: Elem, initial: Option<&Written<'_>>) -> Value
    ensures { result ≡ started_value elem (option_copied initial.entry) }
{
    let Some(written) = initial else {
        return zero_of(elem);
    };
    match written.initial() {
        Initial::Constant(constant) => value_written(elem, constant),
        Initial::Array(..) => zero_of(elem),
    }
}
