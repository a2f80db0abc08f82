//! How associations control their names (2.6.4.4).
ghost use Rattle.std.specs.Prelude.{◌≡◌};
ghost use Rattle.st_meaning.specs.Sketched.{qualifier_named, qualifier_of, time_in, time_of};

use st_charts::Qualifier;
use st_tree::tree::{ActionQualifier, Duration};
use st_types::is_same_name;
use st_values::{Elem, wrap};

/// The qualifier of an association. Without one it is N.
pub(crate) fn qualifier_of(qualifier: &Option<ActionQualifier>) -> Qualifier
    ensures { result ≡ qualifier_of qualifier.now }
{
    match qualifier {
        Some(qualifier) => qualifier_named(qualifier.name.spelling.as_slice()),
        None => Qualifier::NonStored,
    }
}

/// The qualifier of this letter.
fn qualifier_named(letter: &[u8]) -> Qualifier
    ensures { result ≡ qualifier_named letter.now }
{
    if is_same_name(b"R", letter) {
        Qualifier::Reset
    } else if is_same_name(b"S", letter) {
        Qualifier::Stored
    } else if is_same_name(b"L", letter) {
        Qualifier::Limited
    } else if is_same_name(b"D", letter) {
        Qualifier::Delayed
    } else if is_same_name(b"P", letter) {
        Qualifier::Pulse
    } else {
        Qualifier::NonStored
    }
}

/// The time of an association in milliseconds, and 0 where none is written.
pub(crate) fn time_of(qualifier: &Option<ActionQualifier>) -> i64
    ensures { result ≡ time_of qualifier.now }
{
    match qualifier {
        Some(qualifier) => time_in(qualifier.duration),
        None => 0,
    }
}

/// A duration in milliseconds, and 0 where none is written.
fn time_in(duration: Option<Duration>) -> i64
    ensures { result ≡ time_in duration }
{
    match duration {
        Some(duration) => wrap(Elem::Time, duration.milliseconds.get()).bits as i64,
        None => 0,
    }
}
