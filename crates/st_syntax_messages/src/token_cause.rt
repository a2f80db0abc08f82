//! Why a token is out of place, where the tokens around it tell.
ghost use Rattle.std.specs.Prelude.{◌≡◌};
ghost use Rattle.st_syntax_messages.specs.Tokens.{counting_cause, equal_cause, parenthesis_cause, place_cause, slash_cause, symbol_cause, when};

use crate::cause::Cause;
use crate::spot::{Mark, Spot};

/// A cause, where this holds.
fn when(holds: bool, cause: Cause) -> Option<Cause>
    ensures { result ≡ when holds cause }
{
    if holds { Some(cause) } else { None }
}

/// Why a symbol is out of place that is one of another language, or a part of one.
pub fn symbol_cause(spot: Spot) -> Option<Cause>
    ensures { result ≡ symbol_cause spot spot.here }
{
    match spot.here {
        Mark::Divide => slash_cause(spot),
        Mark::Times => when(spot.before.is_times() && spot.touches, Cause::Power),
        Mark::Ampersand => when(
            spot.before.is_ampersand() && spot.touches,
            Cause::DoubleAmpersand,
        ),
        Mark::Dot => when(spot.before.is_number(), Cause::Fraction),
        Mark::Percent => Some(Cause::Percent),
        _ => None,
    }
}

/// Why a `/` is out of place that is one of two that touch, or that a `*` touches.
fn slash_cause(spot: Spot) -> Option<Cause>
    ensures { result ≡ slash_cause spot }
{
    let begins = spot.behind.is_divide() && spot.joins;
    let ends = spot.before.is_divide() && spot.touches;
    if begins || ends {
        return Some(Cause::LineComment);
    }
    when(spot.behind.is_times() && spot.joins, Cause::BlockComment)
}

/// Why a symbol is out of place among declarations, or elsewhere.
pub fn place_cause(spot: Spot, declares: bool) -> Option<Cause>
    ensures { result ≡ place_cause spot declares spot.here }
{
    match spot.here {
        Mark::Open if declares => parenthesis_cause(spot.before),
        Mark::OpenBracket => when(declares && spot.follows_left_out, Cause::StringLength),
        Mark::Equal if declares => Some(Cause::EqualInitial),
        Mark::Equal => equal_cause(spot.before),
        Mark::Assign if declares => when(spot.before.is_close_bracket(), Cause::Assignment),
        Mark::Assign => when(spot.before.can_be_assigned(), Cause::Assignment),
        Mark::Plus | Mark::Minus | Mark::Times => counting_cause(spot),
        _ => None,
    }
}

/// Why a `(` is out of place that stands in a declaration behind this.
fn parenthesis_cause(before: Mark) -> Option<Cause>
    ensures { result ≡ parenthesis_cause before }
{
    match before {
        Mark::Colon => Some(Cause::Enumeration),
        Mark::Assign => Some(Cause::InitialStructure),
        Mark::Type => Some(Cause::Subrange),
        _ => None,
    }
}

/// Why a `=` is out of place that stands in no declaration behind this.
fn equal_cause(before: Mark) -> Option<Cause>
    ensures { result ≡ equal_cause before }
{
    match before {
        Mark::Equal => Some(Cause::DoubleEqual),
        Mark::Word | Mark::CloseBracket => Some(Cause::Comparison),
        _ => None,
    }
}

/// Why an operator is out of place by which other languages count a variable on.
fn counting_cause(spot: Spot) -> Option<Cause>
    ensures { result ≡ counting_cause spot }
{
    when(
        spot.before.is_word() && spot.behind.counts(),
        Cause::Counting,
    )
}
