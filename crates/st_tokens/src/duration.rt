//! Durations at the start of a text (IEC 61131-3:2003, 2.2.3.1).
ghost use Rattle.std.specs.Prelude.{◌≡◌, ◌≤◌, ◌^◌, IfSome};
ghost use Rattle.st_tokens.specs.Forms.{time_of};
ghost use Rattle.st_tokens.specs.Scanning.{ends_in_digit, interval_at, interval_prefix, interval_rest, seen, signed_interval_at};

use crate::run::{run_len, split_run};
use st_values::{Elem, Value, is_value, read_interval};

/// Tests whether the last byte is a digit.
fn ends_in_digit(text: &[u8]) -> bool
    ensures { result ≡ ends_in_digit text.now }
{
    !text.is_empty() && text[text.len() - 1].is_ascii_digit()
}

/// The bytes at the start that the parts of a duration may have, and what stands after them.
fn split_interval(text: &[u8]) -> (&[u8], &[u8])
    ensures prefix { result.0.now ≡ interval_prefix text.now }
    ensures rest { result.1.now ≡ interval_rest text.now }
{
    let (prefix, rest) = split_run(text);
    if ends_in_digit(prefix) && rest.starts_with(b".") {
        text.split_at(prefix.len() + 1 + run_len(&rest[1..]))
    } else {
        (prefix, rest)
    }
}

/// Reads the parts of a duration at the start.
#[tactic(auto, unfolding(crate::specs::Scanning::interval_at))]
fn interval_at(text: &[u8]) -> Option<(u128, &[u8])>
    ensures found { seen result ≡ interval_at text.now }
    ensures small { IfSome result (λ found. found.0 ≤ 2 ^ 64) }
{
    let (interval, rest) = split_interval(text);
    Some((read_interval(interval)?, rest))
}

/// Reads an interval at the start that may have a `-`.
#[tactic(auto, unfolding(crate::specs::Scanning::signed_interval_at))]
pub fn signed_interval_at(text: &[u8]) -> Option<(i128, &[u8])>
    ensures { seen result ≡ signed_interval_at text.now }
{
    match text {
        [b'-', interval @ ..] => {
            let (number, rest) = interval_at(interval)?;
            Some((-(number as i128), rest))
        }
        _ => {
            let (number, rest) = interval_at(text)?;
            Some((number as i128, rest))
        }
    }
}

/// What a duration counts as: what TIME doesn't hold counts as what no type holds.
pub fn time_of(bits: i128) -> i128
    ensures { result ≡ time_of bits }
{
    let elem = Elem::Time;
    if is_value(Value { elem, bits }) {
        bits
    } else {
        1 << 64
    }
}
