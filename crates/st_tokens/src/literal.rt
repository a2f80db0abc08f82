//! Numbers and truth values at the start of a text (IEC 61131-3:2003, 2.2.1).
ghost use Rattle.std.specs.Prelude.{◌≡◌, ◌≤◌, ◌^◌, IfSome};
ghost use Rattle.st_tokens.specs.Scanning.{base_of, boolean_at, digits_at, literal_at, number_at, seen, signed_at};

use crate::run::split_run;
use st_values::{Class, read_digits};

/// The base that a number has before its `#`.
fn base_of(word: &[u8]) -> Option<u32>
    ensures { result ≡ base_of word.now }
{
    if word == b"16".as_slice() {
        Some(16)
    } else if word == b"8".as_slice() {
        Some(8)
    } else if word == b"2".as_slice() {
        Some(2)
    } else {
        None
    }
}

/// Reads digits of a base at the start.
#[tactic(auto, unfolding(crate::specs::Scanning::digits_at))]
fn digits_at(base: u32, text: &[u8]) -> Option<(u128, &[u8])>
    requires low { 2 ≤ base }
    requires high { base ≤ 16 }
    ensures found { seen result ≡ digits_at base text.now }
    ensures small { IfSome result (λ found. found.0 ≤ 2 ^ 64) }
{
    let (digits, rest) = split_run(text);
    Some((read_digits(base, digits)?, rest))
}

/// Reads a number without a sign at the start.
#[tactic(auto, unfolding(crate::specs::Scanning::number_at, crate::specs::Scanning::digits_at))]
pub fn number_at(text: &[u8]) -> Option<(u128, &[u8])>
    ensures found { seen result ≡ number_at text.now }
    ensures small { IfSome result (λ found. found.0 ≤ 2 ^ 64) }
{
    let (prefix, rest) = split_run(text);
    if rest.starts_with(b"#") {
        digits_at(base_of(prefix)?, &rest[1..])
    } else {
        Some((read_digits(10, prefix)?, rest))
    }
}

/// Reads a number at the start that may have a sign where it is decimal.
#[tactic(auto, unfolding(crate::specs::Scanning::signed_at))]
fn signed_at(text: &[u8]) -> Option<(i128, &[u8])>
    ensures { seen result ≡ signed_at text.now }
{
    match text {
        [b'-', digits @ ..] => {
            let (number, rest) = digits_at(10, digits)?;
            Some((-(number as i128), rest))
        }
        [b'+', digits @ ..] => {
            let (number, rest) = digits_at(10, digits)?;
            Some((number as i128, rest))
        }
        _ => {
            let (number, rest) = number_at(text)?;
            Some((number as i128, rest))
        }
    }
}

/// Reads a number, `TRUE` or `FALSE` at the start.
#[tactic(auto, unfolding(crate::specs::Scanning::boolean_at))]
fn boolean_at(text: &[u8]) -> Option<(i128, &[u8])>
    ensures { seen result ≡ boolean_at text.now }
{
    let (prefix, rest) = split_run(text);
    if prefix.eq_ignore_ascii_case(b"TRUE") {
        Some((1, rest))
    } else if prefix.eq_ignore_ascii_case(b"FALSE") {
        Some((0, rest))
    } else {
        signed_at(text)
    }
}

/// Reads at the start what stands after the `#` of a typed literal.
#[tactic(auto, unfolding(crate::specs::Scanning::literal_at))]
pub fn literal_at(class: Class, text: &[u8]) -> Option<(i128, &[u8])>
    ensures { seen result ≡ literal_at class text.now }
{
    match class {
        Class::Boolean => boolean_at(text),
        Class::Integer | Class::BitString => signed_at(text),
        Class::Duration => None,
    }
}
