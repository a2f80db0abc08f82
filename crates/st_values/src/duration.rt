//! Durations in texts (IEC 61131-3:2003, 2.2.3.1, table 7).
ghost use Rattle.std.specs.Char.{is_ascii_alphabetic};
ghost use Rattle.std.specs.List.{prefix_len};
ghost use Rattle.std.specs.Prelude.{◌≡◌, ℕ, ◌≤◌, ◌<◌, ◌^◌, ◌↔◌, Some, length, not, option_map, position, IfSome};
ghost use Rattle.st_values.specs.Durations.{IsInterval, amount_read, duration_read, fraction_read, interval_read, is_point, last_amount_read, letters_of, milliseconds_of, part_letters, part_number, part_rest, parts_read, signed_interval_read, sum_of, units, without_underscore};
ghost use Rattle.st_values.specs.Numbers.{capped, capped_signed};

use crate::number::{TOO_MUCH, read_digits, with_sign};
use crate::word::{begins_with_word, is_word};

/// A unit of a duration.
#[derive(Clone, Copy)]
pub enum TimeUnit {
    Days,
    Hours,
    Minutes,
    Seconds,
    Milliseconds,
}

/// The units, from large to small.
const UNITS: [TimeUnit; 5] = [
    TimeUnit::Days,
    TimeUnit::Hours,
    TimeUnit::Minutes,
    TimeUnit::Seconds,
    TimeUnit::Milliseconds,
];

impl TimeUnit {
    /// The unit's letters, in upper case.
    fn letters(self) -> &'static [u8]
        ensures { result.now ≡ letters_of self }
    {
        match self {
            TimeUnit::Days => b"D",
            TimeUnit::Hours => b"H",
            TimeUnit::Minutes => b"M",
            TimeUnit::Seconds => b"S",
            TimeUnit::Milliseconds => b"MS",
        }
    }

    /// How many milliseconds the unit has.
    fn milliseconds(self) -> u128
        ensures value { result ≡ milliseconds_of self }
        ensures bound { result < 2 ^ 32 }
    {
        match self {
            TimeUnit::Days => 86_400_000,
            TimeUnit::Hours => 3_600_000,
            TimeUnit::Minutes => 60_000,
            TimeUnit::Seconds => 1_000,
            TimeUnit::Milliseconds => 1,
        }
    }
}

/// The first part of an interval, and what stands after it.
#[derive(Clone, Copy)]
struct Part<'a> {
    number: &'a [u8],
    letters: &'a [u8],
    rest: &'a [u8],
}

/// Reads a whole text as a duration, in milliseconds. What is above all types' ranges counts as 2^64 or -2^64.
pub fn read_duration(text: &[u8]) -> Option<i128>
    ensures { result ≡ option_map capped_signed (duration_read text.now) }
{
    if begins_with_word(b"T#", text) {
        read_signed_interval(&text[2..])
    } else if begins_with_word(b"TIME#", text) {
        read_signed_interval(&text[5..])
    } else {
        None
    }
}

/// Reads a whole text as an optional `-` and an interval.
fn read_signed_interval(text: &[u8]) -> Option<i128>
    ensures { result ≡ option_map capped_signed (signed_interval_read text.now) }
{
    match text {
        [b'-', interval @ ..] => with_sign(true, read_interval(interval)),
        _ => with_sign(false, read_interval(text)),
    }
}

/// Reads a whole text as parts with units from large to small, in milliseconds. What is above all types' ranges counts as 2^64.
pub fn read_interval(text: &[u8]) -> Option<u128>
    ensures value { result ≡ option_map capped (interval_read text.now) }
    ensures bound { IfSome result (λ number. number ≤ 2 ^ 64) }
{
    read_parts(&UNITS, text)
}

/// Reads a whole text as parts, each with a unit of these, from large to small.
fn read_parts(units: &[TimeUnit], text: &[u8]) -> Option<u128>
    ensures value { result ≡ option_map capped (parts_read units.now text.now) }
    ensures bound { IfSome result (λ number. number ≤ 2 ^ 64) }
{
    let [unit, smaller @ ..] = units else {
        return None;
    };
    let part = first_part(text);
    if !is_word(unit.letters(), part.letters) {
        read_parts(smaller, text)
    } else if part.rest.is_empty() {
        read_last_amount(*unit, part.number)
    } else {
        sum_of(
            read_amount(*unit, part.number),
            read_parts(smaller, without_underscore(part.rest)),
        )
    }
}

/// The sum, where both are there.
fn sum_of(first: Option<u128>, second: Option<u128>) -> Option<u128>
    requires first { IfSome first (λ number. number ≤ 2 ^ 64) }
    requires second { IfSome second (λ number. number ≤ 2 ^ 64) }
    ensures value { result ≡ option_map capped (sum_of first second) }
    ensures bound { IfSome result (λ number. number ≤ 2 ^ 64) }
{
    Some((first? + second?).min(TOO_MUCH))
}

/// The first part of a text: what stands before the first letter, the letters there, and what follows.
fn first_part(text: &[u8]) -> Part<'_>
    ensures number { result.number.now ≡ part_number text.now }
    ensures letters { result.letters.now ≡ part_letters text.now }
    ensures rest { result.rest.now ≡ part_rest text.now }
{
    let (number, unit) = text.split_at(number_len(text));
    let (letters, rest) = unit.split_at(letters_len(unit));
    Part {
        number,
        letters,
        rest,
    }
}

/// How many bytes stand before the first letter.
fn number_len(text: &[u8]) -> usize
    ensures value { result ≡ prefix_len (λ c. not (is_ascii_alphabetic c)) text.now }
    ensures within { result ≤ length text.now }
{
    text.iter()
        .take_while(|byte| !byte.is_ascii_alphabetic())
        .count()
}

/// How many letters a text begins with.
fn letters_len(text: &[u8]) -> usize
    ensures value { result ≡ prefix_len is_ascii_alphabetic text.now }
    ensures within { result ≤ length text.now }
{
    text.iter()
        .take_while(|byte| byte.is_ascii_alphabetic())
        .count()
}

/// The text without a `_` that it begins with.
fn without_underscore(text: &[u8]) -> &[u8]
    ensures { result.now ≡ without_underscore text.now }
{
    match text {
        [b'_', rest @ ..] => rest,
        _ => text,
    }
}

/// Reads so many of a unit, in milliseconds.
fn read_amount(unit: TimeUnit, number: &[u8]) -> Option<u128>
    ensures value { result ≡ option_map capped (amount_read unit number.now) }
    ensures bound { IfSome result (λ amount. amount ≤ 2 ^ 64) }
{
    let count = read_digits(10, number)?;
    Some((count * unit.milliseconds()).min(TOO_MUCH))
}

/// Reads the number of the last part, which may have a fraction, in milliseconds.
fn read_last_amount(unit: TimeUnit, number: &[u8]) -> Option<u128>
    ensures value { result ≡ option_map capped (last_amount_read unit number.now) }
    ensures bound { IfSome result (λ amount. amount ≤ 2 ^ 64) }
{
    match point_of(number) {
        Some(point) => sum_of(
            read_amount(unit, &number[..point]),
            read_fraction(unit, &number[point + 1..]),
        ),
        None => read_amount(unit, number),
    }
}

/// Where the first `.` stands.
fn point_of(number: &[u8]) -> Option<usize>
    ensures { result ≡ position is_point number.now }
{
    number.iter().position(|byte| *byte == b'.')
}

/// Reads so many tenths, hundredths and so on of a unit, where they are a whole number of milliseconds.
fn read_fraction(unit: TimeUnit, digits: &[u8]) -> Option<u128>
    ensures value { result ≡ fraction_read unit digits.now }
    ensures bound { IfSome result (λ amount. amount ≤ 2 ^ 64) }
{
    if digits.is_empty() {
        return None;
    }
    let whole = unit.milliseconds();
    let mut share = 0;
    for i in (0..digits.len()).rev() {
        let digit = char::from(digits[i]).to_digit(10)?;
        share += u128::from(digit) * whole;
        if share % 10 != 0 {
            return None;
        }
        share /= 10;
    }
    Some(share)
}

/// What is read as an interval is what the grammar of an interval says.
pub fn interval_is_its_parts(text: &[u8])
    ensures { (n : ℕ) → (interval_read text.now ≡ Some n) ↔ IsInterval units text.now n }
{}
