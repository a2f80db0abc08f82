//! The texts of subscripts.
ghost use Rattle.std.specs.Prelude.{◌≡◌, ◌≤◌, ◌+◌, ◌-◌, ◌-ℤ◌, length, min};
ghost use Rattle.std.specs.Fmt.{decimal, signed_decimal};
ghost use Rattle.st_leaves.specs.Sizes.{AreChoices};
ghost use Rattle.st_leaves.specs.Subscripts.{texts_between, value_of, values_from};

use crate::limited::{Choices, MAX_COUNT, larger};

/// A whole number, by its sign and its magnitude. Both signs of zero mean zero.
#[derive(Clone, Copy, Debug, PartialEq, Eq)]
pub struct Number {
    pub is_negative: bool,
    /// How far from zero it is.
    pub magnitude: u128,
}

impl Choices {
    /// The texts of all numbers from the lower bound to the upper one.
    pub fn of_subrange(lower: Number, upper: Number) -> Choices
        ensures { AreChoices result (texts_between (value_of lower) (value_of upper)) }
    {
        let count = numbers_between(lower, upper);
        Choices {
            count,
            longest: if count == 0 {
                0
            } else {
                larger(text_len(lower), text_len(upper))
            },
        }
    }
}

/// How many numbers there are from the lower bound to the upper one. It stops at 1,000,000.
fn numbers_between(lower: Number, upper: Number) -> u64
    ensures { result ≡ min (values_from (value_of upper -ℤ value_of lower)) 1000000 }
{
    match (lower.is_negative, upper.is_negative) {
        (false, false) => count_from(lower.magnitude, upper.magnitude),
        (true, true) => count_from(upper.magnitude, lower.magnitude),
        (true, false) => count_from(0, lower.magnitude.saturating_add(upper.magnitude)),
        (false, true) => count_from(lower.magnitude.saturating_add(upper.magnitude), 0),
    }
}

/// How many numbers there are from the least to the greatest. It stops at 1,000,000.
fn count_from(least: u128, greatest: u128) -> u64
    ensures { result ≡ min (greatest + 1 - least) 1000000 }
{
    if greatest < least {
        return 0;
    }
    let gap = greatest - least;
    if gap < u128::from(MAX_COUNT) {
        gap as u64 + 1
    } else {
        MAX_COUNT
    }
}

/// How many bytes the text of a number has.
fn text_len(number: Number) -> u64
    ensures len { result ≡ length (signed_decimal (value_of number)) }
    ensures few { result ≤ 40 }
{
    let digits = decimal_len(number.magnitude);
    if number.is_negative && number.magnitude > 0 {
        digits + 1
    } else {
        digits
    }
}

/// How many digits a number has.
fn decimal_len(number: u128) -> u64
    ensures len { result ≡ length (decimal number) }
    ensures few { result ≤ 39 }
{
    let mut rest = number;
    let mut digits = 1;
    'digits: while rest >= 10 {
        rest /= 10;
        digits += 1;
    }
    digits
}
