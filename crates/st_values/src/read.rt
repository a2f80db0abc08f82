//! Texts as values (IEC 61131-3:2003, 2.2).
ghost use Rattle.std.specs.Prelude.{◌≡◌, ◌≤◌, ◌<◌, ◌^◌, length, IfSome, IsTrue, MatchResult, Some, None, option_map};
ghost use Rattle.st_values.specs.Numbers.{capped, capped_signed};
ghost use Rattle.st_values.specs.Readings.{after_sign, is_typed, literal_read, number_in, reads, signed_read, truth_read, value_of};
ghost use Rattle.st_values.specs.Texts.{text};
ghost use Rattle.st_values.specs.Types.{class_of, name_of};
ghost use Rattle.st_values.specs.Values.{IsValue};

use crate::duration::read_duration;
use crate::elem::{Class, Elem};
use crate::number::{read_digits, read_number, with_sign};
use crate::value::{Value, is_value};
use crate::word::{begins_with_word, is_word};
use thiserror::Error;

/// A text that is no value of a type.
#[derive(Debug, Drop, Error)]
#[error("not a value of the type")]
pub struct BadValue;

/// Reads a whole text, without blanks and ignoring case, as a value of a type: a number with an optional sign, decimal or
/// after `2#`, `8#` or `16#`; the same after the type's name and `#`, where only a decimal number has a sign; for BOOL
/// also `TRUE` and `FALSE`; for TIME a duration and nothing else.
///
/// # Errors
/// Where the text is nothing of the kind, or out of the type's range.
#[tactic(auto, unfolding(crate::specs::Readings::reads))]
pub fn read_value(elem: Elem, text: &[u8]) -> Result<Value, BadValue>
    ensures { MatchResult result (λ value. reads elem text.now ≡ Some value)
        (λ _. reads elem text.now ≡ None) }
{
    match read_number_of(elem, text) {
        Some(number) => in_range(elem, number).ok_or(BadValue),
        None => Err(BadValue),
    }
}

/// The number as a value of a type, where it is in the type's range.
fn in_range(elem: Elem, number: i128) -> Option<Value>
    ensures { result ≡ value_of elem number }
{
    let value = Value { elem, bits: number };
    if is_value(value) { Some(value) } else { None }
}

/// Reads a whole text as a number of a type, whatever the type's range is.
fn read_number_of(elem: Elem, text: &[u8]) -> Option<i128>
    ensures { result ≡ option_map capped_signed (number_in (class_of elem) elem text.now) }
{
    match elem.class() {
        Class::Duration => read_duration(text),
        class => {
            if is_typed(elem, text) {
                read_literal(class, true, &text[elem.name().len() + 1..])
            } else {
                read_literal(class, false, text)
            }
        }
    }
}

/// Reads a whole text as a literal, after the name of a type or not.
fn read_literal(class: Class, typed: bool, text: &[u8]) -> Option<i128>
    ensures { result ≡ option_map capped_signed (literal_read class typed text.now) }
{
    if class == Class::Boolean {
        read_truth(text).or(read_signed(typed, text))
    } else {
        read_signed(typed, text)
    }
}

/// Tests whether a text begins with the name of a type, ignoring case, and `#`.
fn is_typed(elem: Elem, text: &[u8]) -> bool
    ensures value { result ≡ is_typed elem text.now }
    ensures within { IsTrue result → length (name_of elem) < length text.now }
{
    let name = elem.name();
    begins_with_word(name, text) && text[name.len()..].starts_with(b"#")
}

/// Reads `TRUE` as 1 and `FALSE` as 0, ignoring case.
fn read_truth(text: &[u8]) -> Option<i128>
    ensures { result ≡ truth_read text.now }
{
    if is_word(b"TRUE", text) {
        Some(1)
    } else if is_word(b"FALSE", text) {
        Some(0)
    } else {
        None
    }
}

/// Reads a whole text as an optional sign and a number.
fn read_signed(typed: bool, text: &[u8]) -> Option<i128>
    ensures { result ≡ option_map capped_signed (signed_read typed text.now) }
{
    match text {
        [b'-', rest @ ..] => with_sign(true, read_after_sign(typed, rest)),
        [b'+', rest @ ..] => with_sign(false, read_after_sign(typed, rest)),
        _ => with_sign(false, read_number(text)),
    }
}

/// Reads what stands after a sign: after the name of a type only a decimal number.
fn read_after_sign(typed: bool, text: &[u8]) -> Option<u128>
    ensures value { result ≡ option_map capped (after_sign typed text.now) }
    ensures bound { IfSome result (λ number. number ≤ 2 ^ 64) }
{
    if typed {
        read_digits(10, text)
    } else {
        read_number(text)
    }
}

/// What is put is read back: the text of a value is read as that value.
pub fn text_is_read_back(value: Value)
    requires { IsValue value }
    ensures { reads value.elem (text value) ≡ Some value }
{}
