//! Values as texts (IEC 61131-3:2003, 2.2).
ghost use Rattle.std.specs.Fmt.{digit_glyph, digits};
ghost use Rattle.std.specs.Prelude.{◌≡◌, ◌++◌, ◌+◌, ◌<◌, ◌≤◌, ◌^◌, length, drop, true, unsigned_abs, OnOk, OnErr, vec_len, vec_capacity};
ghost use Rattle.st_values.specs.Texts.{signed_text, text};
ghost use Rattle.st_values.specs.Values.{IsValue};

use crate::elem::Class;
use crate::value::Value;
use std::alloc::AllocError;

/// The most bytes of a value's text.
const MAX_BYTES: usize = 24;

/// Puts the text of a value at the end: `TRUE` or `FALSE`, an integer in decimal, a bit string as `16#` and upper case
/// digits, a duration as `T#`, its milliseconds in decimal and `ms`.
///
/// # Errors
/// Where memory was refused. It isn't asked for where 24 bytes are spare.
pub fn put_value(value: Value, out: &mut Vec<u8>) -> Result<(), AllocError>
    requires { IsValue value }
    ensures ok { OnOk result (out.new.items ≡ out.old.items ++ text value) }
    ensures err { OnErr result (out.new.items ≡ out.old.items) }
    ensures spare { OnErr result (vec_capacity out.old < vec_len out.old + 24) }
    ensures capacity { vec_capacity out.old ≤ vec_capacity out.new }
    ensures short { length (text value) ≤ 24 }
{
    let mut buffer = [0; MAX_BYTES];
    let start = lay_value(value, &mut buffer);
    out.extend_from_slice(&buffer[start..])
}

/// Lays the text of a value at the end of the buffer, and answers where it begins.
fn lay_value(value: Value, buffer: &mut [u8]) -> usize
    requires value { IsValue value }
    requires size { length buffer.old ≡ 24 }
    ensures start { result ≤ 24 }
    ensures laid { drop result buffer.new ≡ text value }
{
    let end = buffer.len();
    let magnitude = value.bits.unsigned_abs() as u64;
    match value.elem.class() {
        Class::Boolean => {
            if magnitude == 0 {
                lay(buffer, end, b"FALSE")
            } else {
                lay(buffer, end, b"TRUE")
            }
        }
        Class::Integer => lay_signed(buffer, end, value.bits, 20),
        Class::BitString => {
            let start = lay_digits(buffer, end, 16, magnitude, 20);
            lay(buffer, start, b"16#")
        }
        Class::Duration => {
            let unit = lay(buffer, end, b"ms");
            let start = lay_signed(buffer, unit, value.bits, 19);
            lay(buffer, start, b"T#")
        }
    }
}

/// Lays a number of at most so many digits, with its sign, just before `end`, and answers where it begins.
fn lay_signed(buffer: &mut [u8], end: usize, number: i128, places: usize) -> usize
    requires magnitude { unsigned_abs number < 2 ^ 64 }
    requires digits { unsigned_abs number < 10 ^ places }
    requires some { 0 < places }
    requires few { places ≤ 20 }
    requires fits { places < end }
    requires within { end ≤ length buffer.old }
    ensures start { end ≤ result + places + 1 }
    ensures within { result ≤ end }
    ensures laid { drop result buffer.new ≡ signed_text number ++ drop end buffer.old }
{
    let start = lay_digits(buffer, end, 10, number.unsigned_abs() as u64, places);
    if number < 0 {
        lay(buffer, start, b"-")
    } else {
        start
    }
}

/// Lays a text just before `end`, and answers where it begins.
fn lay(buffer: &mut [u8], end: usize, text: &[u8]) -> usize
    requires fits { length text.now ≤ end }
    requires within { end ≤ length buffer.old }
    ensures start { result + length text.now ≡ end }
    ensures laid { drop result buffer.new ≡ text.now ++ drop end buffer.old }
{
    let start = end - text.len();
    buffer[start..end].copy_from_slice(text);
    start
}

/// Lays at most so many digits of a number just before `end`, and answers where they begin.
fn lay_digits(buffer: &mut [u8], end: usize, base: u64, mut number: u64, places: usize) -> usize
    requires low { 10 ≤ base }
    requires high { base ≤ 16 }
    requires digits { number < 10 ^ places }
    requires some { 0 < places }
    requires few { places ≤ 20 }
    requires fits { places ≤ end }
    requires within { end ≤ length buffer.old }
    ensures start { end ≤ result + places }
    ensures within { result ≤ end }
    ensures laid { drop result buffer.new ≡ digits base true number ++ drop end buffer.old }
{
    let mut start = end - 1;
    buffer[start] = glyph(number % base);
    number /= base;
    while number > 0 {
        start -= 1;
        buffer[start] = glyph(number % base);
        number /= base;
    }
    start
}

/// The byte of a digit, in upper case.
fn glyph(digit: u64) -> u8
    requires { digit < 16 }
    ensures { result ≡ digit_glyph true digit }
{
    let digit = digit as u8;
    if digit < 10 {
        b'0' + digit
    } else {
        b'A' + (digit - 10)
    }
}
