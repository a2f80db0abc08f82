//! Shifts and rotations of bit strings (IEC 61131-3:2003, 2.5.1.5.3, table 25).
ghost use Rattle.std.specs.Prelude.{◌≡◌, ◌≤◌, ◌<◌, ◌%◌, IsTrue};
ghost use Rattle.st_values.specs.Types.{bits_of};
ghost use Rattle.st_values.specs.Values.{IsValue};
ghost use Rattle.st_operators.specs.Functions.{places_of, rotated_left_by, rotated_right_by, shifted_left_by, shifted_right_by, turned};
ghost use Rattle.st_operators.specs.Operators.{bits_in, is_bits, of_bits};

use crate::bits::{bits_in, modulus, of_bits};
use st_values::Value;

/// By how many places a count shifts: none where it is below 1.
fn places_of(count: Value) -> u128
    ensures { result ≡ places_of count.bits }
{
    if count.bits < 0 {
        0
    } else {
        count.bits.unsigned_abs()
    }
}

/// `SHL`: zeros come in on the right. A count below 1 changes nothing, and from the width on the result is 0.
pub fn shifted_left(a: Value, count: Value) -> Value
    requires taken { IsTrue (is_bits a.elem) }
    requires value { IsValue a }
    ensures value { result ≡ shifted_left_by a (places_of count.bits) }
    ensures in_range { IsValue result }
    ensures elem { result.elem ≡ a.elem }
{
    let places = places_of(count);
    if places >= u128::from(a.elem.bits()) {
        of_bits(a.elem, 0)
    } else {
        of_bits(a.elem, (bits_in(a) << places as u32) % modulus(a.elem))
    }
}

/// `SHR`: zeros come in on the left. A count below 1 changes nothing, and from the width on the result is 0.
pub fn shifted_right(a: Value, count: Value) -> Value
    requires taken { IsTrue (is_bits a.elem) }
    requires value { IsValue a }
    ensures value { result ≡ shifted_right_by a (places_of count.bits) }
    ensures in_range { IsValue result }
    ensures elem { result.elem ≡ a.elem }
{
    let places = places_of(count);
    if places >= u128::from(a.elem.bits()) {
        of_bits(a.elem, 0)
    } else {
        of_bits(a.elem, bits_in(a) >> places as u32)
    }
}

/// `ROL`: what passes the left end comes in on the right. A count below 1 changes nothing.
pub fn rotated_left(a: Value, count: Value) -> Value
    requires taken { IsTrue (is_bits a.elem) }
    requires value { IsValue a }
    ensures value { result ≡ rotated_left_by a (places_of count.bits) }
    ensures in_range { IsValue result }
    ensures elem { result.elem ≡ a.elem }
{
    turned(a, a.elem.bits() - places_in_width(a, count))
}

/// `ROR`: what passes the right end comes in on the left. A count below 1 changes nothing.
pub fn rotated_right(a: Value, count: Value) -> Value
    requires taken { IsTrue (is_bits a.elem) }
    requires value { IsValue a }
    ensures value { result ≡ rotated_right_by a (places_of count.bits) }
    ensures in_range { IsValue result }
    ensures elem { result.elem ≡ a.elem }
{
    turned(a, places_in_width(a, count))
}

/// By how many places a count rotates: whole turns are left out.
fn places_in_width(a: Value, count: Value) -> u32
    ensures value { result ≡ places_of count.bits % bits_of a.elem }
    ensures few { result < bits_of a.elem }
{
    (places_of(count) % u128::from(a.elem.bits())) as u32
}

/// The value whose lowest bits, so many of them, are put before the others.
fn turned(a: Value, low: u32) -> Value
    requires taken { IsTrue (is_bits a.elem) }
    requires value { IsValue a }
    requires low { low ≤ bits_of a.elem }
    ensures value { result ≡ of_bits a.elem (turned (bits_of a.elem) low (bits_in a)) }
    ensures in_range { IsValue result }
{
    let bits = bits_in(a);
    let moved = bits % (1 << low);
    of_bits(a.elem, (moved << (a.elem.bits() - low)) + (bits >> low))
}
