//! The bytes of values, and the values that bytes begin with.
ghost use Rattle.std.specs.Prelude.{◌≡◌, ◌<◌, ◌≤◌, ◌++◌, ◌^◌, OnOk, drop, length, unsigned_abs};
ghost use Rattle.std.specs.Int.{cast_unsigned, w64};
ghost use Rattle.byteorder.specs.Endian.{little_bytes};
ghost use Rattle.st_memory.specs.Bytes.{BeginAsTruth, read_bytes, value_bytes};
ghost use Rattle.st_values.specs.Types.{width_of};
ghost use Rattle.st_values.specs.Values.{IsValue};

use byteorder::{ByteOrder, LittleEndian};
use st_values::{Elem, Value, wrap};
use std::alloc::AllocError;

/// How many bytes a value of a type takes.
#[inline(always)]
pub fn width(elem: Elem) -> usize
    ensures value { result ≡ width_of elem }
    ensures some { 1 ≤ result }
    ensures few { result ≤ 8 }
{
    elem.width() as usize
}

/// A number in 64 bits, one below 0 in two's complement.
#[inline(always)]
fn pattern(number: i128) -> u64
    requires { unsigned_abs number < 2 ^ 64 }
    ensures { result ≡ cast_unsigned w64 number }
{
    (number.cast_unsigned() % (1 << 64)) as u64
}

/// Puts the bytes of a value after others.
pub fn push_value(bytes: &mut Vec<u8>, value: Value) -> Result<(), AllocError>
    requires { IsValue value }
    ensures { OnOk result (bytes.new.items ≡ bytes.old.items ++ value_bytes value) }
{
    let mut buffer = [0; 8];
    LittleEndian::write_u64(&mut buffer, pattern(value.bits));
    bytes.extend_from_slice(&buffer[..width(value.elem)])
}

/// The value of a type whose bytes these begin with.
pub fn first_value(elem: Elem, bytes: &[u8]) -> Value
    requires { width_of elem ≤ length bytes.now }
    ensures { result ≡ read_bytes elem bytes.now }
{
    let number = LittleEndian::read_uint(bytes, width(elem));
    wrap(elem, i128::from(number))
}

/// Puts the bytes of a value in the place of the first ones.
#[inline(always)]
pub fn put_value(bytes: &mut [u8], value: Value)
    requires room { width_of value.elem ≤ length bytes.old }
    requires value { IsValue value }
    ensures { bytes.new ≡ value_bytes value ++ drop (width_of value.elem) bytes.old }
{
    put_low(bytes, value.elem, pattern(value.bits));
}

/// Puts the lowest bytes of a number, as many as a type has, in the place of the first ones.
#[inline(always)]
fn put_low(bytes: &mut [u8], elem: Elem, number: u64)
    requires { width_of elem ≤ length bytes.old }
    ensures { bytes.new ≡ little_bytes (width_of elem) number ++ drop (width_of elem) bytes.old }
{
    match width(elem) {
        1 => bytes[0] = (number % (1 << 8)) as u8,
        2 => LittleEndian::write_u16(bytes, (number % (1 << 16)) as u16),
        4 => LittleEndian::write_u32(bytes, (number % (1 << 32)) as u32),
        _ => LittleEndian::write_u64(bytes, number),
    }
}

/// The value of a type whose bytes these begin with, as `first_value` gives it, with no arithmetic in 128 bits. Those of a BOOL are 0 or 1.
#[inline(always)]
pub fn value_in(elem: Elem, bytes: &[u8]) -> Value
    requires room { width_of elem ≤ length bytes.now }
    requires truth { BeginAsTruth elem bytes.now }
    ensures { result ≡ read_bytes elem bytes.now }
{
    Value {
        elem,
        bits: number_in(elem, bytes),
    }
}

/// The number of such a value.
#[tactic(auto, unfolding(crate::specs::Bytes::read_bytes))]
#[inline(always)]
fn number_in(elem: Elem, bytes: &[u8]) -> i128
    requires room { width_of elem ≤ length bytes.now }
    requires truth { BeginAsTruth elem bytes.now }
    ensures { record { elem = elem; bits = result } ≡ read_bytes elem bytes.now }
{
    match elem {
        Elem::Bool => i128::from(bytes[0]),
        Elem::Sint => i128::from(bytes[0].cast_signed()),
        Elem::Int => i128::from(LittleEndian::read_u16(bytes).cast_signed()),
        Elem::Dint => i128::from(LittleEndian::read_u32(bytes).cast_signed()),
        Elem::Lint => i128::from(LittleEndian::read_u64(bytes).cast_signed()),
        Elem::Time => i128::from(LittleEndian::read_u64(bytes).cast_signed()),
        Elem::Usint => i128::from(bytes[0]),
        Elem::Byte => i128::from(bytes[0]),
        Elem::Uint => i128::from(LittleEndian::read_u16(bytes)),
        Elem::Word => i128::from(LittleEndian::read_u16(bytes)),
        Elem::Udint => i128::from(LittleEndian::read_u32(bytes)),
        Elem::Dword => i128::from(LittleEndian::read_u32(bytes)),
        Elem::Ulint => i128::from(LittleEndian::read_u64(bytes)),
        Elem::Lword => i128::from(LittleEndian::read_u64(bytes)),
    }
}
