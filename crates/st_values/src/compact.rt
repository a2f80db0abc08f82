//! Numbers of 128 bits in halves, for lists and trees of many.
//!
//! A `u128` begins at multiples of 16 bytes, and so does all that it is a part of. A list of tokens and the tree of a text are the
//! smaller for halves.
ghost use Rattle.std.specs.Prelude.{◌≡◌};

use crate::elem::Elem;
use crate::value::Value;
use std::marker::Model;

/// A whole number below 2^128, in two halves. Contracts see the number.
#[derive(Clone, Copy, PartialEq, Eq)]
pub struct Natural {
    /// How often 2^64 is in the number.
    high: u64,
    /// The rest.
    low: u64,
}

impl Model for Natural {
    ghost use Rattle.std.specs.Prelude.{ℕ, ◌+◌, ◌*◌, ◌^◌, ◌<◌, ◌/◌, ◌%◌};

    ghost Value = { ℕ };

    ghost view = { λ number. number.high * 2 ^ 64 + number.low };

    ghost invariant = { λ number. (number.high < 2 ^ 64) × (number.low < 2 ^ 64) };

    ghost inverse = { λ number. record { high = number / (2 ^ 64); low = number % (2 ^ 64) } };
}

impl Natural {
    /// The number in halves.
    pub fn new(number: u128) -> Natural
        ensures { result ≡ number }
    {
        Natural {
            high: (number >> 64) as u64,
            low: (number % (1 << 64)) as u64,
        }
    }

    /// The number.
    pub fn get(self) -> u128
        ensures { result ≡ self }
    {
        (u128::from(self.high) << 64) + u128::from(self.low)
    }
}

/// A whole number of 128 bits with its sign, in two halves. Contracts see the number.
#[derive(Clone, Copy, PartialEq, Eq)]
pub struct Integer {
    /// The number as two's complement.
    bits: Natural,
}

impl Model for Integer {
    ghost use Rattle.std.specs.Prelude.{ℤ, ◌^◌, ◌<◌};
    ghost use Rattle.std.specs.Int.{w128, cast_signed, cast_unsigned};
    ghost use Rattle.std.proofs.Common.{ap};
    ghost use Rattle.std.proofs.lemmas.Int.{of_z-to_z};

    ghost Value = { ℤ };

    ghost view = { λ number. cast_signed w128 number.bits };

    ghost invariant = { λ number. number.bits < 2 ^ 128 };

    ghost inverse = { λ number. record { bits = cast_unsigned w128 number } };

    ghost inverse_ok = { λ number bound. ap (λ bits. record { bits = bits }) (of_z-to_z w128 number.bits bound) };
}

impl Integer {
    /// The number in halves.
    pub fn new(number: i128) -> Integer
        ensures { result ≡ number }
    {
        Integer {
            bits: Natural::new(number.cast_unsigned()),
        }
    }

    /// The number.
    pub fn get(self) -> i128
        ensures { result ≡ self }
    {
        self.bits.get().cast_signed()
    }
}

/// A value whose number stands in halves. Contracts see the value.
#[derive(Clone, Copy)]
pub struct CompactValue {
    elem: Elem,
    bits: Integer,
}

impl Model for CompactValue {
    ghost use Rattle.st_values.specs.declared.value.Value.{Value as Held};

    ghost Value = { Held };

    ghost view = { λ value. record { elem = value.elem; bits = value.bits } };

    ghost inverse = { λ value. record { elem = value.elem; bits = value.bits } };
}

impl CompactValue {
    /// The value of this type and number.
    pub fn new(elem: Elem, bits: Integer) -> CompactValue
        ensures { result ≡ record { elem = elem; bits = bits } }
    {
        CompactValue { elem, bits }
    }

    /// The value.
    pub fn get(self) -> Value
        ensures { result ≡ self }
    {
        Value {
            elem: self.elem,
            bits: self.bits.get(),
        }
    }
}
