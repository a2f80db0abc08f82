//! Tokens.

use crate::keyword::Keyword;
use crate::symbol::Symbol;
use st_values::{Elem, Integer, Natural};
use std::marker::Model;

/// The bytes of a word as the text has them: letters, digits and `_` alone. They are borrowed from the text, and contracts
/// see them as a list.
#[derive(Drop)]
pub struct Spelling<'a> {
    bytes: &'a [u8],
}

impl<'a> Model for Spelling<'a> {
    ghost use Rattle.std.specs.Prelude.{List, ℕ};
    ghost use Rattle.st_values.specs.Words.{AreWordBytes};

    ghost Value = { List ℕ };

    ghost view = { λ spelling. spelling.bytes.now };

    ghost invariant = { λ spelling. AreWordBytes spelling.bytes.now };
}

impl<'a> Spelling<'a> {
    ghost use Rattle.std.specs.Prelude.{◌≡◌};
    ghost use Rattle.st_values.specs.Words.{AreWordBytes};

    /// The spelling that these bytes are.
    pub fn of(bytes: &'a [u8]) -> Spelling<'a>
        requires { AreWordBytes bytes.now }
        ensures { result ≡ bytes.now }
    {
        Spelling { bytes }
    }

    /// The bytes of the spelling.
    pub fn bytes(&self) -> &'a [u8]
        ensures bytes { result.now ≡ self.now }
        ensures word { AreWordBytes result.now }
    {
        self.bytes
    }
}

/// What a token is.
#[derive(Drop)]
pub enum Kind<'a> {
    /// A word that isn't reserved. Words are the same where they differ in case only.
    Word(Spelling<'a>),
    /// A reserved word that isn't the name of an elementary type.
    Keyword(Keyword),
    /// The name of an elementary type.
    Type(Elem),
    /// A number without a sign. Each above 2^64 - 1 counts as 2^64.
    Number(Natural),
    /// A typed literal, as `INT#-5`: its type and its number, which may lie outside the type's range. Each above 2^64 - 1 counts
    /// as 2^64.
    Typed(Elem, Integer),
    /// A duration in milliseconds. Each outside -2^63 to 2^63 - 1 counts as 2^64.
    Duration(Integer),
    /// A symbol.
    Symbol(Symbol),
}

/// A token and where it stands.
#[derive(Drop)]
pub struct Token<'a> {
    /// What it is.
    pub kind: Kind<'a>,
    /// The line on which it begins. The first is 1.
    pub line: u32,
}
