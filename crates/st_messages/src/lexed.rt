//! A text with its lexemes.

use crate::lexeme::Lexeme;

/// A text with its lexemes.
#[derive(Clone, Copy)]
pub struct Lexed<'a> {
    pub text: &'a [u8],
    pub lexemes: &'a [Lexeme],
}

impl<'a> Lexed<'a> {
    /// The bytes of the token of this number. There are none where there is no such token.
    pub fn spelling(&self, number: u32) -> &'a [u8] {
        match self.lexemes.get(number as usize) {
            Some(lexeme) => match self.text.get(lexeme.start..lexeme.end) {
                Some(bytes) => bytes,
                None => b"",
            },
            None => b"",
        }
    }

    /// The bytes of the token before the one of this number.
    pub fn before(&self, number: u32) -> &'a [u8] {
        match number.checked_sub(1) {
            Some(before) => self.spelling(before),
            None => b"",
        }
    }

    /// The bytes of the token behind the one of this number.
    pub fn behind(&self, number: u32) -> &'a [u8] {
        match number.checked_add(1) {
            Some(behind) => self.spelling(behind),
            None => b"",
        }
    }

    /// The literal that begins at the token of this number: its sign, or nothing, and what follows it.
    pub fn literal(&self, number: u32) -> (&'a [u8], &'a [u8]) {
        let bytes = self.spelling(number);
        match bytes {
            b"-" | b"+" => (bytes, self.behind(number)),
            _ => (b"", bytes),
        }
    }
}
