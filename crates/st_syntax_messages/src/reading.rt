//! A text with its lexemes and tokens.
ghost use Rattle.std.specs.Option.{option_copied};
ghost use Rattle.std.specs.Prelude.{◌≡◌, Some};
ghost use Rattle.st_messages.specs.Lexemes.{IsWithin};
ghost use Rattle.st_syntax_messages.specs.Located.{bytes_of};
ghost use Rattle.st_syntax_messages.specs.Spots.{bytes_in, kind_at, kind_before, kind_behind, lexeme_before, line_of, spelling_at, touch, touches_at};

use st_messages::Lexeme;
use st_tokens::{Kind, Token};

/// A text that has tokens, with them and with the lexemes that they are.
#[derive(Clone, Copy)]
pub struct Reading<'a> {
    pub text: &'a [u8],
    pub lexemes: &'a [Lexeme],
    pub tokens: &'a [Token<'a>],
}

/// The bytes of a lexeme.
pub fn bytes_of(text: &[u8], lexeme: Lexeme) -> &[u8]
    ensures within { IsWithin text.now lexeme → result.now ≡ bytes_of text.now lexeme }
    ensures any { result.now ≡ bytes_in text.now (Some lexeme) }
{
    match text.get(lexeme.start..lexeme.end) {
        Some(bytes) => bytes,
        None => b"",
    }
}

/// Whether nothing stands between a lexeme and one behind it, if there is one.
fn touch(before: &Lexeme, lexeme: Option<&Lexeme>) -> bool
    ensures { result ≡ touch (Some before.now) (option_copied lexeme.entry) }
{
    match lexeme {
        Some(lexeme) => before.end == lexeme.start,
        None => false,
    }
}

impl<'a> Reading<'a> {
    /// What the token of this number is.
    pub fn kind(&self, number: usize) -> Option<&'a Kind<'a>>
        ensures { option_copied result ≡ kind_at self.now.tokens.now number }
    {
        match self.tokens.get(number) {
            Some(token) => Some(&token.kind),
            None => None,
        }
    }

    /// What the token before the one of this number is.
    pub fn kind_before(&self, number: usize) -> Option<&'a Kind<'a>>
        ensures { option_copied result ≡ kind_before self.now.tokens.now number }
    {
        if number == 0 {
            None
        } else {
            self.kind(number - 1)
        }
    }

    /// What the token behind the one of this number is.
    pub fn kind_behind(&self, number: usize) -> Option<&'a Kind<'a>>
        ensures { option_copied result ≡ kind_behind self.now.tokens.now number }
    {
        if number < self.tokens.len() {
            self.kind(number + 1)
        } else {
            None
        }
    }

    /// The bytes of the token of this number. There are none where there is no such token.
    pub fn spelling(&self, number: usize) -> &'a [u8]
        ensures { result.now ≡ spelling_at self.now.text.now self.now.lexemes.now number }
    {
        match self.lexemes.get(number) {
            Some(lexeme) => bytes_of(self.text, *lexeme),
            None => b"",
        }
    }

    /// The line of the token of this number. It is 0 where there is no such token.
    pub fn line(&self, number: usize) -> u32
        ensures { result ≡ line_of self.now.tokens.now number }
    {
        match self.tokens.get(number) {
            Some(token) => token.line,
            None => 0,
        }
    }

    /// Whether nothing stands between the token of this number and the one before it.
    pub fn touches(&self, number: usize) -> bool
        ensures { result ≡ touches_at self.now.lexemes.now number }
    {
        if number == 0 {
            return false;
        }
        match self.lexemes.get(number - 1) {
            Some(before) => touch(before, self.lexemes.get(number)),
            None => false,
        }
    }

    /// The lexeme before the one of this number.
    pub fn lexeme_before(&self, number: usize) -> Option<Lexeme>
        ensures { result ≡ lexeme_before self.now.lexemes.now number }
    {
        if number == 0 {
            None
        } else {
            self.lexemes.get(number - 1).copied()
        }
    }
}
