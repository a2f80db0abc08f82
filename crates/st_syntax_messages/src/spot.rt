//! What stands at a token and around it.
ghost use Rattle.std.specs.Prelude.{◌+◌, ◌-◌, ◌==◌, ◌≡◌, false, if◌then◌else◌, length, nat_lt};
ghost use Rattle.st_syntax_messages.specs.Characters.{is_left_out};
ghost use Rattle.st_syntax_messages.specs.Spots.{can_be_assigned, counts, is_ampersand, is_assign, is_close_bracket, is_divide, is_number, is_times, is_word, kind_mark, mark_at, spelling_at, spot_at, symbol_mark, touches_at};

use crate::characters::is_left_out;
use crate::reading::Reading;
use st_tokens::{Kind, Symbol, Token};

/// What a token is, as far as it tells what it was taken for.
#[derive(Clone, Copy, Debug, PartialEq, Eq)]
pub enum Mark {
    Divide,
    Times,
    Ampersand,
    Dot,
    Percent,
    Open,
    OpenBracket,
    CloseBracket,
    Equal,
    Assign,
    Plus,
    Minus,
    Colon,
    /// A word that isn't reserved.
    Word,
    /// A number without a type.
    Number,
    /// The name of an elementary type.
    Type,
    /// Another token, or none.
    Other,
}

impl Mark {
    /// Whether it is `/`.
    pub fn is_divide(self) -> bool
        ensures { result ≡ is_divide self }
    {
        matches!(self, Mark::Divide)
    }

    /// Whether it is `*`.
    pub fn is_times(self) -> bool
        ensures { result ≡ is_times self }
    {
        matches!(self, Mark::Times)
    }

    /// Whether it is `&`.
    pub fn is_ampersand(self) -> bool
        ensures { result ≡ is_ampersand self }
    {
        matches!(self, Mark::Ampersand)
    }

    /// Whether it is a number.
    pub fn is_number(self) -> bool
        ensures { result ≡ is_number self }
    {
        matches!(self, Mark::Number)
    }

    /// Whether it is `:=`.
    pub fn is_assign(self) -> bool
        ensures { result ≡ is_assign self }
    {
        matches!(self, Mark::Assign)
    }

    /// Whether it is a word that isn't reserved.
    pub fn is_word(self) -> bool
        ensures { result ≡ is_word self }
    {
        matches!(self, Mark::Word)
    }

    /// Whether it is `]`.
    pub fn is_close_bracket(self) -> bool
        ensures { result ≡ is_close_bracket self }
    {
        matches!(self, Mark::CloseBracket)
    }

    /// Whether a variable ends with it.
    pub fn can_be_assigned(self) -> bool
        ensures { result ≡ can_be_assigned self }
    {
        self.is_word() || self.is_close_bracket()
    }

    /// Whether other languages have it behind an operator that counts a variable on.
    pub fn counts(self) -> bool
        ensures { result ≡ counts self }
    {
        matches!(self, Mark::Equal | Mark::Plus | Mark::Minus)
    }
}

/// What stands at a token and around it.
#[derive(Clone, Copy)]
pub struct Spot {
    /// The token.
    pub here: Mark,
    /// The token before it.
    pub before: Mark,
    /// The token behind it.
    pub behind: Mark,
    /// Whether nothing stands between it and the token before it.
    pub touches: bool,
    /// Whether nothing stands between it and the token behind it.
    pub joins: bool,
    /// Whether the token before it is the name of a type that this profile leaves out.
    pub follows_left_out: bool,
}

/// What a symbol is.
fn symbol_mark(symbol: Symbol) -> Mark
    ensures { result ≡ symbol_mark symbol }
{
    match symbol {
        Symbol::Divide => Mark::Divide,
        Symbol::Times => Mark::Times,
        Symbol::Ampersand => Mark::Ampersand,
        Symbol::Dot => Mark::Dot,
        Symbol::Percent => Mark::Percent,
        Symbol::Open => Mark::Open,
        Symbol::OpenBracket => Mark::OpenBracket,
        Symbol::CloseBracket => Mark::CloseBracket,
        Symbol::Equal => Mark::Equal,
        Symbol::Assign => Mark::Assign,
        Symbol::Plus => Mark::Plus,
        Symbol::Minus => Mark::Minus,
        Symbol::Colon => Mark::Colon,
        _ => Mark::Other,
    }
}

/// What a token of this kind is.
fn kind_mark(kind: &Kind<'_>) -> Mark
    ensures { result ≡ kind_mark kind.now }
{
    match kind {
        Kind::Symbol(symbol) => symbol_mark(*symbol),
        Kind::Word(_) => Mark::Word,
        Kind::Number(_) => Mark::Number,
        Kind::Type(_) => Mark::Type,
        _ => Mark::Other,
    }
}

/// What the token of this number is.
fn mark_at(tokens: &[Token<'_>], number: usize) -> Mark
    ensures { result ≡ mark_at tokens.now number }
{
    match tokens.get(number) {
        Some(token) => kind_mark(&token.kind),
        None => Mark::Other,
    }
}

/// What stands at the token of this number and around it.
pub fn spot_at(reading: &Reading<'_>, number: usize) -> Spot
    ensures { result ≡ spot_at reading.now.text.now reading.now.lexemes.now
        reading.now.tokens.now number }
{
    Spot {
        here: mark_at(reading.tokens, number),
        before: mark_before(reading.tokens, number),
        behind: mark_behind(reading.tokens, number),
        touches: reading.touches(number),
        joins: joins(reading, number),
        follows_left_out: follows_left_out(reading, number),
    }
}

/// What the token before the one of this number is.
fn mark_before(tokens: &[Token<'_>], number: usize) -> Mark
    ensures { result ≡ (if number == 0 then Mark.Other else mark_at tokens.now (number - 1)) }
{
    if number == 0 {
        Mark::Other
    } else {
        mark_at(tokens, number - 1)
    }
}

/// What the token behind the one of this number is.
fn mark_behind(tokens: &[Token<'_>], number: usize) -> Mark
    ensures { result ≡ (if nat_lt number (length tokens.now)
        then mark_at tokens.now (number + 1) else Mark.Other) }
{
    if number < tokens.len() {
        mark_at(tokens, number + 1)
    } else {
        Mark::Other
    }
}

/// Whether nothing stands between the token of this number and the one behind it.
fn joins(reading: &Reading<'_>, number: usize) -> bool
    ensures { result ≡ (if nat_lt number (length reading.now.tokens.now)
        then touches_at reading.now.lexemes.now (number + 1) else false) }
{
    if number < reading.tokens.len() {
        reading.touches(number + 1)
    } else {
        false
    }
}

/// Whether the token before the one of this number is the name of a type that this profile leaves out.
fn follows_left_out(reading: &Reading<'_>, number: usize) -> bool
    ensures { result ≡ (if number == 0 then false else is_left_out
        (spelling_at reading.now.text.now reading.now.lexemes.now (number - 1))) }
{
    if number == 0 {
        false
    } else {
        is_left_out(reading.spelling(number - 1))
    }
}
