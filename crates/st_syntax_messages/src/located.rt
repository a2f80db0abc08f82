//! Where a text isn't in the grammar.
ghost use Rattle.std.specs.Prelude.{◌≡◌, ◌↔◌, ◌<◌, ◌≤◌, All, IfOk, IsTrue, [], false, true};
ghost use Rattle.st_messages.specs.Lexemes.{AreLexemes, ArePieces, IsWithin};
ghost use Rattle.st_messages.specs.Places.{HasLine, line_at};
ghost use Rattle.st_messages.specs.Sayings.{AreWordsFor};
ghost use Rattle.st_syntax_messages.specs.Located.{IsRead, IsUnknownAt, bytes_of};
ghost use Rattle.st_syntax_messages.specs.Rows.{rows};
ghost use Rattle.st_syntax_messages.specs.Stopped.{IsAtStop, IsSaidAt, start_at, text_end};
ghost use Rattle.st_tokens.specs.Text.{HasTokens, Tokens};

use crate::cause::Cause;
use crate::characters::explain_characters;
use crate::reading::{Reading, bytes_of};
use crate::rows::words_for;
use crate::tokens::{explain_depth, explain_end, explain_token};
use st_messages::{Lexeme, Span, Words, lexemes, line_span};
use st_syntax::{ReadFault, read_units};
use st_tokens::{SyntaxFault, tokens};
use std::alloc::{AllocError, Global};

/// What is said of a fault, and of which bytes of the text.
#[derive(Drop)]
pub struct Located {
    /// The bytes at fault.
    pub span: Span,
    /// What is said of them.
    pub words: Words,
}

/// What is said of a text that isn't in the grammar, which is refused with this number, from 1 to 4, and this line.
pub fn explain_syntax(
    alloc: Global,
    text: &[u8],
    number: u8,
    line: u32,
) -> Result<Located, AllocError>
    ensures long { number ≡ 4 → IfOk result (λ l. l.span.start ≡ 0) }
    ensures line { number ≡ 1 → HasLine text.now line
        → IfOk result (λ l. line_at text.now l.span.start ≡ line) }
    ensures unknown { number ≡ 1 → IfOk result (λ l. IsUnknownAt text.now line l.span.start) }

    // Else it stands at the token at which reading stops, whatever the line is.
    ensures stops { 1 < number → number < 4 → IfOk result (λ l. IsAtStop text.now l.span.start) }
{
    if number == 4 {
        return too_long(alloc);
    }
    let found = lexemes(alloc, text)?;
    if number == 1 {
        at_characters(alloc, text, &found, line)
    } else {
        at_stop(alloc, text, &found, line)
    }
}

/// What is said of a text whose tokens aren't in the grammar: of the token at which reading them stops.
fn at_stop(alloc: Global, text: &[u8], found: &[Lexeme], line: u32) -> Result<Located, AllocError>
    requires within { All (IsWithin text.now) found.now }
    requires pieces { ArePieces text.now found.now }
    requires tokens { (ts : Tokens) → HasTokens 1 text.now ts → AreLexemes text.now ts found.now }
    ensures { IfOk result (λ l. IsAtStop text.now l.span.start) }
{
    match tokens(alloc, text) {
        Ok(tokens) => {
            let reading = Reading {
                text,
                lexemes: found,
                tokens: &tokens,
            };
            match read_units(alloc, &tokens) {
                Ok(_units) => at_end(alloc, &reading),
                Err(fault) => at_fault(alloc, &reading, fault),
            }
        }
        Err(SyntaxFault::Memory) => Err(AllocError),
        Err(_) => at_characters(alloc, text, found, line),
    }
}

/// What is said of the token at which reading stops, or of the end of the text.
fn at_fault(alloc: Global, reading: &Reading<'_>, fault: ReadFault) -> Result<Located, AllocError>
    ensures { IfOk result (λ l. IsSaidAt fault reading.now.text.now reading.now.lexemes.now
        l.span.start) }
{
    let (number, words) = match fault {
        ReadFault::Memory => return Err(AllocError),
        ReadFault::NotInGrammar { place: None } | ReadFault::TooDeep { place: None } => {
            return at_end(alloc, reading);
        }
        ReadFault::NotInGrammar {
            place: Some(position),
        } => {
            let number = position.number as usize;
            (number, explain_token(alloc, reading, number)?)
        }
        ReadFault::TooDeep {
            place: Some(position),
        } => {
            let number = position.number as usize;
            (number, explain_depth(alloc, reading, number)?)
        }
    };
    let span = span_at(reading.lexemes, number);
    Ok(Located { span, words })
}

/// What is said of a text that ends too early, at its end.
fn at_end(alloc: Global, reading: &Reading<'_>) -> Result<Located, AllocError>
    ensures { IfOk result (λ l. l.span.start ≡ text_end reading.now.text.now) }
{
    Ok(Located {
        span: end_of(reading.text),
        words: explain_end(alloc, reading)?,
    })
}

/// What is said of a text that is too long.
fn too_long(alloc: Global) -> Result<Located, AllocError>
    ensures start { IfOk result (λ l. l.span.start ≡ 0) }
    ensures words { IfOk result (λ l. AreWordsFor rows Cause.TooLong [] l.words) }
{
    let words = words_for(alloc, Cause::TooLong, &[])?;
    let span = Span { start: 0, end: 0 };
    Ok(Located { span, words })
}

/// The bytes of the token of this number. Where there is no such token, they are none, at the start of the text.
pub fn span_at(lexemes: &[Lexeme], number: usize) -> Span
    ensures { result.start ≡ start_at lexemes.now number }
{
    match lexemes.get(number) {
        Some(lexeme) => span_of(*lexeme),
        None => Span { start: 0, end: 0 },
    }
}

/// The span of a lexeme.
fn span_of(lexeme: Lexeme) -> Span
    ensures { result.start ≡ lexeme.start }
{
    Span {
        start: lexeme.start,
        end: lexeme.end,
    }
}

/// The place behind the last byte of a text. A line feed at its end belongs to the line that it ends.
fn end_of(text: &[u8]) -> Span
    ensures { result.start ≡ text_end text.now }
{
    let end = if text.ends_with(b"\r\n") {
        text.len() - 2
    } else if text.ends_with(b"\n") {
        text.len() - 1
    } else {
        text.len()
    };
    Span { start: end, end }
}

/// What is said of the first lexeme that is no token, of those that begin on a line.
fn at_characters(
    alloc: Global,
    text: &[u8],
    found: &[Lexeme],
    line: u32,
) -> Result<Located, AllocError>
    requires within { All (IsWithin text.now) found.now }
    requires pieces { ArePieces text.now found.now }
    ensures line { HasLine text.now line
        → IfOk result (λ l. line_at text.now l.span.start ≡ line) }
    ensures unknown { IfOk result (λ l. IsUnknownAt text.now line l.span.start) }
{
    let here = line_span(text, line as usize);
    for lexeme in found {
        if is_unknown_on(alloc, text, *lexeme, here)? {
            let words = explain_characters(alloc, text, *lexeme)?;
            return Ok(Located {
                span: span_of(*lexeme),
                words,
            });
        }
    }
    let words = words_for(alloc, Cause::NoToken, &[])?;
    let span = Span {
        start: here.end,
        end: here.end,
    };
    Ok(Located { span, words })
}

/// Whether a lexeme begins on a line and is no token.
fn is_unknown_on(alloc: Global, text: &[u8], lexeme: Lexeme, line: Span) -> Result<bool, AllocError>
    requires { IsWithin text.now lexeme }
    ensures least { IfOk result (λ is. is ≡ true → line.start ≤ lexeme.start) }
    ensures most { IfOk result (λ is. is ≡ true → lexeme.start ≤ line.end) }
    ensures unknown { IfOk result (λ is. is ≡ true → IsRead (bytes_of text.now lexeme) → ⊥) }
    ensures read { IfOk result (λ is. is ≡ false → line.start ≤ lexeme.start
        → lexeme.start ≤ line.end → IsRead (bytes_of text.now lexeme)) }
{
    if lexeme.start < line.start || line.end < lexeme.start {
        return Ok(false);
    }
    let is_read = is_token(alloc, bytes_of(text, lexeme))?;
    Ok(!is_read)
}

/// Whether these bytes are a token.
fn is_token(alloc: Global, bytes: &[u8]) -> Result<bool, AllocError>
    ensures { IfOk result (λ is. IsTrue is ↔ IsRead bytes.now) }
{
    match tokens(alloc, bytes) {
        Ok(_tokens) => Ok(true),
        Err(SyntaxFault::Memory) => Err(AllocError),
        Err(_) => Ok(false),
    }
}
