//! What is said of bytes that are no token.
ghost use Rattle.st_messages.specs.Lexemes.{IsWithin};
ghost use Rattle.st_messages.specs.Rows.{one_name};
ghost use Rattle.st_messages.specs.Sayings.{AreWordsFor};
ghost use Rattle.std.specs.List.{list_any};
ghost use Rattle.std.specs.Prelude.{◌<◌, ◌==◌, ◌≡◌, IfOk, IfSome, length, position};
ghost use Rattle.st_syntax_messages.specs.Characters.{cause_of, is_left_out, literal_cause, number_cause, plain_cause, sign_cause, word_cause};
ghost use Rattle.st_syntax_messages.specs.Located.{bytes_of};
ghost use Rattle.st_syntax_messages.specs.Rows.{rows};
ghost use Rattle.st_tokens.specs.Characters.{begins_word};
ghost use Rattle.st_tokens.specs.Scanning.{is_duration_word};
ghost use Rattle.st_values.specs.Words.{is_word};

use crate::cause::Cause;
use crate::reading::bytes_of;
use crate::rows::words_for;
use st_messages::{Lexeme, Slot, Words};
use std::alloc::{AllocError, Global};

/// What is said of a lexeme that is no token.
pub fn explain_characters(alloc: Global, text: &[u8], lexeme: Lexeme) -> Result<Words, AllocError>
    ensures { IsWithin text.now lexeme → IfOk result (AreWordsFor rows
        (cause_of (lexeme.start == 0) (bytes_of text.now lexeme))
        (one_name (bytes_of text.now lexeme))) }
{
    let bytes = bytes_of(text, lexeme);
    words_for(
        alloc,
        cause_of(lexeme.start == 0, bytes),
        &[Slot::Name(bytes)],
    )
}

/// Why bytes, which may be the first ones of a text, are no token.
fn cause_of(is_first: bool, bytes: &[u8]) -> Cause
    ensures { result ≡ cause_of is_first bytes.now }
{
    if bytes.is_empty() {
        Cause::Nothing
    } else if bytes.starts_with(b"(*") {
        Cause::OpenComment
    } else if bytes.starts_with(&MARK) {
        if is_first {
            Cause::FirstMark
        } else {
            Cause::LaterMark
        }
    } else {
        plain_cause(bytes)
    }
}

/// The byte order mark.
const MARK: [u8; 3] = [0xEF, 0xBB, 0xBF];

/// Why bytes that are no comment and no byte order mark are no token.
fn plain_cause(bytes: &[u8]) -> Cause
    ensures { result ≡ plain_cause bytes.now }
{
    let first = match bytes {
        [first, ..] => *first,
        [] => 0,
    };
    if first.is_ascii_digit() {
        number_cause(bytes)
    } else if begins_word(first) {
        word_cause(bytes)
    } else {
        sign_cause(first)
    }
}

/// Whether a word begins with this byte.
fn begins_word(byte: u8) -> bool
    ensures { result ≡ begins_word byte }
{
    byte.is_ascii_alphabetic() || byte == b'_'
}

/// Why bytes that begin with a digit are no number.
fn number_cause(bytes: &[u8]) -> Cause
    ensures { result ≡ number_cause bytes.now }
{
    if bytes.contains(&b'#') {
        Cause::BasedNumber
    } else {
        Cause::PlainNumber
    }
}

/// Why bytes that begin with a letter or `_` are no name and no literal.
fn word_cause(bytes: &[u8]) -> Cause
    ensures { result ≡ word_cause bytes.now }
{
    match first_hash(bytes) {
        Some(at) => literal_cause(&bytes[..at]),
        None => Cause::BadName,
    }
}

/// How many bytes stand before the first `#`.
fn first_hash(bytes: &[u8]) -> Option<usize>
    ensures within { IfSome result (λ at. at < length bytes.now) }
    ensures first { result ≡ position (λ b. b == 35) bytes.now }
{
    bytes.iter().position(|byte| *byte == b'#')
}

/// Why a literal is none that begins with this word and `#`.
fn literal_cause(word: &[u8]) -> Cause
    ensures { result ≡ literal_cause word.now }
{
    if is_duration(word) {
        Cause::BadDuration
    } else if is_left_out(word) {
        Cause::LeftOutLiteral
    } else {
        Cause::BadLiteral
    }
}

/// Whether a literal that begins with this word and `#` is a duration.
fn is_duration(word: &[u8]) -> bool
    ensures { result ≡ is_duration_word word.now }
{
    word.eq_ignore_ascii_case(b"T") || word.eq_ignore_ascii_case(b"TIME")
}

/// Whether a word is the name of a type of the standard that isn't in the profile.
pub fn is_left_out(word: &[u8]) -> bool
    ensures { result ≡ is_left_out word.now }
{
    is_among(&TYPES_LEFT_OUT, word)
}

/// Whether a word is one of these names, ignoring case.
fn is_among(names: &[&[u8]], word: &[u8]) -> bool
    ensures { result ≡ list_any (λ name. is_word name.now word.now) names.now }
{
    names.iter().any(|name| word.eq_ignore_ascii_case(name))
}

/// The types of the standard that aren't in the profile.
static TYPES_LEFT_OUT: [&[u8]; 18] = [
    b"REAL",
    b"LREAL",
    b"STRING",
    b"WSTRING",
    b"CHAR",
    b"WCHAR",
    b"DATE",
    b"D",
    b"LDATE",
    b"TIME_OF_DAY",
    b"TOD",
    b"LTOD",
    b"DATE_AND_TIME",
    b"DT",
    b"LDT",
    b"LTIME",
    b"LT",
    b"POINTER",
];

/// Why a character that begins with this byte is no symbol.
fn sign_cause(first: u8) -> Cause
    ensures { result ≡ sign_cause first }
{
    match first {
        b'\'' | b'"' => Cause::CharacterString,
        b'{' | b'}' => Cause::Pragma,
        b'!' => Cause::Exclamation,
        b'|' => Cause::Bar,
        b'~' => Cause::Tilde,
        b'^' => Cause::Caret,
        b'?' => Cause::QuestionMark,
        b'#' => Cause::Hash,
        b'$' => Cause::Dollar,
        b'\\' | b'@' | b'`' => Cause::OtherSign,
        0..0x80 => Cause::OtherCharacter,
        _ => Cause::Accented,
    }
}
