//! Cuts a text into tokens.
ghost use Rattle.std.specs.Prelude.{◌≡◌, ◌≤◌, ◌<◌, ◌+◌, ◌^◌, length, IfOk, IfErr, MatchResult};
ghost use Rattle.st_tokens.specs.Characters.{is_blank};
ghost use Rattle.st_tokens.specs.Scanning.{duration_at, prefixed_at, seen, symbol_at, token_at, typed_at, word_at};
ghost use Rattle.st_tokens.specs.Text.{HasTokens, Explains, Tokens};

use crate::comment::comment_at;
use crate::duration::{signed_interval_at, time_of};
use crate::fault::SyntaxFault;
use crate::literal::{literal_at, number_at};
use crate::run::{begins_word, split_run};
use crate::symbol::Symbol;
use crate::token::{Kind, Token};
use crate::word::{elem_of, is_clean, word_kind};
use st_values::{Integer, Natural};
use std::alloc::Global;

/// The most bytes of a text.
pub const MAX_TEXT_BYTES: usize = 1 << 20;

/// Reads the rest of a typed literal, after its type and `#`.
#[tactic(auto, unfolding(crate::specs::Scanning::typed_at))]
fn typed_at<'a>(word: &[u8], text: &'a [u8]) -> Option<(Kind<'a>, &'a [u8])>
    ensures { seen result ≡ typed_at word.now text.now }
{
    let elem = elem_of(word)?;
    let (bits, rest) = literal_at(elem.class(), text)?;
    Some((Kind::Typed(elem, Integer::new(bits)), rest))
}

/// Reads the rest of a duration, after its `#`.
#[tactic(auto, unfolding(crate::specs::Scanning::duration_at))]
fn duration_at<'a>(text: &'a [u8]) -> Option<(Kind<'a>, &'a [u8])>
    ensures { seen result ≡ duration_at text.now }
{
    let (bits, rest) = signed_interval_at(text)?;
    Some((Kind::Duration(Integer::new(time_of(bits))), rest))
}

/// Reads the rest of a literal that begins with this word and `#`.
#[tactic(auto, unfolding(crate::specs::Scanning::prefixed_at))]
fn prefixed_at<'a>(word: &[u8], text: &'a [u8]) -> Option<(Kind<'a>, &'a [u8])>
    ensures { seen result ≡ prefixed_at word.now text.now }
{
    if word.eq_ignore_ascii_case(b"T") || word.eq_ignore_ascii_case(b"TIME") {
        duration_at(text)
    } else {
        typed_at(word, text)
    }
}

/// Reads a word at the start, or a literal that begins with one.
#[tactic(auto, unfolding(crate::specs::Scanning::word_at))]
fn word_at<'a>(text: &'a [u8]) -> Option<(Kind<'a>, &'a [u8])>
    ensures { seen result ≡ word_at text.now }
{
    let (prefix, rest) = split_run(text);
    if rest.starts_with(b"#") {
        prefixed_at(prefix, &rest[1..])
    } else if is_clean(prefix) {
        Some((word_kind(prefix), rest))
    } else {
        None
    }
}

/// Reads a symbol at the start: one of two bytes, else one of one.
#[tactic(auto, unfolding(crate::specs::Scanning::symbol_at))]
fn symbol_at<'a>(text: &'a [u8]) -> Option<(Kind<'a>, &'a [u8])>
    ensures { seen result ≡ symbol_at text.now }
{
    if let [first, second, rest @ ..] = text {
        if let Some(symbol) = Symbol::of_two(*first, *second) {
            return Some((Kind::Symbol(symbol), rest));
        }
    }
    let (first, rest) = text.split_first()?;
    Some((Kind::Symbol(Symbol::of_one(*first)?), rest))
}

/// Reads the token at the start.
#[tactic(auto, unfolding(crate::specs::Scanning::token_at))]
fn token_at<'a>(text: &'a [u8]) -> Option<(Kind<'a>, &'a [u8])>
    ensures { seen result ≡ token_at text.now }
{
    let [first, ..] = text else {
        return None;
    };
    if first.is_ascii_digit() {
        let (number, rest) = number_at(text)?;
        Some((Kind::Number(Natural::new(number)), rest))
    } else if begins_word(*first) {
        word_at(text)
    } else {
        symbol_at(text)
    }
}

/// Tests whether a byte is a blank (2.1.4).
fn is_blank(byte: u8) -> bool
    ensures { result ≡ is_blank byte }
{
    byte == b'\t' || byte == b'\n' || byte == b'\r' || byte == b' '
}

/// The tokens of a text that isn't too long.
fn scan<'a>(alloc: Global, text: &'a [u8]) -> Result<Vec<Token<'a>>, SyntaxFault>
    requires { length text.now ≤ 2 ^ 20 }
    ensures found { IfOk result (λ found. HasTokens 1 text.now found.items) }
    ensures fault { IfErr result (λ fault. Explains fault text.now) }
    ensures count { IfOk result (λ found. length found.items ≤ length text.now) }
{
    let mut found = Vec::new(alloc);
    let mut line = 1;
    let mut rest = text;
    while let [first, ..] = rest {
        if is_blank(*first) {
            line += u32::from(*first == b'\n');
            rest = &rest[1..];
        } else if rest.starts_with(b"(*") {
            let Some((next, remaining)) = comment_at(line, &rest[2..]) else {
                return Err(SyntaxFault::NoToken { line });
            };
            line = next;
            rest = remaining;
        } else {
            let Some((kind, remaining)) = token_at(rest) else {
                return Err(SyntaxFault::NoToken { line });
            };
            found.push(Token { kind, line })?;
            rest = remaining;
        }
    }
    Ok(found)
}

/// The tokens of a text, from its start on.
///
/// Between blanks and comments each token is the longest match: the longest prefix that has the form of a token. Case
/// isn't significant, and comments don't nest.
///
/// # Errors
/// - `TooLong` for a text of more than `MAX_TEXT_BYTES`;
/// - `NoToken` where nothing at some place has the form of a token, where a comment doesn't end, a word has two `_` in a
///   row or one at its end, or a letter, a digit or `_` stands directly after a literal;
/// - `Memory` where memory runs out.
pub fn tokens<'a>(alloc: Global, text: &'a [u8]) -> Result<Vec<Token<'a>>, SyntaxFault>
    ensures found { IfOk result (λ found. HasTokens 1 text.now found.items) }
    ensures fault { IfErr result (λ fault. Explains fault text.now) }
    ensures count { IfOk result (λ found. length found.items ≤ 2 ^ 20) }

    // A text that has tokens, and isn't too long, gets these, unless memory runs out.
    ensures only { (found : Tokens) → length text.now ≤ 2 ^ 20 → HasTokens 1 text.now found
        → MatchResult result (λ v. v.items ≡ found) (λ fault. fault ≡ SyntaxFault.Memory) }
    ensures long { 2 ^ 20 < length text.now → result ≡ Err SyntaxFault.TooLong }
{
    if text.len() > MAX_TEXT_BYTES {
        return Err(SyntaxFault::TooLong);
    }
    scan(alloc, text)
}

/// A text has at most one list of tokens.
pub fn tokens_are_one_list(text: &[u8])
    ensures { (a b : Tokens) → HasTokens 1 text.now a → HasTokens 1 text.now b → a ≡ b }
{}
