//! The lexemes of a text: what stands between blanks and comments.
ghost use Rattle.std.specs.Prelude.{◌≡◌, ◌≤◌, All, IfOk, length};
ghost use Rattle.st_messages.specs.Lexemes.{AreLexemes, ArePieces, IsWithin, lexeme};
ghost use Rattle.st_tokens.specs.Characters.{is_blank};
ghost use Rattle.st_tokens.specs.Text.{HasTokens, Tokens};

use crate::skip::{after_comment, after_token};
use std::alloc::{AllocError, Global};

/// A token, or what begins none: a character of no token, a word or a literal that isn't well formed, or a comment that isn't closed,
/// which reaches up to the end of the text.
#[derive(Clone, Copy, Debug, PartialEq, Eq)]
pub struct Lexeme {
    /// How many bytes stand before it.
    pub start: usize,
    /// How many bytes stand before what follows it.
    pub end: usize,
}

/// Whether a byte is a blank.
fn is_blank(byte: u8) -> bool
    ensures { result ≡ is_blank byte }
{
    byte == b'\t' || byte == b'\n' || byte == b'\r' || byte == b' '
}

/// The lexemes of a text, in order. Of a text that has tokens, these are its tokens.
pub fn lexemes(alloc: Global, text: &[u8]) -> Result<Vec<Lexeme>, AllocError>
    ensures within { IfOk result (λ found. All (IsWithin text.now) found.items) }
    ensures pieces { IfOk result (λ found. ArePieces text.now found.items) }
    ensures tokens { IfOk result (λ found. (ts : Tokens) → HasTokens 1 text.now ts
        → AreLexemes text.now ts found.items) }
{
    let mut found = Vec::new(alloc);
    let mut rest = text;
    while let [first, ..] = rest {
        if is_blank(*first) {
            rest = &rest[1..];
        } else if rest.starts_with(b"(*") {
            let Some(remaining) = after_comment(&rest[2..]) else {
                found.push(between(text, rest, b""))?;
                return Ok(found);
            };
            rest = remaining;
        } else {
            let remaining = after_token(rest);
            found.push(between(text, rest, remaining))?;
            rest = remaining;
        }
    }
    Ok(found)
}

/// What stands between what is left of a text and what is left later.
fn between(text: &[u8], rest: &[u8], later: &[u8]) -> Lexeme
    requires rest { length rest.now ≤ length text.now }
    requires later { length later.now ≤ length text.now }
    ensures { result ≡ lexeme (length text.now) rest.now later.now }
{
    Lexeme {
        start: text.len() - rest.len(),
        end: text.len() - later.len(),
    }
}
