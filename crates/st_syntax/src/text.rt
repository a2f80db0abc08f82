//! The units of a text.
ghost use Rattle.std.specs.Prelude.{◌≡◌, ◌<◌, ◌≤◌, ◌^◌, ℕ, [], List as Items, length, IfErr, IfOk, MatchResult};
ghost use Rattle.st_syntax.specs.Lengths.{IsShort};
ghost use Rattle.st_parser.specs.Grammar.Tokens.{numbered};
ghost use Rattle.st_parser.specs.Names as names;
ghost use Rattle.st_parser.specs.Reader.Parsers.{Reads};
ghost use Rattle.st_syntax.specs.Grammar.Texts.{Explains, IsTextOf};
ghost use Rattle.st_syntax.specs.Reader.Units.{whole};
ghost use Rattle.st_syntax.specs.Stops.{NamesLine, last_line};

use crate::unit::units;
use st_parser::{Cursor, ReadFault};
use st_tokens::{SyntaxFault, Token, tokens};
use st_tree::List;
use st_tree::tree::Unit;
use std::alloc::Global;

/// The line of the last byte of a text. A line feed belongs to the line that it ends.
fn last_line(text: &[u8]) -> u32
    requires { length text.now ≤ 2 ^ 20 }
    ensures { result ≡ last_line text.now }
{
    let mut line: u32 = 1;
    let before = &text[..text.len().saturating_sub(1)];
    for byte in before {
        line += u32::from(*byte == b'\n');
    }
    line
}

/// The units that these tokens are, up to the last one.
///
/// # Errors
/// `NotInGrammar` with the place of the first token after which no accepted text goes on, or with none where the tokens end too early;
/// or `TooDeep` with the place of a token that the grammar allows and that opens a 65th level, where this comes first. `Memory` where
/// memory runs out before.
#[tactic(auto, unfolding(crate::specs::Reader::Units::whole))]
pub fn read_units<'a>(alloc: Global, tokens: &'a [Token<'a>]) -> Result<List<Unit>, ReadFault>
    requires { length tokens.now < 2 ^ 32 }
    ensures { Reads (whole (numbered 0 tokens.now)) result [] }
{
    let mut cursor = Cursor::new(tokens);
    let found = units(alloc, &mut cursor)?;
    match cursor.peek() {
        None => Ok(found),
        Some(_) => Err(cursor.unexpected()),
    }
}

/// The units of a text, in order.
///
/// # Errors
/// `TooLong` for a text of more than 2^20 bytes, else `NoToken` where it has no tokens. Where its tokens aren't in the
/// grammar, `NotInGrammar` with the line of the first token after which no accepted text goes on, or with the line of
/// the last byte where the text ends too early; or `TooDeep` with the line of a token that the grammar allows and that
/// opens a 65th level, where this comes first. `Memory` where memory runs out before.
pub fn parse(alloc: Global, text: &[u8]) -> Result<Vec<Unit>, SyntaxFault>
    ensures found { IfOk result (λ found. IsTextOf text.now found.items) }
    ensures fault { IfErr result (λ fault. Explains fault text.now) }
    ensures stops { IfErr result (λ fault. NamesLine fault text.now) }
    ensures short { IfOk result (λ found. IsShort found.items) }

    // A text of units that isn't too long is read as these units, unless memory runs out.
    ensures only { (us : Items names.Unit) → length text.now ≤ 2 ^ 20 → IsTextOf text.now us
        → MatchResult result (λ found. found.items ≡ us) (λ fault. fault ≡ SyntaxFault.Memory) }
    ensures long { 2 ^ 20 < length text.now → result ≡ Err SyntaxFault.TooLong }
{
    let tokens = tokens(alloc, text)?;
    match read_units(alloc, tokens.as_slice()) {
        Ok(found) => Ok(found.items),
        Err(fault) => Err(fault.in_text(last_line(text))),
    }
}

/// No text is two lists of units.
pub fn one_reading()
    ensures { (text : List ℕ) (us vs : Items names.Unit) → IsTextOf text us → IsTextOf text vs
        → us ≡ vs }
{}
