//! What the grammar allows at a place: each candidate is put there, and the text up to it is read.

ghost use Rattle.std.specs.Prelude.{IfOk};
ghost use Rattle.st_syntax_messages.specs.Probes.{Allows};

use st_messages::place_after;
use st_syntax::parse;
use st_tokens::SyntaxFault;
use std::alloc::{AllocError, Global};

/// The most bytes of a text before a place at which many candidates are tried.
const MAX_PROBED_BYTES: usize = 131_072;

/// The most candidates that are named.
const MAX_NAMED: usize = 8;

/// What may stand somewhere: how it is called, and an example of it.
type Candidate = (&'static str, &'static [u8]);

/// The candidates, the most telling ones first.
static CANDIDATES: [Candidate; 40] = [
    ("`;`", b";"),
    ("`:=`", b":="),
    ("`:`", b":"),
    ("`)`", b")"),
    ("`]`", b"]"),
    ("`,`", b","),
    ("`..`", b".."),
    ("`THEN`", b"THEN"),
    ("`DO`", b"DO"),
    ("`OF`", b"OF"),
    ("`TO`", b"TO"),
    ("`FROM`", b"FROM"),
    ("`END_IF`", b"END_IF"),
    ("`END_CASE`", b"END_CASE"),
    ("`END_FOR`", b"END_FOR"),
    ("`END_WHILE`", b"END_WHILE"),
    ("`UNTIL`", b"UNTIL"),
    ("`END_REPEAT`", b"END_REPEAT"),
    ("`END_VAR`", b"END_VAR"),
    ("`END_STRUCT`", b"END_STRUCT"),
    ("`END_TYPE`", b"END_TYPE"),
    ("`END_STEP`", b"END_STEP"),
    ("`END_TRANSITION`", b"END_TRANSITION"),
    ("`END_ACTION`", b"END_ACTION"),
    ("`END_FUNCTION`", b"END_FUNCTION"),
    ("`END_FUNCTION_BLOCK`", b"END_FUNCTION_BLOCK"),
    ("`END_PROGRAM`", b"END_PROGRAM"),
    ("a name", b"x"),
    ("a type", b"INT"),
    ("a number", b"1"),
    ("a statement", b"IF"),
    ("`VAR`", b"VAR"),
    ("`STEP`", b"STEP"),
    ("`PROGRAM`", b"PROGRAM"),
    ("`TYPE`", b"TYPE"),
    ("`(`", b"("),
    ("`[`", b"["),
    ("`.`", b"."),
    ("`=>`", b"=>"),
    ("an operator", b"="),
];

/// Whether the grammar allows a token behind the beginning of a text.
pub fn is_allowed(alloc: Global, before: &[u8], token: &[u8]) -> Result<bool, AllocError>
    ensures { IfOk result (Allows before.now token.now) }
{
    let mut text = Vec::from_slice(alloc, before)?;
    text.extend_from_slice(b"\n")?;
    let line = place_after(text.as_slice()).line;
    text.extend_from_slice(token)?;
    text.extend_from_slice(b"\n ")?;
    match parse(alloc, text.as_slice()) {
        Ok(_units) => Ok(true),
        Err(SyntaxFault::Memory) => Err(AllocError),
        Err(SyntaxFault::NotInGrammar { line: refused }) => Ok(refused as usize > line),
        Err(_) => Ok(false),
    }
}

/// What the grammar allows behind the beginning of a text, at most eight, where the text isn't too long to try each.
pub fn allowed(alloc: Global, before: &[u8]) -> Result<String, AllocError> {
    let mut named = String::new(alloc);
    if before.len() > MAX_PROBED_BYTES {
        return Ok(named);
    }
    let mut count: usize = 0;
    for candidate in &CANDIDATES {
        if count < MAX_NAMED && is_allowed(alloc, before, candidate.1)? {
            named.push_str(if count == 0 { "" } else { ", " })?;
            named.push_str(candidate.0)?;
            count = count.saturating_add(1);
        }
    }
    Ok(named)
}
