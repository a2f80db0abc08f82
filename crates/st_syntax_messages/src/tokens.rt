//! What is said of a token that the grammar doesn't have where it stands.

ghost use Rattle.st_messages.specs.Sayings.{AreWordsFor};
ghost use Rattle.std.specs.List.{list_any};
ghost use Rattle.std.specs.Prelude.{◌≡◌, IfOk, option_map};
ghost use Rattle.st_messages.specs.Rows.{one_name};
ghost use Rattle.st_syntax_messages.specs.Open.{closes};
ghost use Rattle.st_syntax_messages.specs.Rows.{rows};
ghost use Rattle.st_syntax_messages.specs.Causes.{AreWordsOfEnd, AreWordsOfPlace, AreWordsOfRow, AreWordsOfToken, IsFirstElseIf, Lacks, early_cause, elsewhere_cause, end_cause, late_cause, opened_at, stands_for_name, tells_unclosed, text_before, texts, unclosed_cause, word_row, written_end};
ghost use Rattle.st_syntax_messages.specs.Spots.{spelling_at, spot_at};

use crate::cause::Cause;
use crate::kinds::{
    begins_outside, begins_statement, is_comma, is_else, is_if, is_plain, is_reserved,
    may_follow_semicolon, names_before, wants_name,
};
use crate::open::{Group, Open, closed_by, closes, declares, last_of, open_before};
use crate::probe::{allowed, is_allowed};
use crate::reading::Reading;
use crate::rows::words_for;
use crate::spot::{Spot, spot_at};
use crate::token_cause::{place_cause, symbol_cause};
use st_messages::{Row, Saying, Slot, Words, left_out, other_word, words_of};
use st_tokens::Kind;
use std::alloc::{AllocError, Global};

/// What is said of a token that the grammar doesn't have where it stands.
pub fn explain_token(
    alloc: Global,
    reading: &Reading<'_>,
    number: usize,
) -> Result<Words, AllocError>
    ensures { IfOk result (AreWordsOfToken reading.now.text.now reading.now.lexemes.now
        reading.now.tokens.now number) }
{
    let spot = spot_at(reading, number);
    if let Some(cause) = symbol_cause(spot) {
        return words_for(alloc, cause, &[Slot::Name(reading.spelling(number))]);
    }
    match word_row(reading, number, spot) {
        Some(row) => words_of_row(alloc, row),
        None => explain_place(alloc, reading, number, spot),
    }
}

/// What is said of a text that ends too early.
pub fn explain_end(alloc: Global, reading: &Reading<'_>) -> Result<Words, AllocError>
    ensures { IfOk result (AreWordsOfEnd reading.now.text.now reading.now.lexemes.now
        reading.now.tokens.now) }
{
    let number = reading.tokens.len();
    let opened = open_before(alloc, reading.tokens, number)?;
    let last = last_of(&opened);
    let else_if = else_if_from(reading, opened_at(last));
    say(
        alloc,
        reading,
        number,
        end_cause(last, else_if),
        last,
        else_if,
        "",
    )
}

/// What is said of a token that opens one level too many.
pub fn explain_depth(
    alloc: Global,
    reading: &Reading<'_>,
    number: usize,
) -> Result<Words, AllocError>
    ensures { IfOk result (AreWordsFor rows Cause.Depth (one_name
        (spelling_at reading.now.text.now reading.now.lexemes.now number))) }
{
    words_for(alloc, Cause::Depth, &[Slot::Name(reading.spelling(number))])
}

// ---- words that are left out, or are of other languages

/// The row of a word that this profile leaves out, or of one before the token that another language has.
fn word_row(reading: &Reading<'_>, number: usize, spot: Spot) -> Option<Row>
    ensures { option_map (λ row. (row.0.now, row.1.now, row.2.now)) result ≡
        word_row reading.now.text.now reading.now.lexemes.now number spot }
{
    if let Some(row) = left_out(reading.spelling(number)) {
        Some(row)
    } else if spot.before.is_word() {
        other_word(reading.spelling(number.saturating_sub(1)))
    } else {
        None
    }
}

/// What is said of a word, in the words of its row.
fn words_of_row(alloc: Global, row: Row) -> Result<Words, AllocError>
    ensures { IfOk result (AreWordsOfRow (row.entry.0.now, row.entry.1.now, row.entry.2.now)) }
{
    let saying = Saying {
        title: row.1,
        below: row.2,
    };
    words_of(alloc, saying, &[Slot::Name(row.0)])
}

// ---- what is told by the place

/// What is said of a token by the place where it stands.
fn explain_place(
    alloc: Global,
    reading: &Reading<'_>,
    number: usize,
    spot: Spot,
) -> Result<Words, AllocError>
    ensures { IfOk result (AreWordsOfPlace reading.now.text.now reading.now.lexemes.now
        reading.now.tokens.now number spot) }
{
    let opened = open_before(alloc, reading.tokens, number)?;
    let last = last_of(&opened);
    let else_if = else_if_from(reading, opened_at(last));
    if let Some(cause) = early_cause(reading, number, spot, last) {
        return say(alloc, reading, number, cause, last, else_if, "");
    }
    if lacks_semicolon(alloc, reading, number)? {
        return say(alloc, reading, number, Cause::Semicolon, last, else_if, "");
    }
    if let Some(cause) = late_cause(reading, number, &opened, else_if) {
        return say(alloc, reading, number, cause, last, else_if, "");
    }
    let named = allowed(alloc, text_before(reading, number))?;
    let named = named.as_str();
    say(
        alloc,
        reading,
        number,
        elsewhere_cause(named),
        last,
        else_if,
        named,
    )
}

/// Why a token is out of place of which nothing else tells, where this could stand in its place.
fn elsewhere_cause(allowed: &str) -> Cause
    ensures { result ≡ elsewhere_cause allowed.now }
{
    if allowed.is_empty() {
        Cause::Elsewhere
    } else {
        Cause::ElsewhereKnown
    }
}

/// What is said of a cause at the token of this number, where this is open last, this is the line of the first `ELSE IF` in it, and
/// this could stand here.
fn say<'x>(
    alloc: Global,
    reading: &Reading<'x>,
    number: usize,
    cause: Cause,
    last: Option<Open>,
    else_if: Option<u32>,
    allowed: &'x str,
) -> Result<Words, AllocError>
    ensures { IfOk result (AreWordsFor rows cause (texts reading.now.text.now
        reading.now.lexemes.now reading.now.tokens.now number last else_if allowed.now)) }
{
    let before = number.saturating_sub(1);
    let opened = opened_at(last);
    words_for(
        alloc,
        cause,
        &[
            Slot::Name(reading.spelling(number)),
            Slot::Name(reading.spelling(before)),
            Slot::Number(u64::from(reading.line(before))),
            Slot::Name(reading.spelling(opened)),
            Slot::Number(u64::from(reading.line(opened))),
            Slot::Words(end_of(last)),
            Slot::Number(u64::from(else_if.unwrap_or(0))),
            Slot::Words(allowed),
            Slot::Bytes(reading.spelling(number)),
        ],
    )
}

/// The number of the first token of what is open last.
fn opened_at(last: Option<Open>) -> usize
    ensures { result ≡ opened_at last }
{
    match last {
        Some(last) => last.number,
        None => 0,
    }
}

/// How the end of what is open last is written.
fn end_of(last: Option<Open>) -> &'static str
    ensures { result.now ≡ written_end last }
{
    match last {
        Some(last) => last.group.end(),
        None => "",
    }
}

// ---- declarations, and reserved words as names

/// Why a token is out of place, by what stands around it.
fn early_cause(
    reading: &Reading<'_>,
    number: usize,
    spot: Spot,
    last: Option<Open>,
) -> Option<Cause>
    ensures { result ≡ early_cause reading.now.tokens.now number spot last }
{
    if let Some(cause) = place_cause(spot, declares(last)) {
        return Some(cause);
    }
    if declares(last) && spot.before.is_word() && spot.here.is_assign() {
        return Some(Cause::Statement);
    }
    if stands_for_name(reading, number, last) {
        return Some(Cause::ReservedName);
    }
    None
}

/// Whether a reserved word stands where a name is due.
fn stands_for_name(reading: &Reading<'_>, number: usize, last: Option<Open>) -> bool
    ensures { result ≡ stands_for_name reading.now.tokens.now number last }
{
    let kind = reading.kind(number);
    let behind = reading.kind_behind(number);
    let is_due = is_plain(kind) && wants_name(reading.kind_before(number));
    is_reserved(kind) && (is_due || names_before(behind) || (declares(last) && is_comma(behind)))
}

// ---- what is missing before the token

/// Whether a `;` is missing before a token.
fn lacks_semicolon(alloc: Global, reading: &Reading<'_>, number: usize) -> Result<bool, AllocError>
    ensures { IfOk result (Lacks reading.now.text.now reading.now.lexemes.now
        reading.now.tokens.now number) }
{
    let begins = begins_statement(reading.kind_before(number));
    if number == 0 || begins || !may_follow_semicolon(reading.kind(number)) {
        return Ok(false);
    }
    is_allowed(alloc, text_before(reading, number), b";")
}

/// The text up to the end of the token before the one of this number.
fn text_before<'a>(reading: &Reading<'a>, number: usize) -> &'a [u8]
    ensures { result.now ≡ text_before reading.now.text.now reading.now.lexemes.now number }
{
    match reading.lexeme_before(number) {
        Some(before) => reading.text.get(..before.end).unwrap_or(b""),
        None => b"",
    }
}

// ---- what is open

/// Why a token is out of place that stands outside of all units, or that can't stand in what is open last.
fn late_cause(
    reading: &Reading<'_>,
    number: usize,
    opened: &[Open],
    else_if: Option<u32>,
) -> Option<Cause>
    ensures { result ≡ late_cause reading.now.tokens.now number opened.now else_if }
{
    let kind = reading.kind(number)?;
    let Some(last) = last_of(opened) else {
        return Some(Cause::Outside);
    };
    if closes(kind, last.group) {
        return None;
    }
    let is_end = closed_by(kind).is_some();
    if is_end && !is_open(kind, opened) {
        return Some(Cause::Unopened);
    }
    if (is_end || begins_outside(Some(kind))) && tells_unclosed(kind, last.group) {
        Some(unclosed_cause(last.group, else_if))
    } else {
        None
    }
}

/// Whether what a token closes is open.
fn is_open(kind: &Kind<'_>, opened: &[Open]) -> bool
    ensures { result ≡ list_any (λ it. closes kind.now it.group) opened.now }
{
    opened.iter().any(|it| closes(kind, it.group))
}

/// Whether a token tells that a group isn't closed: a symbol tells it of parentheses and brackets alone.
fn tells_unclosed(kind: &Kind<'_>, group: Group) -> bool
    ensures { result ≡ tells_unclosed kind.now group }
{
    match kind {
        Kind::Symbol(_) => matches!(group, Group::Parenthesis | Group::Bracket),
        _ => true,
    }
}

/// Why a token can't stand in a group that isn't closed.
fn unclosed_cause(group: Group, else_if: Option<u32>) -> Cause
    ensures { result ≡ unclosed_cause group else_if }
{
    match (group, else_if) {
        (Group::If, Some(_)) => Cause::UnclosedElseIf,
        _ => Cause::Unclosed,
    }
}

/// Why a text ends too early, where this is open last.
fn end_cause(last: Option<Open>, else_if: Option<u32>) -> Cause
    ensures { result ≡ end_cause last else_if }
{
    match last {
        None => Cause::EndEarly,
        Some(last) => match unclosed_cause(last.group, else_if) {
            Cause::UnclosedElseIf => Cause::EndElseIf,
            _ => Cause::EndUnclosed,
        },
    }
}

/// The line of the first `ELSE IF` from the token of this number on.
fn else_if_from(reading: &Reading<'_>, number: usize) -> Option<u32>
    ensures { IsFirstElseIf reading.now.tokens.now number result }
{
    for at in number..reading.tokens.len() {
        if is_if(reading.kind(at)) && is_else(reading.kind_before(at)) {
            return Some(reading.line(at));
        }
    }
    None
}
