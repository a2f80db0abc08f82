//! A line of a text, with a caret under what is meant.
ghost use Rattle.std.specs.Prelude.{◌≡◌, ◌≤◌, length};

use crate::place::last_line;
use crate::shown::push_shown;
use std::alloc::{AllocError, Global};

/// The most bytes of a line that are shown.
const MAX_SHOWN_BYTES: usize = 160;

/// How many bytes are shown before what is meant, where a line is longer than that.
const BYTES_BEFORE: usize = 60;

/// Some bytes of a text that stand together.
#[derive(Clone, Copy, Debug, PartialEq, Eq)]
pub struct Span {
    /// How many bytes stand before them.
    pub start: usize,
    /// How many bytes stand before what follows them.
    pub end: usize,
}

/// A part of a line, as it is shown.
#[derive(Clone, Copy)]
struct Part<'a> {
    /// Whether more of the line stands before it.
    is_cut: bool,
    /// What stands before what is meant.
    before: &'a [u8],
    /// What is meant.
    meant: &'a [u8],
    /// What follows it.
    after: &'a [u8],
    /// Whether more of the line follows.
    goes_on: bool,
}

/// Puts the line of a text in which the span begins at the end of a message, and below it carets under the span, as far as it stands on
/// that line: at least one. Of a long line only a part around the span is shown.
pub fn push_source(
    alloc: Global,
    message: &mut String,
    text: &[u8],
    span: Span,
) -> Result<(), AllocError> {
    let (before, rest) = text.split_at(span.start.min(text.len()));
    let line = last_line(before);
    let rest = first_line(rest);
    let len = span.end.saturating_sub(span.start).min(rest.len());
    let (meant, after) = rest.split_at(len);
    push_part(alloc, message, part_of(line, meant, after))
}

/// Puts the line with this number, from 1, at the end of a message. Of a long line only its beginning is shown.
pub fn push_line(message: &mut String, text: &[u8], number: usize) -> Result<(), AllocError> {
    let found = text
        .split(|byte| *byte == b'\n')
        .nth(number.saturating_sub(1));
    let line = without_return(found.unwrap_or(b""));
    message.push_str("    ")?;
    push_shown(message, beginning_of(line, MAX_SHOWN_BYTES))?;
    message.push_str(if line.len() > MAX_SHOWN_BYTES {
        " ...\n"
    } else {
        "\n"
    })
}

/// What stands before the first line feed.
fn first_line(text: &[u8]) -> &[u8] {
    match text.iter().position(|byte| *byte == b'\n') {
        Some(at) => without_return(&text[..at]),
        None => text,
    }
}

/// A line without a carriage return at its end.
fn without_return(line: &[u8]) -> &[u8] {
    match line {
        [start @ .., b'\r'] => start,
        _ => line,
    }
}

/// So many bytes of a line from its beginning, or fewer, so that no character of UTF-8 is cut.
fn beginning_of(line: &[u8], most: usize) -> &[u8] {
    if line.len() <= most {
        return line;
    }
    let mut len = most;
    while len > 0 && continues(line[len]) {
        len -= 1;
    }
    &line[..len]
}

/// So many bytes of a line up to its end, or fewer, so that no character of UTF-8 is cut.
fn end_of(line: &[u8], most: usize) -> &[u8] {
    if line.len() <= most {
        return line;
    }
    let mut start = line.len() - most;
    while start < line.len() && continues(line[start]) {
        start += 1;
    }
    &line[start..]
}

/// Whether a byte continues a character of UTF-8.
fn continues(byte: u8) -> bool {
    (0x80..=0xBF).contains(&byte)
}

/// What is shown of a line, of which these are the parts before what is meant, what is meant, and behind it.
fn part_of<'a>(before: &'a [u8], meant: &'a [u8], after: &'a [u8]) -> Part<'a> {
    let all = before
        .len()
        .saturating_add(meant.len())
        .saturating_add(after.len());
    if all <= MAX_SHOWN_BYTES {
        return Part {
            is_cut: false,
            before,
            meant,
            after,
            goes_on: false,
        };
    }
    let start = end_of(before, BYTES_BEFORE);
    let middle = beginning_of(meant, MAX_SHOWN_BYTES - BYTES_BEFORE);
    let left = (MAX_SHOWN_BYTES - BYTES_BEFORE).saturating_sub(middle.len());
    let end = if middle.len() < meant.len() {
        b""
    } else {
        beginning_of(after, left)
    };
    Part {
        is_cut: start.len() < before.len(),
        before: start,
        meant: middle,
        after: end,
        goes_on: middle.len() < meant.len() || end.len() < after.len(),
    }
}

/// Puts a part of a line at the end of a message, and carets below what is meant.
fn push_part(alloc: Global, message: &mut String, part: Part<'_>) -> Result<(), AllocError> {
    message.push_str(if part.is_cut { "    ... " } else { "    " })?;
    push_shown(message, part.before)?;
    push_shown(message, part.meant)?;
    push_shown(message, part.after)?;
    message.push_str(if part.goes_on { " ...\n" } else { "\n" })?;
    message.push_str(if part.is_cut { "        " } else { "    " })?;
    push_below(alloc, message, part.before, ' ')?;
    push_below(alloc, message, part.meant, '^')?;
    message.push_str(if part.meant.is_empty() { "^\n" } else { "\n" })
}

/// Puts this mark at the end of a message for each character that is shown of some bytes, and a tab for a tab.
fn push_below(
    alloc: Global,
    message: &mut String,
    bytes: &[u8],
    mark: char,
) -> Result<(), AllocError> {
    let mut shown = String::new(alloc);
    push_shown(&mut shown, bytes)?;
    for character in shown.as_str().chars() {
        message.push(if character == '\t' { '\t' } else { mark })?;
    }
    Ok(())
}
