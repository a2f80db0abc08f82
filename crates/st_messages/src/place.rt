//! Lines and columns.
ghost use Rattle.std.specs.Prelude.{◌≡◌, ◌≤◌, drop, length};
ghost use Rattle.st_messages.specs.Places.{EndsLine, HasLine, IsLine, character_begin, column_after, column_in, last_line, line_after, line_end};

use crate::source::Span;

/// Where something stands in a text.
#[derive(Clone, Copy, Debug, PartialEq, Eq)]
pub struct Place {
    /// Its line. The first is 1.
    pub line: usize,
    /// Its column, in characters. The first is 1.
    pub column: usize,
}

/// Where what follows these bytes of a text stands.
pub fn place_after(before: &[u8]) -> Place
    ensures line { result.line ≡ line_after before.now }
    ensures column { result.column ≡ column_after before.now }
{
    Place {
        line: line_after(before),
        column: column_in(last_line(before)),
    }
}

/// The line of what follows these bytes, from 1.
fn line_after(before: &[u8]) -> usize
    ensures { result ≡ line_after before.now }
{
    let mut line: usize = 1;
    for byte in before {
        line += line_end(*byte);
    }
    line
}

/// A line ends after its line feed.
fn line_end(byte: u8) -> usize
    ensures value { result ≡ line_end byte }
    ensures small { result ≤ 1 }
{
    usize::from(byte == b'\n')
}

/// What stands on a line, without its line feed. Where no line has this number, it is the nearest one.
pub fn line_span(text: &[u8], line: usize) -> Span
    ensures within { result.end ≤ length text.now }
    ensures order { result.start ≤ result.end }
    ensures is { HasLine text.now line → IsLine text.now line result.start result.end }
    ensures ends { EndsLine (drop result.end text.now) }
{
    let mut start: usize = 0;
    let mut current: usize = 1;
    for (at, byte) in text.iter().enumerate() {
        if *byte == b'\n' {
            if current >= line {
                return Span { start, end: at };
            }
            start = at + 1;
            current += 1;
        }
    }
    Span {
        start,
        end: text.len(),
    }
}

/// What follows the last line feed.
pub fn last_line(before: &[u8]) -> &[u8]
    ensures { result.now ≡ last_line before.now }
{
    let mut line = before;
    let mut rest = before;
    while let [first, others @ ..] = rest {
        if *first == b'\n' {
            line = others;
        }
        rest = others;
    }
    line
}

/// One more than the characters of a line.
fn column_in(line: &[u8]) -> usize
    ensures { result ≡ column_in line.now }
{
    let mut column: usize = 1;
    for byte in line {
        column += character_begin(*byte);
    }
    column
}

/// A character of UTF-8 begins with the byte that doesn't continue one.
fn character_begin(byte: u8) -> usize
    ensures value { result ≡ character_begin byte }
    ensures small { result ≤ 1 }
{
    if (0x80..=0xBF).contains(&byte) { 0 } else { 1 }
}
