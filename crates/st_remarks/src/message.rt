//! What messages on a session begin with, and what several of them say.
use crate::words::Spot;
use st_messages::{Code, Span, place_after, push_heading, push_quoted, push_shown, push_source};
use st_values::{Value, is_value, put_value};
use std::alloc::{AllocError, Global};

/// Where a message on a session stands: the number of the line, the line, and the word of it that is meant.
#[derive(Clone, Copy)]
pub struct Spotted<'a> {
    pub number: u64,
    pub line: &'a [u8],
    pub spot: Spot<'a>,
}

/// Begins a message on a refusal: `session:3:6: error: O1: `.
pub fn begin(message: &mut String, place: &Spotted<'_>, cause: u8) -> Result<(), AllocError> {
    let (before, _) = place.line.split_at(place.spot.start.min(place.line.len()));
    let column = place_after(before).column;
    let number = place.number;
    write!(message, "session:{number}:{column}: error: O{cause}: ")
}

/// Ends the first line of a message, and puts the line of the session below it, with a caret under the word that is meant.
pub fn show_line(
    alloc: Global,
    message: &mut String,
    place: &Spotted<'_>,
) -> Result<(), AllocError> {
    message.push('\n')?;
    let span = Span {
        start: place.spot.start,
        end: place.spot.end,
    };
    push_source(alloc, message, place.line, span)
}

/// Puts a line that says more at the end of a message, with a name at its end.
pub fn push_naming(message: &mut String, text: &str, name: &[u8]) -> Result<(), AllocError> {
    message.push_str("  note: ")?;
    message.push_str(text)?;
    push_quoted(message, name)?;
    message.push('\n')
}

/// Puts a line at the end of a message that asks whether a name was meant.
pub fn push_question(message: &mut String, text: &str, name: &[u8]) -> Result<(), AllocError> {
    message.push_str("  help: ")?;
    message.push_str(text)?;
    push_quoted(message, name)?;
    message.push_str("?\n")
}

/// Puts the text of a value at the end of a message.
pub fn push_value(alloc: Global, message: &mut String, value: Value) -> Result<(), AllocError> {
    let mut text = Vec::new(alloc);
    if is_value(value) {
        put_value(value, &mut text)?;
    }
    push_shown(message, text.as_slice())
}

/// Says how many more there are than were named.
pub fn push_rest(message: &mut String, count: u32, named: u32) -> Result<(), AllocError> {
    if count > named {
        write!(message, " and {} more", count - named)
    } else {
        Ok(())
    }
}
