//! The lines of a message.
ghost use Rattle.std.specs.Prelude.{◌≡◌, ◌++◌, [], OnOk};
ghost use Rattle.std.specs.String.{string_bytes};
ghost use Rattle.st_messages.specs.Drafts.{quoted};
ghost use Rattle.st_messages.specs.Headings.{IsTold, code_text, heading, help_line, note_line, place_text};
ghost use Rattle.st_messages.specs.Shown.{shown};

use crate::place::{Place, place_after};
use crate::shown::push_shown;
use crate::source::{Span, push_source};
use std::alloc::{AllocError, Global};

/// What is said of a fault: what is wrong, and lines that say more.
#[derive(Drop)]
pub struct Words {
    /// What is wrong, in one line.
    pub title: String,
    /// The lines below: notes and help, each with its line feed.
    pub more: String,
}

impl Words {
    /// Nothing is said yet.
    pub fn new(alloc: Global) -> Words
        ensures title { string_bytes result.title ≡ [] }
        ensures more { string_bytes result.more ≡ [] }
    {
        Words {
            title: String::new(alloc),
            more: String::new(alloc),
        }
    }

    /// Says more in a line of its own.
    pub fn note(&mut self, note: &str) -> Result<(), AllocError>
        ensures title { self.new.title ≡ self.old.title }
        ensures more { OnOk result (string_bytes self.new.more ≡
            string_bytes self.old.more ++ note_line note.now) }
    {
        push_note(&mut self.more, note)
    }

    /// Says what to do, in a line of its own.
    pub fn help(&mut self, help: &str) -> Result<(), AllocError>
        ensures title { self.new.title ≡ self.old.title }
        ensures more { OnOk result (string_bytes self.new.more ≡
            string_bytes self.old.more ++ help_line help.now) }
    {
        push_help(&mut self.more, help)
    }
}

/// Puts the whole message on a fault at the end of a message: the file, the line and the column where the span begins, the number and
/// what is wrong; the line with a caret; and what is said below.
pub fn push_diagnosis(
    alloc: Global,
    message: &mut String,
    file: &str,
    text: &[u8],
    span: Span,
    code: Code,
    words: &Words,
) -> Result<(), AllocError>
    ensures told { OnOk result (IsTold (string_bytes message.old) (string_bytes message.new)
        file.now text.now span.start code (string_bytes words.now.title)) }
{
    let below = text_below(alloc, text, span, words)?;
    let (before, _) = text.split_at(span.start.min(text.len()));
    push_heading(message, file, place_after(before), code)?;
    let title = words.title.as_str();
    write!(message, "{title}\n{below}")
}

/// What stands below the first line of a message: the line with a caret, and what else is said.
fn text_below(alloc: Global, text: &[u8], span: Span, words: &Words) -> Result<String, AllocError> {
    let mut below = String::new(alloc);
    push_source(alloc, &mut below, text, span)?;
    below.push_str(words.more.as_str())?;
    Ok(below)
}

/// Puts bytes at the end of a message as they can be shown, between two backticks.
pub fn push_quoted(message: &mut String, bytes: &[u8]) -> Result<(), AllocError>
    ensures { OnOk result (string_bytes message.new ≡
        string_bytes message.old ++ quoted (shown bytes.now)) }
{
    message.push('`')?;
    push_shown(message, bytes)?;
    message.push('`')
}

/// A number that a refusal or a fault has, behind the letter of its family.
#[derive(Clone, Copy, Debug, PartialEq, Eq)]
pub struct Code {
    /// The letter of its family.
    pub letter: char,
    /// The number.
    pub number: u8,
}

/// Puts a number behind its letter at the end of a message.
pub fn push_code(message: &mut String, code: Code) -> Result<(), AllocError>
    ensures { OnOk result (string_bytes message.new ≡ string_bytes message.old ++ code_text code) }
{
    let number = code.number;
    message.push(code.letter)?;
    write!(message, "{number}")
}

/// Puts `FILE:LINE:COLUMN: error: C4: ` at the end of a message, where what is wrong follows.
pub fn push_heading(
    message: &mut String,
    file: &str,
    place: Place,
    code: Code,
) -> Result<(), AllocError>
    ensures { OnOk result (string_bytes message.new ≡
        string_bytes message.old ++ heading file.now place code) }
{
    push_place(message, file, place)?;
    push_code(message, code)?;
    message.push_str(": ")
}

/// Puts `FILE:LINE:COLUMN: error: ` at the end of a message, as editors find it.
fn push_place(message: &mut String, file: &str, place: Place) -> Result<(), AllocError>
    ensures { OnOk result (string_bytes message.new ≡
        string_bytes message.old ++ place_text file.now place) }
{
    let line = place.line;
    let column = place.column;
    write!(message, "{file}:{line}:{column}: error: ")
}

/// Puts a line that says more at the end of a message.
pub fn push_note(message: &mut String, note: &str) -> Result<(), AllocError>
    ensures { OnOk result (string_bytes message.new ≡
        string_bytes message.old ++ note_line note.now) }
{
    write!(message, "  note: {note}\n")
}

/// Puts a line that says what to do at the end of a message.
pub fn push_help(message: &mut String, help: &str) -> Result<(), AllocError>
    ensures { OnOk result (string_bytes message.new ≡
        string_bytes message.old ++ help_line help.now) }
{
    write!(message, "  help: {help}\n")
}
