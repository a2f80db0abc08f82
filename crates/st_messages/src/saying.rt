//! What is said of a cause, as a row of a table has it.
ghost use Rattle.std.specs.Prelude.{◌≡◌, ◌++◌, ◌<◌, IfOk, IfSome, OnOk, Some, length, map};
ghost use Rattle.std.specs.String.{string_bytes};
ghost use Rattle.st_messages.specs.Rows.{filled, hole_number, piece, slot_text, slot_texts};
ghost use Rattle.st_messages.specs.Sayings.{AreWordsOf, SaysAt};

use crate::draft::Draft;
use crate::form::{Words, push_quoted};
use crate::shown::push_shown;
use std::alloc::{AllocError, Global};

/// What a row says in one of its places.
#[derive(Clone, Copy)]
pub enum Slot<'a> {
    /// A name, as it is shown between two backticks.
    Name(&'a [u8]),
    /// Bytes, as they are shown.
    Bytes(&'a [u8]),
    /// A number, in decimal digits.
    Number(u64),
    /// Words, as they are.
    Words(&'a str),
}

/// What is said of a cause. In the places of `①` to `⑨` stand the slots from the first to the ninth.
#[derive(Clone, Copy)]
pub struct Saying {
    /// What is wrong.
    pub title: &'static str,
    /// A line below, which is a note or says what to do. It is empty where there is none.
    pub below: &'static str,
}

/// A row of a table: a cause, what is wrong, and a line below.
pub type CauseRow<C> = (C, &'static str, &'static str);

/// What the row of this number of a table says.
pub fn saying_at<C: Copy>(rows: &[CauseRow<C>], number: usize) -> Saying
    requires { number < length rows.now }
    ensures { SaysAt (map (λ row. (row.0, row.1.now, row.2.now)) rows.now) number result }
{
    let row = &rows[number];
    Saying {
        title: row.1,
        below: row.2,
    }
}

/// What is said with these slots, in the words of a row.
pub fn words_of(alloc: Global, saying: Saying, slots: &[Slot<'_>]) -> Result<Words, AllocError>
    ensures { IfOk result (AreWordsOf saying (slot_texts slots.now)) }
{
    let mut draft = Draft::new(alloc);
    draft.tell(saying, slots);
    draft.finish()
}

/// The words of a row with its slots.
pub fn filled(alloc: Global, row: &str, slots: &[Slot<'_>]) -> Result<String, AllocError>
    ensures { IfOk result (λ text. string_bytes text ≡ filled (slot_texts slots.now) row.now) }
{
    let mut text = String::new(alloc);
    for character in row.chars() {
        push_piece(&mut text, character, slots)?;
    }
    Ok(text)
}

/// Puts a character of a row, or what stands in its place, at the end of a text.
fn push_piece(text: &mut String, character: char, slots: &[Slot<'_>]) -> Result<(), AllocError>
    ensures { OnOk result (string_bytes text.new ≡
        string_bytes text.old ++ piece (slot_texts slots.now) character) }
{
    match hole_number(character) {
        Some(number) => match slots.get(number) {
            Some(slot) => push_slot(text, *slot),
            None => Ok(()),
        },
        None => text.push(character),
    }
}

/// The number of the slot that stands in the place of a character, from 0.
fn hole_number(character: char) -> Option<usize>
    ensures { result ≡ hole_number character }
{
    let code = character as usize;
    if (0x2460..=0x2468).contains(&code) {
        Some(code - 0x2460)
    } else {
        None
    }
}

/// Puts what a row says in one of its places at the end of a text.
fn push_slot(text: &mut String, slot: Slot<'_>) -> Result<(), AllocError>
    ensures { OnOk result (string_bytes text.new ≡ string_bytes text.old ++ slot_text slot.entry) }
{
    match slot {
        Slot::Name(name) => push_quoted(text, name),
        Slot::Bytes(bytes) => push_shown(text, bytes),
        Slot::Number(number) => write!(text, "{number}"),
        Slot::Words(words) => text.push_str(words),
    }
}
