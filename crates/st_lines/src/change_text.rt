//! The text of an online change, read from its source lines.
ghost use Rattle.std.specs.Prelude.{◌≡◌, ◌≤◌, List, [], Some, IfOk, OnErr, OnOk, false, is_err, true};
ghost use Rattle.st_devices.specs.Inputs.{has_ended, left, pending};
ghost use Rattle.st_devices.specs.Pending.{OnReading};
ghost use Rattle.st_layout.specs.declared.renames.Rename.{Rename};
ghost use Rattle.st_lines.specs.ChangeTexts.{TakesText};
ghost use Rattle.st_lines.specs.Commands.{TakesPartOf, new_change};
ghost use Rattle.st_lines.specs.SourceTexts.{Holds, TakesLines};

use crate::source_text::SourceText;
use st_devices::{DeviceFault, Input, Source};
use std::alloc::Global;

/// What was read as the text of a change.
#[derive(Drop)]
pub enum ChangeText {
    /// The text, up to the line that ends it.
    Whole(Vec<u8>),
    /// It was ended, and is longer than a text may be.
    TooLong,
    /// It was ended, and there was no memory for it. An empty text wants none.
    Memory,
    /// The input ended before.
    Unended,
}

/// Reads the source lines of a change, up to the line that ends its text.
///
/// Where the source fails, only a part of the text was read, and it is lost.
pub fn read_text<R: Source>(
    alloc: Global,
    input: &mut Input,
    source: &mut R,
) -> Result<ChangeText, DeviceFault>
    requires { R.has_failed source.old ≡ false }
    ensures ok { (renames : List Rename) → IfOk result (λ read. OnReading
        (pending input.old (R.rest source.old)) (pending input.new (R.rest source.new))
        (TakesText renames read (has_ended input.new))) }
    ensures err { (renames : List Rename) → OnErr result (OnReading
        (pending input.old (R.rest source.old)) (R.rest source.new)
        (TakesPartOf (Some (new_change renames)))) }
    ensures not_ended { OnErr result (has_ended input.old ≡ false) }
    ensures steady { OnOk result (left input.new (R.reads_left source.new)
        ≤ left input.old (R.reads_left source.old)) }
    ensures ended { has_ended input.old ≡ true → has_ended input.new ≡ true }
    ensures failed { R.has_failed source.new ≡ is_err result }
{
    let mut text = SourceText::new(alloc);
    if read_lines(input, source, &mut text)? {
        Ok(text.into_text())
    } else {
        Ok(ChangeText::Unended)
    }
}

/// Reads source lines into a text, up to the line that ends it. Answers whether there is one.
fn read_lines<R: Source>(
    input: &mut Input,
    source: &mut R,
    text: &mut SourceText,
) -> Result<bool, DeviceFault>
    requires works { R.has_failed source.old ≡ false }
    requires empty { Holds text.old [] [] }
    ensures ok { (renames : List Rename) → IfOk result (λ is_ended. OnReading
        (pending input.old (R.rest source.old)) (pending input.new (R.rest source.new))
        (TakesLines renames is_ended (has_ended input.new) text.new)) }
    ensures err { (renames : List Rename) → OnErr result (OnReading
        (pending input.old (R.rest source.old)) (R.rest source.new)
        (TakesPartOf (Some (new_change renames)))) }
    ensures not_ended { OnErr result (has_ended input.old ≡ false) }
    ensures steady { OnOk result (left input.new (R.reads_left source.new)
        ≤ left input.old (R.reads_left source.old)) }
    ensures ended { has_ended input.old ≡ true → has_ended input.new ≡ true }
    ensures failed { R.has_failed source.new ≡ is_err result }
{
    while let Some(byte) = input.next_byte(source)? {
        if byte != b'\n' {
            text.take(byte);
        } else if text.end_line() {
            return Ok(true);
        }
    }
    Ok(text.end_input())
}
