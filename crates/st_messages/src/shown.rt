//! Bytes as people can read them.

ghost use Rattle.std.specs.Prelude.{◌≡◌, ◌++◌, OnOk};
ghost use Rattle.std.specs.String.{string_bytes};
ghost use Rattle.st_messages.specs.Shown.{byte_shown, bytes_shown, character_shown, is_hidden, is_invisible, number_shown, shown, text_shown};

use std::alloc::AllocError;

/// Puts bytes at the end of a message, as they can be shown safely: text in UTF-8 and tabs as they are, and each control character, each
/// character that turns the direction of writing, and each byte that is no UTF-8 by its number.
pub fn push_shown(message: &mut String, bytes: &[u8]) -> Result<(), AllocError>
    ensures { OnOk result (string_bytes message.new ≡
        string_bytes message.old ++ shown bytes.now) }
{
    for chunk in bytes.utf8_chunks() {
        push_text(message, chunk.valid())?;
        push_bytes(message, chunk.invalid())?;
    }
    Ok(())
}

/// Puts a text at the end of a message, as it can be shown.
fn push_text(message: &mut String, text: &str) -> Result<(), AllocError>
    ensures { OnOk result (string_bytes message.new ≡
        string_bytes message.old ++ text_shown text.now) }
{
    for character in text.chars() {
        push_character(message, character)?;
    }
    Ok(())
}

/// Puts a character at the end of a message, as it can be shown.
fn push_character(message: &mut String, character: char) -> Result<(), AllocError>
    ensures { OnOk result (string_bytes message.new ≡
        string_bytes message.old ++ character_shown character) }
{
    if is_hidden(character) {
        push_number(message, character as u32)
    } else {
        message.push(character)
    }
}

/// Whether a character is shown by its number: it is no tab, and it can't be seen, or changes how others are seen.
fn is_hidden(character: char) -> bool
    ensures { result ≡ is_hidden character }
{
    character != '\t' && (character.is_control() || is_invisible(character))
}

/// Whether a character turns the direction of writing, or takes no place.
fn is_invisible(character: char) -> bool
    ensures { result ≡ is_invisible character }
{
    matches!(character, '\u{061C}' | '\u{200B}'..='\u{200F}' | '\u{2028}'..='\u{202E}' | '\u{2060}'..='\u{206F}' | '\u{FEFF}')
}

/// Puts the number of a character at the end of a message.
fn push_number(message: &mut String, code: u32) -> Result<(), AllocError>
    ensures { OnOk result (string_bytes message.new ≡
        string_bytes message.old ++ number_shown code) }
{
    if code < 0x80 {
        push_byte(message, code)
    } else {
        write!(message, "\\u{{{code:x}}}")
    }
}

/// Puts bytes that are no text at the end of a message, each by its number.
fn push_bytes(message: &mut String, bytes: &[u8]) -> Result<(), AllocError>
    ensures { OnOk result (string_bytes message.new ≡
        string_bytes message.old ++ bytes_shown bytes.now) }
{
    for byte in bytes {
        push_byte(message, u32::from(*byte))?;
    }
    Ok(())
}

/// Puts the number of a byte at the end of a message.
fn push_byte(message: &mut String, byte: u32) -> Result<(), AllocError>
    ensures { OnOk result (string_bytes message.new ≡
        string_bytes message.old ++ byte_shown byte) }
{
    let high = byte / 16;
    let low = byte % 16;
    write!(message, "\\x{high:x}{low:x}")
}
