//! The text of an online change, put together from source lines.
//!
//! A text that grows too long, or finds no memory, is still read to its end. What is known of it then is that it did.
ghost use Rattle.std.specs.Prelude.{◌≡◌, ◌≢◌, ◌<◌, ◌++◌, ◌∷◌, ℕ, List, [], false, length, slice_index, true};
ghost use Rattle.st_devices.specs.Lines.{ended_line, last_line};
ghost use Rattle.st_devices.specs.Words.{words_of};
ghost use Rattle.st_lines.specs.ChangeTexts.{IsKept};
ghost use Rattle.st_lines.specs.Commands.{ends_text, is_end};
ghost use Rattle.st_lines.specs.SourceTexts.{Holds, HoldsLine, HoldsText, IsStored, end_word, ends_with};

use crate::change_text::ChangeText;
use st_devices::is_space_or_tab;
use st_tokens::MAX_TEXT_BYTES;
use std::alloc::Global;

/// The only word of the line that ends a text.
const END_WORD: &[u8] = b"end_change";

/// What a line has so far.
#[derive(Clone, Copy)]
pub enum LineWord {
    /// So many bytes of `end_change`, after blanks.
    Front(usize),
    /// `end_change`, and a blank after it.
    Whole,
    /// Another word, or more than one.
    Other,
}

/// What a line has with one more byte.
fn with_byte(word: LineWord, byte: u8) -> LineWord
    ensures { (rest : List ℕ) → ends_with result rest ≡ ends_with word (byte ∷ rest) }
{
    match word {
        LineWord::Front(count) => after_front(count, byte),
        LineWord::Whole if is_space_or_tab(byte) => LineWord::Whole,
        _ => LineWord::Other,
    }
}

/// The same where it has so many bytes of `end_change`.
fn after_front(count: usize, byte: u8) -> LineWord
    ensures { (rest : List ℕ) → ends_with result rest
        ≡ ends_with (LineWord.Front count) (byte ∷ rest) }
{
    if is_next(count, byte) {
        LineWord::Front(count + 1)
    } else if !is_space_or_tab(byte) {
        LineWord::Other
    } else if count == 0 {
        LineWord::Front(0)
    } else if count < END_WORD.len() {
        LineWord::Other
    } else {
        LineWord::Whole
    }
}

/// Tests whether `end_change` goes on with this byte after so many.
fn is_next(count: usize, byte: u8) -> bool
    ensures within { result ≡ true → count < length end_word }
    ensures yes { result ≡ true → slice_index end_word count ≡ byte }
    ensures no { result ≡ false → count < length end_word → slice_index end_word count ≢ byte }
{
    count < END_WORD.len() && END_WORD[count] == byte
}

/// Tests whether a line that has this, and no more, ends a text.
fn is_text_end(word: LineWord) -> bool
    ensures { result ≡ ends_with word [] }
{
    match word {
        LineWord::Front(count) => count >= END_WORD.len(),
        LineWord::Whole => true,
        LineWord::Other => false,
    }
}

/// How long a text is.
#[derive(Clone, Copy)]
pub struct Size {
    /// How many bytes it has, or one more than a text may have.
    len: usize,
    /// There was memory for all of them.
    is_kept: bool,
}

/// Puts a byte at the end of a text of this size. Answers the size of the longer text.
fn put(bytes: &mut Vec<u8>, size: Size, byte: u8) -> Size
    ensures stored { (text : List ℕ) → IsStored bytes.old.items size text
        → IsStored bytes.new.items result (text ++ byte ∷ []) }
    ensures front { (more : List ℕ) × (bytes.new.items ≡ bytes.old.items ++ more) }
{
    if size.len >= MAX_TEXT_BYTES {
        return Size {
            len: MAX_TEXT_BYTES + 1,
            is_kept: size.is_kept,
        };
    }
    Size {
        len: size.len + 1,
        is_kept: size.is_kept && bytes.push(byte).is_ok(),
    }
}

/// A text that source lines are put into.
#[derive(Drop)]
pub struct SourceText {
    /// The bytes of all lines, and of the line that isn't ended yet.
    bytes: Vec<u8>,
    /// The size of both.
    size: Size,
    /// The size of all lines.
    lines: Size,
    /// The last byte was a CR. It isn't among the bytes, since an LF may follow.
    holds_cr: bool,
    /// What the line that isn't ended has so far.
    word: LineWord,
}

impl SourceText {
    /// The text of no lines.
    pub fn new(alloc: Global) -> SourceText
        ensures { Holds result [] [] }
    {
        let size = Size {
            len: 0,
            is_kept: true,
        };
        SourceText {
            bytes: Vec::new(alloc),
            size,
            lines: size,
            holds_cr: false,
            word: LineWord::Front(0),
        }
    }

    /// Puts a byte into the line that isn't ended.
    fn put(&mut self, byte: u8)
        ensures line { (text line : List ℕ) → HoldsLine self.old text line
            → HoldsLine self.new text (line ++ byte ∷ []) }
        ensures cr { self.new.holds_cr ≡ self.old.holds_cr }
    {
        self.size = put(&mut self.bytes, self.size, byte);
        self.word = with_byte(self.word, byte);
    }

    /// Puts the CR that was held back.
    fn put_cr(&mut self)
        ensures line { (text part : List ℕ) → Holds self.old text part
            → HoldsLine self.new text part }
        ensures cr { self.new.holds_cr ≡ false }
    {
        if self.holds_cr {
            self.put(b'\r');
            self.holds_cr = false;
        }
    }

    /// Takes a byte of a line.
    pub fn take(&mut self, byte: u8)
        ensures { (text part : List ℕ) → Holds self.old text part
            → Holds self.new text (part ++ byte ∷ []) }
    {
        self.put_cr();
        if byte == b'\r' {
            self.holds_cr = true;
        } else {
            self.put(byte);
        }
    }

    /// Tests whether the line that isn't ended is the one that ends the text, and takes it off then.
    fn ends(&mut self) -> bool
        ensures end { (text line : List ℕ) → HoldsLine self.old text line
            → result ≡ is_end (words_of line) }
        ensures text { result ≡ true → (text line : List ℕ) → HoldsLine self.old text line
            → HoldsText self.new text }
        ensures same { result ≡ false → self.new ≡ self.old }
    {
        let is_last = is_text_end(self.word);
        if is_last {
            self.bytes.truncate(self.lines.len);
        }
        is_last
    }

    /// Ends a line at its LF. Answers whether it is the one that ends the text.
    pub fn end_line(&mut self) -> bool
        ensures end { (text part : List ℕ) → Holds self.old text part
            → result ≡ ends_text (ended_line part) }
        ensures text { result ≡ true → (text part : List ℕ) → Holds self.old text part
            → HoldsText self.new text }
        ensures line { result ≡ false → (text part : List ℕ) → Holds self.old text part
            → Holds self.new (text ++ (ended_line part).text ++ 10 ∷ []) [] }
    {
        if self.ends() {
            return true;
        }
        self.size = put(&mut self.bytes, self.size, b'\n');
        self.lines = self.size;
        self.holds_cr = false;
        self.word = LineWord::Front(0);
        false
    }

    /// Ends the last line, which has no LF. Answers whether it is the one that ends the text.
    pub fn end_input(&mut self) -> bool
        ensures end { (text part : List ℕ) → Holds self.old text part
            → result ≡ ends_text (last_line part) }
        ensures text { result ≡ true → (text part : List ℕ) → Holds self.old text part
            → HoldsText self.new text }
    {
        self.put_cr();
        self.ends()
    }

    /// The text that was ended, or why its bytes aren't there: it is too long, or there was no memory for it.
    pub fn into_text(self) -> ChangeText
        ensures { (text : List ℕ) → HoldsText self text → IsKept result text }
    {
        if self.lines.len > MAX_TEXT_BYTES {
            ChangeText::TooLong
        } else if self.lines.is_kept {
            ChangeText::Whole(self.bytes)
        } else {
            ChangeText::Memory
        }
    }
}
