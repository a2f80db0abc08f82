//! The words of a line, and where they stand in it.
ghost use Rattle.std.specs.Prelude.{◌≡◌, ◌≤◌, ◌<◌, ◌∷◌, [], MatchOption, OnSome, length};
ghost use Rattle.st_devices.specs.Words.{words_of};

use st_devices::split_word;

/// A word of a line, and the bytes of the line between which it stands.
#[derive(Clone, Copy)]
pub struct Spot<'a> {
    pub start: usize,
    pub end: usize,
    pub word: &'a [u8],
}

/// The words of a line that are still to be taken.
#[derive(Clone, Copy)]
pub struct Words<'a> {
    /// How many bytes the line has.
    len: usize,
    /// What stands in it behind the words that were taken.
    pub rest: &'a [u8],
    ghost within: { length rest.now ≤ len },
}

impl<'a> Words<'a> {
    /// All words of a line.
    pub fn of(line: &'a [u8]) -> Self
        ensures { result.rest.now ≡ line.entry.now }
    {
        Words {
            len: line.len(),
            rest: line,
        }
    }

    /// Takes the next word.
    pub fn take(&mut self) -> Option<Spot<'a>>
        ensures words { MatchOption result (words_of self.old.rest.now ≡ [])
            (λ spot. words_of self.old.rest.now ≡ spot.word.now ∷ words_of self.new.rest.now) }
        ensures shorter { OnSome result (length self.new.rest.now < length self.old.rest.now) }
    {
        let (word, rest) = split_word(self.rest)?;
        let end = self.len - rest.len();
        self.rest = rest;
        Some(Spot {
            start: end - word.len(),
            end,
            word,
        })
    }
}

/// The first word of a line.
pub fn first_word(line: &[u8]) -> Option<Spot<'_>> {
    Words::of(line).take()
}

/// The second word of a line.
pub fn second_word(line: &[u8]) -> Option<Spot<'_>> {
    let mut words = Words::of(line);
    words.take()?;
    words.take()
}

/// The third word of a line.
pub fn third_word(line: &[u8]) -> Option<Spot<'_>> {
    let mut words = Words::of(line);
    words.take()?;
    words.take()?;
    words.take()
}
