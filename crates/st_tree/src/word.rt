//! Words: the bytes of an identifier.
ghost use Rattle.std.specs.Prelude.{◌≡◌, IfOk};
ghost use Rattle.st_values.specs.Words.{AreWordBytes};

use smallvec::SmallVec;
use std::alloc::{AllocError, Global};
use std::marker::Model;

/// How many bytes of a word stand in the word itself.
const INLINE_BYTES: usize = 16;

/// A word: letters, digits and `_` alone. Contracts see it as the list of its bytes. Up to 16 take no memory of their own.
#[derive(Drop)]
pub struct Word {
    bytes: SmallVec<u8, INLINE_BYTES>,
}

impl Model for Word {
    ghost use Rattle.std.specs.Coded.{coded_list, coded_ℕ};
    ghost use Rattle.std.specs.Prelude.{List as Items, ℕ};
    ghost use Rattle.st_values.specs.Words.{AreWordBytes};

    ghost Value = { Items ℕ };

    ghost coded = { coded_list coded_ℕ };

    ghost view = { λ word. word.bytes.items };

    ghost invariant = { λ word. AreWordBytes word.bytes.items };
}

impl Word {
    /// The word of these bytes.
    pub fn from_slice(alloc: Global, bytes: &[u8]) -> Result<Word, AllocError>
        requires { AreWordBytes bytes.now }
        ensures { IfOk result (λ word. word ≡ bytes.now) }
    {
        let bytes = SmallVec::from_slice(alloc, bytes)?;
        Ok(Word { bytes })
    }

    /// The word's bytes, as they stand in the text.
    pub fn as_slice(&self) -> &[u8]
        ensures { result.now ≡ self.now }
    {
        self.bytes.as_slice()
    }

    /// The bytes, which are letters, digits and `_` alone.
    pub fn letters(&self) -> &[u8]
        ensures bytes { result.now ≡ self.now }
        ensures word { AreWordBytes result.now }
    {
        self.bytes.as_slice()
    }
}
