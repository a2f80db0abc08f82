//! The spelling of a name, as the key of a table.
ghost use Rattle.std.specs.Prelude.{◌≡◌, fold, nat_eq};
ghost use Rattle.std.proofs.Common.{rules};
ghost use Rattle.std.specs.Cmp.Rules.{comparing, hashing};
ghost use Rattle.std.specs.Cmp.Lexicographic.{pointwise};
ghost use Rattle.std.specs.Ordering.{on};
ghost use Rattle.std.specs.Hash as fed;
ghost use Rattle.std.specs.Str.{str_to_ascii_lowercase};
ghost use Rattle.st_values.specs.Words.{is_word};

use std::hash::{Hash, Hasher};
use std::marker::Model;

/// The spelling of a name. Two of them are equal where they differ in case only.
#[derive(Drop)]
pub struct Spelling<'a> {
    bytes: &'a [u8],
}

impl<'a> Model for Spelling<'a> {
    ghost use Rattle.std.specs.Prelude.{List, ℕ};

    ghost Value = { List ℕ };

    ghost view = { λ s. s.bytes.now };
}

impl<'a> Spelling<'a> {
    /// The spelling of these bytes.
    pub fn new(bytes: &'a [u8]) -> Spelling<'a>
        ensures { result ≡ bytes.now }
    {
        Spelling { bytes }
    }
}

impl<'a> PartialEq for Spelling<'a> {
    ghost eq = { on str_to_ascii_lowercase (pointwise nat_eq) };

    ghost laws = { Prim.search (comparing, rules) };

    fn eq(&self, other: &Spelling<'a>) -> bool {
        is_same_name(self.bytes, other.bytes)
    }
}

impl<'a> Eq for Spelling<'a> {
    ghost laws = { Prim.search (comparing, rules) };
}

impl<'a> Hash for Spelling<'a> {
    ghost hash_input = { λ s. fed.slice fed.u8 (str_to_ascii_lowercase s) };

    ghost respects_eq = { Prim.search (hashing, rules) };

    fn hash<H: Hasher>(&self, state: &mut H) {
        hash_bytes(self.bytes, state);
    }
}

/// Tests whether two spellings are of one name.
pub fn is_same_name(name: &[u8], other: &[u8]) -> bool
    ensures { result ≡ is_word name.now other.now }
{
    // Most names are written as they are declared.
    name == other || other.eq_ignore_ascii_case(name)
}

/// Hashes bytes with no regard to case.
fn hash_bytes<H: Hasher>(bytes: &[u8], state: &mut H)
    ensures { state.new ≡ fold H.write state.old
        (fed.slice fed.u8 (str_to_ascii_lowercase bytes.now)) }
{
    state.write_usize(bytes.len());
    for byte in bytes {
        state.write_u8(byte.to_ascii_lowercase());
    }
}
