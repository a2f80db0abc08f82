//! The renames of an online change, from the words of its line.
ghost use Rattle.std.specs.Prelude.{◌≡◌, ◌≤◌, IfOk, length};
ghost use Rattle.std.specs.List.{after_first, before_first, position_or_len};
ghost use Rattle.st_devices.specs.Words.{words_of};
ghost use Rattle.st_lines.specs.Requests.{is_equals, rename_of, renames_of};

use st_devices::split_word;
use st_layout::Rename;
use st_tree::List;
use std::alloc::{AllocError, Global};

/// The renames that the words of a text are, in order.
pub fn read_renames(alloc: Global, words: &[u8]) -> Result<Vec<Rename>, AllocError>
    ensures { IfOk result (λ renames. renames.items ≡ renames_of (words_of words.now)) }
{
    let mut renames = Vec::new(alloc);
    let mut rest = words;
    while let Some((word, more)) = split_word(rest) {
        renames.push(read_rename(alloc, word)?)?;
        rest = more;
    }
    Ok(renames)
}

/// The rename that a word is.
fn read_rename(alloc: Global, word: &[u8]) -> Result<Rename, AllocError>
    ensures { IfOk result (λ rename. rename ≡ rename_of word.now) }
{
    let (old, new) = cut(word);
    Ok(Rename {
        old: List::from_slice(alloc, old)?,
        new: List::from_slice(alloc, new)?,
    })
}

/// What stands before the first `=` of a word, and what stands after it.
fn cut(word: &[u8]) -> (&[u8], &[u8])
    ensures old { result.0.now ≡ before_first is_equals word.now }
    ensures new { result.1.now ≡ after_first is_equals word.now }
{
    let (old, rest) = word.split_at(equals_at(word));
    match rest {
        [_, new @ ..] => (old, new),
        [] => (old, rest),
    }
}

/// How many bytes stand before the first `=`.
fn equals_at(word: &[u8]) -> usize
    ensures value { result ≡ position_or_len is_equals word.now }
    ensures within { result ≤ length word.now }
{
    word.iter().take_while(|byte| **byte != b'=').count()
}
