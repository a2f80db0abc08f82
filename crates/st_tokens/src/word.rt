//! Words, reserved words and the names of types.
ghost use Rattle.std.specs.List.{find};
ghost use Rattle.std.specs.Prelude.{◌≡◌};
ghost use Rattle.st_tokens.specs.Scanning.{is_clean, word_kind};
ghost use Rattle.st_tokens.specs.Words.{elem_of, elems_with};
ghost use Rattle.st_values.specs.Types.{name_of};
ghost use Rattle.st_values.specs.Words.{AreWordBytes, is_word};

use crate::keyword::Keyword;
use crate::token::{Kind, Spelling};
use st_values::Elem;

/// The types whose names begin with this letter, which is in lower case.
#[tactic(auto, unfolding(crate::specs::Words::elems_with))]
fn elems_with(letter: u8) -> &'static [Elem]
    ensures { result.now ≡ elems_with letter }
{
    match letter {
        b'b' => &[Elem::Bool, Elem::Byte],
        b'd' => &[Elem::Dint, Elem::Dword],
        b'i' => &[Elem::Int],
        b'l' => &[Elem::Lint, Elem::Lword],
        b's' => &[Elem::Sint],
        b't' => &[Elem::Time],
        b'u' => &[Elem::Usint, Elem::Uint, Elem::Udint, Elem::Ulint],
        b'w' => &[Elem::Word],
        _ => &[],
    }
}

/// The elementary type whose name this is, ignoring case.
pub fn elem_of(word: &[u8]) -> Option<Elem>
    ensures { result ≡ elem_of word.now }
{
    let first = word.first()?;
    elem_in(elems_with(first.to_ascii_lowercase()), word)
}

/// The first of these types whose name this is, ignoring case.
fn elem_in(elems: &[Elem], word: &[u8]) -> Option<Elem>
    ensures { result ≡ find (λ elem. is_word (name_of elem) word.now) elems.now }
{
    elems
        .iter()
        .copied()
        .find(|elem| word.eq_ignore_ascii_case(elem.name()))
}

/// Tests that no two `_` stand in a row, and none at the end.
pub fn is_clean(word: &[u8]) -> bool
    ensures { result ≡ is_clean word.now }
{
    let mut after_underscore = false;
    for byte in word {
        let is_underscore = *byte == b'_';
        if after_underscore && is_underscore {
            return false;
        }
        after_underscore = is_underscore;
    }
    !after_underscore
}

/// The token that a whole word is.
#[tactic(auto, unfolding(crate::specs::Scanning::word_kind))]
pub fn word_kind<'a>(word: &'a [u8]) -> Kind<'a>
    requires { AreWordBytes word.now }
    ensures { result ≡ word_kind word.now }
{
    if let Some(keyword) = Keyword::of(word) {
        Kind::Keyword(keyword)
    } else if let Some(elem) = elem_of(word) {
        Kind::Type(elem)
    } else {
        Kind::Word(Spelling::of(word))
    }
}
