//! The words of a scan: its moment, and pairs of a path and a value.
ghost use Rattle.std.specs.Prelude.{◌≡◌, ◌≤◌, ◌<◌, IfSome, MatchOption, None, codes, false, true, length, slice_index};
ghost use Rattle.std.specs.Char.{digit_value};
ghost use Rattle.std.specs.List.{list_all};
ghost use Rattle.st_devices.specs.Words.{is_blank, words_of};
ghost use Rattle.st_lines.specs.ScanWords.{HasMomentFirst, IsDigitAt, bytes_before, first_moment, is_pair, pair_of};
ghost use Rattle.st_values.specs.Words.{begins_with};

use st_devices::{is_space_or_tab, skip_blanks, split_word};

/// The first moment that is too late, which stands for all of them.
const TOO_LATE: u64 = 1_000_000_000_000_001;

/// The moment that the first word of a text is, where that has decimal digits alone, and what stands after the word.
#[inline(always)]
pub fn split_moment(text: &[u8]) -> Option<(i64, &[u8])>
    ensures none { result ≡ None → first_moment (words_of text.now) ≡ None }
    ensures some { IfSome result (λ split.
        HasMomentFirst split.0 (words_of split.1.now) (words_of text.now)) }
    ensures room { IfSome result (λ split. length split.1.now ≤ length text.now) }
{
    let text = skip_blanks(text);
    let mut moment = 0u64;
    let mut at = 0;
    while let Some(digit) = digit_at(text, at) {
        moment = (moment * 10 + u64::from(digit)).min(TOO_LATE);
        at += 1;
    }
    if at == 0 || !ends_word(text, at) {
        None
    } else {
        Some((moment as i64, &text[at..]))
    }
}

/// The decimal digit that stands here in a text, if there is one.
fn digit_at(text: &[u8], at: usize) -> Option<u32>
    ensures some { IfSome result (IsDigitAt text.now at) }
    ensures none { result ≡ None → at < length text.now
        → 10 ≤ digit_value (slice_index text.now at) }
{
    if at < text.len() {
        char::from(text[at]).to_digit(10)
    } else {
        None
    }
}

/// Tests whether a word that stands before this place in a text ends there.
fn ends_word(text: &[u8], at: usize) -> bool
    ensures yes { result ≡ true → at < length text.now → is_blank (slice_index text.now at) ≡ true }
    ensures no { result ≡ false
        → (at < length text.now) × (is_blank (slice_index text.now at) ≡ false) }
{
    at >= text.len() || is_space_or_tab(text[at])
}

/// Words of a line, each of which is a pair.
#[derive(Clone, Copy)]
pub struct Pairs<'a> {
    /// What stands in the line from the first of them on.
    pub words: &'a [u8],
    ghost pairs: { list_all is_pair (words_of words.now) ≡ true },
    ghost short: { length words.now ≤ 4096 },
}

impl<'a> Pairs<'a> {
    /// The words of a text, which is no longer than a line, if each of them is a pair.
    #[inline(always)]
    pub fn read(words: &'a [u8]) -> Option<Self>
        requires { length words.now ≤ 4096 }
        ensures { MatchOption result (list_all is_pair (words_of words.entry.now) ≡ false)
            (λ pairs. pairs.words.now ≡ words.entry.now) }
    {
        let mut rest = words;
        while let Some((word, more)) = split_word(rest) {
            if !is_pair(word) {
                return None;
            }
            rest = more;
        }
        Some(Pairs { words })
    }
}

/// Tests whether a word is a pair.
fn is_pair(word: &[u8]) -> bool
    ensures { result ≡ is_pair word.now }
{
    bytes_before(word) < word.len()
}

/// The path and the value of the pair that a word is.
pub fn cut_pair(word: &[u8]) -> (&[u8], &[u8])
    ensures path { result.0.now ≡ (pair_of word.now).path }
    ensures given { result.1.now ≡ (pair_of word.now).given }
{
    let (path, rest) = word.split_at(bytes_before(word));
    match rest {
        [_, _, given @ ..] => (path, given),
        _ => (path, b""),
    }
}

/// How many bytes of a word stand before its first `:=`: all, where there is none.
fn bytes_before(word: &[u8]) -> usize
    ensures value { result ≡ bytes_before word.now }
    ensures within { result ≤ length word.now }
{
    let mut at = 0;
    while at < word.len() && !begins_value(&word[at..]) {
        at += 1;
    }
    at
}

/// Tests whether a text begins with the `:=` before a value.
fn begins_value(text: &[u8]) -> bool
    ensures { result ≡ begins_with (codes ":=") text.now }
{
    matches!(text, [b':', b'=', ..])
}
