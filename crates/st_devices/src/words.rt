//! The words of a line, which spaces and tabs separate.
ghost use Rattle.std.specs.Prelude.{◌≡◌, ◌≤◌, ◌<◌, ◌+◌, ◌∷◌, [], MatchOption, IfSome, length};
ghost use Rattle.std.specs.List.{position_or_len, prefix_len};
ghost use Rattle.st_devices.specs.Words.{HasNoBlankFirst, is_blank, words_of};

/// The first word of a text, and what stands after it.
pub fn split_word(text: &[u8]) -> Option<(&[u8], &[u8])>
    ensures words { MatchOption result (words_of text.now ≡ [])
        (λ split. words_of text.now ≡ split.0.now ∷ words_of split.1.now) }
    ensures shorter { IfSome result (λ split. length split.1.now < length text.now) }
    ensures room { IfSome result
        (λ split. length split.0.now + length split.1.now ≤ length text.now) }
{
    let text = skip_blanks(text);
    if text.is_empty() {
        return None;
    }
    Some(text.split_at(word_len(text)))
}

/// A text without the blanks that it begins with.
pub fn skip_blanks(text: &[u8]) -> &[u8]
    ensures words { words_of result.now ≡ words_of text.now }
    ensures first { HasNoBlankFirst result.now }
    ensures shorter { length result.now ≤ length text.now }
{
    text.split_at(blank_len(text)).1
}

/// How many blanks a text begins with.
fn blank_len(text: &[u8]) -> usize
    ensures value { result ≡ prefix_len is_blank text.now }
    ensures within { result ≤ length text.now }
{
    text.iter()
        .take_while(|byte| is_space_or_tab(**byte))
        .count()
}

/// How many bytes stand before the first blank.
fn word_len(text: &[u8]) -> usize
    ensures value { result ≡ position_or_len is_blank text.now }
    ensures within { result ≤ length text.now }
{
    text.iter()
        .take_while(|byte| !is_space_or_tab(**byte))
        .count()
}

/// Tests whether a byte is a space or a tab.
pub fn is_space_or_tab(byte: u8) -> bool
    ensures { result ≡ is_blank byte }
{
    byte == b' ' || byte == b'\t'
}
