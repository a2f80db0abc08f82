//! Words, ignoring case.
ghost use Rattle.std.specs.Prelude.{◌≡◌, ◌≤◌, length, IsTrue};
ghost use Rattle.st_values.specs.Words.{begins_with_word, is_word};

/// Tests whether a text begins with a word, ignoring case.
pub fn begins_with_word(word: &[u8], text: &[u8]) -> bool
    ensures value { result ≡ begins_with_word word.now text.now }
    ensures within { IsTrue result → length word.now ≤ length text.now }
{
    if text.len() < word.len() {
        return false;
    }
    is_word(word, &text[..word.len()])
}

/// Tests whether a text is a word, ignoring case.
pub fn is_word(word: &[u8], text: &[u8]) -> bool
    ensures { result ≡ is_word word.now text.now }
{
    text.eq_ignore_ascii_case(word)
}
