//! Runs of letters, digits and `_` (IEC 61131-3:2003, 2.1.1 and 2.1.2).
ghost use Rattle.std.specs.Prelude.{◌≡◌, ◌≤◌, length, take, drop};
ghost use Rattle.st_tokens.specs.Characters.{begins_word};
ghost use Rattle.st_values.specs.Words.{AreWordBytes, is_word_byte};
ghost use Rattle.st_tokens.specs.Scanning.{after_run, run};

/// Tests whether a word may begin with this byte.
pub fn begins_word(byte: u8) -> bool
    ensures { result ≡ begins_word byte }
{
    byte.is_ascii_alphabetic() || byte == b'_'
}

/// Tests whether a word may go on with this byte.
fn is_word_byte(byte: u8) -> bool
    ensures { result ≡ is_word_byte byte }
{
    byte.is_ascii_alphanumeric() || byte == b'_'
}

/// How many bytes of a word stand at the start.
pub fn run_len(text: &[u8]) -> usize
    ensures within { result ≤ length text.now }
    ensures prefix { take result text.now ≡ run text.now }
    ensures rest { drop result text.now ≡ after_run text.now }
{
    let mut len = 0;
    while len < text.len() && is_word_byte(text[len]) {
        len += 1;
    }
    len
}

/// The bytes of a word at the start, and what stands after them.
pub fn split_run(text: &[u8]) -> (&[u8], &[u8])
    ensures prefix { result.0.now ≡ run text.now }
    ensures word { AreWordBytes result.0.now }
    ensures rest { result.1.now ≡ after_run text.now }
{
    text.split_at(run_len(text))
}
