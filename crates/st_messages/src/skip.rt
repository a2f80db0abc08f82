//! What stands behind the lexeme that begins a text: a token, or what begins none, or a comment.
ghost use Rattle.std.specs.Prelude.{◌≡◌, ◌≤◌, drop, is_some, length, take};
ghost use Rattle.st_messages.specs.Skips.{after_base, after_comment, after_continued, after_interval, after_literal, after_prefix, after_sign, after_symbol, after_token, after_word, seen};
ghost use Rattle.st_tokens.specs.Scanning.{after_run, double, ends_in_digit, interval_rest, is_duration_word, run};
ghost use Rattle.st_values.specs.Words.{is_word_byte};

/// Whether a word may go on with this byte.
fn is_word_byte(byte: u8) -> bool
    ensures { result ≡ is_word_byte byte }
{
    byte.is_ascii_alphanumeric() || byte == b'_'
}

/// How many bytes of a word stand at the start.
fn run_len(text: &[u8]) -> usize
    ensures within { result ≤ length text.now }
    ensures prefix { take result text.now ≡ run text.now }
    ensures rest { drop result text.now ≡ after_run text.now }
{
    let mut len = 0;
    while len < text.len() && is_word_byte(text[len]) {
        len += 1;
    }
    len
}

/// The bytes of a word at the start, and what stands behind them.
fn split_run(text: &[u8]) -> (&[u8], &[u8])
    ensures prefix { result.0.now ≡ run text.now }
    ensures rest { result.1.now ≡ after_run text.now }
{
    text.split_at(run_len(text))
}

/// What stands behind an optional sign.
fn after_sign(text: &[u8]) -> &[u8]
    ensures { result.now ≡ after_sign text.now }
{
    match text {
        [b'-', rest @ ..] => rest,
        [b'+', rest @ ..] => rest,
        _ => text,
    }
}

/// What stands behind an optional `#` and the digits of a base.
fn after_base(text: &[u8]) -> &[u8]
    ensures { result.now ≡ after_base text.now }
{
    if text.starts_with(b"#") {
        split_run(&text[1..]).1
    } else {
        text
    }
}

/// What stands behind a literal, which begins behind the name of a type and `#`.
fn after_literal(text: &[u8]) -> &[u8]
    ensures { result.now ≡ after_literal text.now }
{
    after_base(split_run(after_sign(text)).1)
}

/// Whether the last byte is a digit.
fn ends_in_digit(text: &[u8]) -> bool
    ensures { result ≡ ends_in_digit text.now }
{
    !text.is_empty() && text[text.len() - 1].is_ascii_digit()
}

/// What stands behind the bytes that the parts of a duration may have.
fn after_parts(text: &[u8]) -> &[u8]
    ensures { result.now ≡ interval_rest text.now }
{
    let (parts, rest) = split_run(text);
    if ends_in_digit(parts) && rest.starts_with(b".") {
        split_run(&rest[1..]).1
    } else {
        rest
    }
}

/// What stands behind the parts of a duration, which begin behind its `#`.
fn after_interval(text: &[u8]) -> &[u8]
    ensures { result.now ≡ after_interval text.now }
{
    after_parts(after_sign(text))
}

/// Whether a literal that begins with this word and `#` is a duration.
fn is_duration(word: &[u8]) -> bool
    ensures { result ≡ is_duration_word word.now }
{
    word.eq_ignore_ascii_case(b"T") || word.eq_ignore_ascii_case(b"TIME")
}

/// What stands behind what begins with this word and `#`.
fn after_prefix<'a>(word: &[u8], text: &'a [u8]) -> &'a [u8]
    ensures { result.now ≡ after_prefix word.now text.now }
{
    if is_duration(word) {
        after_interval(text)
    } else {
        after_literal(text)
    }
}

/// What stands behind a word, or a literal that begins with one.
fn after_word(text: &[u8]) -> &[u8]
    ensures { result.now ≡ after_word text.now }
{
    let (word, rest) = split_run(text);
    if rest.starts_with(b"#") {
        after_prefix(word, &rest[1..])
    } else {
        rest
    }
}

/// Whether these two bytes are one symbol.
fn is_symbol(first: u8, second: u8) -> bool
    ensures { result ≡ is_some (double first second) }
{
    match second {
        b'=' => first == b':' || first == b'<' || first == b'>',
        b'>' => first == b'<' || first == b'=',
        _ => first == b'.' && second == b'.',
    }
}

/// What stands behind the bytes that continue a character of UTF-8.
fn after_continued(text: &[u8]) -> &[u8]
    ensures { result.now ≡ after_continued text.now }
{
    let mut rest = text;
    while let [first, others @ ..] = rest {
        if !(0x80..=0xBF).contains(first) {
            return rest;
        }
        rest = others;
    }
    rest
}

/// What stands behind a symbol, or a character that is none.
fn after_symbol(text: &[u8]) -> &[u8]
    ensures { result.now ≡ after_symbol text.now }
{
    match text {
        [first, second, rest @ ..] if is_symbol(*first, *second) => rest,
        [first, rest @ ..] if *first >= 0x80 => after_continued(rest),
        [_, rest @ ..] => rest,
        [] => text,
    }
}

/// What stands behind the lexeme that begins a text: a token, or a character that begins none.
pub fn after_token(text: &[u8]) -> &[u8]
    ensures { result.now ≡ after_token text.now }
{
    match text {
        [first, ..] if is_word_byte(*first) => after_word(text),
        _ => after_symbol(text),
    }
}

/// What stands behind the first `*)` of a comment, whose `(*` stands before this text.
pub fn after_comment(text: &[u8]) -> Option<&[u8]>
    ensures { seen result ≡ after_comment text.now }
{
    let mut rest = text;
    while let [first, second, remaining @ ..] = rest {
        if *first == b'*' && *second == b')' {
            return Some(remaining);
        }
        rest = &rest[1..];
    }
    None
}
