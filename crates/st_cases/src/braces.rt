//! What stands in braces: words that have values, and what is repeated.
use std::alloc::{AllocError, Global};

/// Words, and a value for each of them.
#[derive(Clone, Copy)]
pub struct Values<'a> {
    pub words: &'a str,
    pub values: &'a str,
}

impl<'a> Values<'a> {
    /// A text with all that stands in braces written out: the value of a word, and what is repeated, as often as a number or the value
    /// of a word says. Braces around anything else are left.
    pub fn written_out(self, alloc: Global, text: &str) -> Result<String, AllocError> {
        let mut written = String::new(alloc);
        let mut pieces = text.split('{');
        written.push_str(pieces.next().unwrap_or(""))?;
        for piece in pieces {
            self.put(&mut written, piece)?;
        }
        Ok(written)
    }

    /// Puts what stands between an opening brace and the next one.
    fn put(self, written: &mut String, piece: &str) -> Result<(), AllocError> {
        let (inside, rest) = piece.split_once('}').unwrap_or((piece, ""));
        if let Some((count, repeated)) = inside.split_once('*') {
            let count = self.value_of(count).unwrap_or(count);
            if let Ok(count) = count.parse::<u32>() {
                return put_repeated(written, count, repeated, rest);
            }
        } else if let Some(value) = self.value_of(inside) {
            return write!(written, "{value}{rest}");
        }
        write!(written, "{{{piece}")
    }

    /// The value of a word.
    fn value_of(self, word: &str) -> Option<&'a str> {
        let values = self.values.split_whitespace();
        for (other, value) in self.words.split_whitespace().zip(values) {
            if other == word {
                return Some(value);
            }
        }
        None
    }
}

/// Puts what is repeated so often, each `@` in it as the number of the time, and what stands behind the closing brace. Where lines are
/// repeated, the line feeds behind the star and behind that brace are none of the text.
fn put_repeated(
    written: &mut String,
    count: u32,
    repeated: &str,
    rest: &str,
) -> Result<(), AllocError> {
    let (repeated, rest) = match (repeated.strip_prefix('\n'), rest.strip_prefix('\n')) {
        (Some(lines), Some(below)) => (lines, below),
        _ => (repeated, rest),
    };
    for number in 1..=count {
        let mut pieces = repeated.split('@');
        written.push_str(pieces.next().unwrap_or(""))?;
        for piece in pieces {
            write!(written, "{number}{piece}")?;
        }
    }
    written.push_str(rest)
}
