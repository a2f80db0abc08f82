//! What a line asks for.
//!
//! The words of a line are separated by spaces and tabs. Command words are in lower case.
ghost use Rattle.std.specs.Prelude.{◌≡◌, ◌≤◌, length};
ghost use Rattle.std.specs.List.{list_all};
ghost use Rattle.st_devices.specs.Words.{words_of};
ghost use Rattle.st_lines.specs.Requests.{change_request, command_request, has_equals, path_request, request_in, request_of, scan_request, value_request, word_request};

use crate::pairs::{Pairs, split_moment};
use st_devices::split_word;

/// What a line asks for. Paths and values are as the line has them.
#[derive(Clone, Copy)]
pub enum Request<'a> {
    /// The line has no words.
    Nothing,
    /// The value of the leaf with this path.
    Show(&'a [u8]),
    /// To set the leaf with this path to a value.
    Write(&'a [u8], &'a [u8]),
    /// To set the leaf with this path to a value, and to force it.
    Force(&'a [u8], &'a [u8]),
    /// To let go of the leaf with this path.
    Release(&'a [u8]),
    /// To scan at a moment, with the values that the pairs give.
    Scan(i64, Pairs<'a>),
    /// To go on with the program of a text that follows. The words are renames.
    Change(&'a [u8]),
    /// To take back the newest command.
    Undo,
    /// To begin again with the initial values.
    Reset,
    /// How the controller stands.
    Status,
    /// Nothing that there is.
    Unknown,
}

/// What a line asks for.
#[inline(always)]
pub fn read_request(text: &[u8]) -> Request<'_>
    requires { length text.now ≤ 4096 }
    ensures { request_of result ≡ request_in (words_of text.now) }
{
    match text {
        [b's', b'c', b'a', b'n', b' ', rest @ ..] => read_scan(rest),
        _ => read_words(text),
    }
}

/// What a line asks for, by its words.
#[inline(never)]
fn read_words(text: &[u8]) -> Request<'_>
    requires { length text.now ≤ 4096 }
    ensures { request_of result ≡ request_in (words_of text.now) }
{
    let Some((word, rest)) = split_word(text) else {
        return Request::Nothing;
    };
    if word == b"change".as_slice() {
        read_change(rest)
    } else if word == b"scan".as_slice() {
        read_scan(rest)
    } else {
        read_command(word, rest)
    }
}

/// What `change` and the words of a text ask for.
fn read_change(words: &[u8]) -> Request<'_>
    ensures { request_of result ≡ change_request (words_of words.now) }
{
    if are_renames(words) {
        Request::Change(words)
    } else {
        Request::Unknown
    }
}

/// Tests whether each word of a text can be a rename.
fn are_renames(words: &[u8]) -> bool
    ensures { result ≡ list_all has_equals (words_of words.now) }
{
    let mut rest = words;
    while let Some((word, more)) = split_word(rest) {
        if !word.contains(&b'=') {
            return false;
        }
        rest = more;
    }
    true
}

/// What `scan` and the words of a text ask for.
#[inline(always)]
fn read_scan(words: &[u8]) -> Request<'_>
    requires { length words.now ≤ 4096 }
    ensures { request_of result ≡ scan_request (words_of words.now) }
{
    let Some((moment, rest)) = split_moment(words) else {
        return Request::Unknown;
    };
    match Pairs::read(rest) {
        Some(pairs) => Request::Scan(moment, pairs),
        None => Request::Unknown,
    }
}

/// What another word and the words of a text ask for.
fn read_command<'a>(word: &'a [u8], rest: &'a [u8]) -> Request<'a>
    ensures { request_of result ≡ command_request word.now (words_of rest.now) }
{
    let Some((path, rest)) = split_word(rest) else {
        return from_one_word(word);
    };
    let Some((value, rest)) = split_word(rest) else {
        return from_two_words(word, path);
    };
    if split_word(rest).is_some() {
        return Request::Unknown;
    }
    from_three_words(word, path, value)
}

/// What one word asks for.
fn from_one_word(word: &[u8]) -> Request<'_>
    ensures { request_of result ≡ word_request word.now }
{
    if word == b"undo".as_slice() {
        Request::Undo
    } else if word == b"reset".as_slice() {
        Request::Reset
    } else if word == b"status".as_slice() {
        Request::Status
    } else {
        Request::Unknown
    }
}

/// What a word and a path ask for.
fn from_two_words<'a>(word: &[u8], path: &'a [u8]) -> Request<'a>
    ensures { request_of result ≡ path_request word.now path.now }
{
    if word == b"show".as_slice() {
        Request::Show(path)
    } else if word == b"release".as_slice() {
        Request::Release(path)
    } else {
        Request::Unknown
    }
}

/// What a word, a path and a value ask for.
fn from_three_words<'a>(word: &[u8], path: &'a [u8], value: &'a [u8]) -> Request<'a>
    ensures { request_of result ≡ value_request word.now path.now value.now }
{
    if word == b"write".as_slice() {
        Request::Write(path, value)
    } else if word == b"force".as_slice() {
        Request::Force(path, value)
    } else {
        Request::Unknown
    }
}
