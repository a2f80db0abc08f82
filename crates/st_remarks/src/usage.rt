//! What is wrong with a line that a session hasn't.
use crate::words::{Spot, Words, first_word, second_word};
use st_devices::MAX_LINE_BYTES;

/// What is wrong with a line that a session hasn't.
#[derive(Clone, Copy)]
pub enum Complaint<'a> {
    /// It is longer than a line may be.
    TooLong,
    /// Its first word is no command.
    NoCommand(Spot<'a>),
    /// Its first word is a command in other letters than small ones.
    Capitals(Spot<'a>, &'static str),
    /// The moment of a scan isn't one.
    Moment(Spot<'a>),
    /// A word of a scan has no `:=`.
    Pair(Spot<'a>),
    /// A word of a change has no `=`.
    Rename(Spot<'a>),
    /// The text of a change isn't ended.
    Unended(Spot<'a>),
    /// A `:=` or an `=` stands where none may.
    Sign(Spot<'a>, &'static str),
    /// It has too few words or too many.
    Words(Spot<'a>, &'static str),
}

/// The commands of a session.
pub const COMMANDS: [&str; 9] = [
    "show", "write", "force", "release", "scan", "reset", "change", "undo", "status",
];

/// How a command is written, where a text is its word.
fn usage_of(word: &[u8]) -> Option<&'static str> {
    match word {
        b"show" => Some("show PATH"),
        b"write" => Some("write PATH VALUE"),
        b"force" => Some("force PATH VALUE"),
        b"release" => Some("release PATH"),
        b"scan" => Some("scan MOMENT PATH:=VALUE .."),
        b"change" => Some("change OLD=NEW .."),
        b"undo" => Some("undo"),
        b"reset" => Some("reset"),
        b"status" => Some("status"),
        _ => None,
    }
}

/// How the command is written whose word a text is, ignoring case.
fn usage_in_capitals(word: &[u8]) -> Option<&'static str> {
    for command in COMMANDS {
        if word.eq_ignore_ascii_case(command.as_bytes()) {
            return usage_of(command.as_bytes());
        }
    }
    None
}

/// What is wrong with a line that a session hasn't.
pub fn complaint_of(line: &[u8]) -> Complaint<'_> {
    let Some(first) = first_word(line) else {
        return Complaint::TooLong;
    };
    if line.len() >= MAX_LINE_BYTES {
        return Complaint::TooLong;
    }
    match usage_of(first.word) {
        Some(usage) => complaint_of_command(line, first, usage),
        None => match usage_in_capitals(first.word) {
            Some(usage) => Complaint::Capitals(first, usage),
            None => Complaint::NoCommand(first),
        },
    }
}

/// What is wrong with a line whose first word is that of a command.
fn complaint_of_command<'a>(line: &'a [u8], first: Spot<'a>, usage: &'static str) -> Complaint<'a> {
    match first.word {
        b"scan" => complaint_of_scan(line, first, usage),
        b"change" => match word_without(line, 1, b"=") {
            Some(spot) => Complaint::Rename(spot),
            None => Complaint::Unended(first),
        },
        _ => match sign_in(line) {
            Some(spot) => Complaint::Sign(spot, usage),
            None => Complaint::Words(first, usage),
        },
    }
}

/// What is wrong with a scan that a session hasn't.
fn complaint_of_scan<'a>(line: &'a [u8], first: Spot<'a>, usage: &'static str) -> Complaint<'a> {
    let Some(moment) = second_word(line) else {
        return Complaint::Words(first, usage);
    };
    if !moment.word.iter().all(|byte| byte.is_ascii_digit()) {
        return Complaint::Moment(moment);
    }
    match word_without(line, 2, b":=") {
        Some(spot) => Complaint::Pair(spot),
        None => Complaint::Words(first, usage),
    }
}

/// The first word of a line behind so many others in which a sign doesn't stand.
fn word_without<'a>(line: &'a [u8], skipped: usize, sign: &[u8]) -> Option<Spot<'a>> {
    let mut words = Words::of(line);
    let mut seen: usize = 0;
    while let Some(spot) = words.take() {
        if seen >= skipped && !has_sign(spot.word, sign) {
            return Some(spot);
        }
        seen = seen.saturating_add(1);
    }
    None
}

/// Tests whether a sign stands in a word.
fn has_sign(word: &[u8], sign: &[u8]) -> bool {
    for at in 0..word.len() {
        if word[at..].starts_with(sign) {
            return true;
        }
    }
    false
}

/// The first word of a line that is `:=` or `=`, or begins or ends so.
fn sign_in(line: &[u8]) -> Option<Spot<'_>> {
    let mut words = Words::of(line);
    while let Some(spot) = words.take() {
        if has_sign(spot.word, b"=") {
            return Some(spot);
        }
    }
    None
}
