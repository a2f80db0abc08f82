//! Sessions, checks and layouts over devices of all kinds, and over those that fail.
ghost use Rattle.std.specs.Prelude.{◌<◌};

use crate::made::Made;
use crate::sessions::{ALL_GOOD, FIRST, LARGE_PIECE, MAIN};
use st_session::{
    ACCEPTED, Bytes, DEVICE_FAILED, FromReader, NO_PROGRAM, Sheet, Sink, Source, ToWriter,
    check_text, layout_text, run_text,
};
use std::alloc::Global;

const SESSION: &[u8] = b"write main.a 5\nshow Main.A\nundo\nshow Main.A\n";

const REPLIES: &[u8] = b"ok\nMain.A = 5\nok\nMain.A = 3\n";

/// What is asked of a text.
#[derive(Clone, Copy)]
enum Question {
    /// Whether it is accepted.
    Check,
    /// The leaves of its program.
    Layout,
}

/// Questions whose answer is cut off behind each number of bytes below this.
const CUT_OFF: [(&str, Question, &[u8], u64); 3] = [
    ("a check whose sink fails", Question::Check, FIRST, 2),
    ("a refusal whose sink fails", Question::Check, b"(* open", 2),
    ("a layout whose sink fails", Question::Layout, FIRST, 20),
];

pub fn run(alloc: Global, made: &mut Made) {
    for piece in 1..7 {
        let is_run = ends_so(alloc, MAIN, piece, ALL_GOOD, (ACCEPTED, REPLIES));
        made.count("pieces of some bytes", is_run);
    }
    made.count("a reader and a writer", comes_by_readers(alloc));
    let refusal = (NO_PROGRAM, b"refused C10 line 0\n".as_slice());
    let is_refused = ends_so(alloc, b"Other", LARGE_PIECE, ALL_GOOD, refusal);
    made.count("a program that isn't there", is_refused);
    // The first line is read with its line feed, and of the second a part.
    let is_answered = ends_so(alloc, MAIN, 20, 1, (DEVICE_FAILED, b"ok\n"));
    made.count("a source that fails", is_answered);
    for (name, question, text, bytes) in CUT_OFF {
        made.count(name, is_cut_off_at_each(alloc, question, text, bytes));
    }
}

/// Whether the session over the program of a name ends with this status and these replies. Its source and its sink have pieces of so many
/// bytes, and the source fails after so many of them.
fn ends_so(alloc: Global, program: &[u8], piece: usize, reads: u64, end: (u8, &[u8])) -> bool
    requires { 0 < piece }
{
    let mut source = Bytes::new(SESSION, piece, reads);
    let mut sink = Sheet::new(alloc, piece, ALL_GOOD);
    let status = run_text(alloc, FIRST, program, 8, &mut source, &mut sink);
    (status, sink.written()) == end
}

/// Whether it comes out over a reader and a writer of the library.
fn comes_by_readers(alloc: Global) -> bool {
    let mut written = Vec::new(alloc);
    let mut source = FromReader::new(SESSION);
    let mut sink = ToWriter::new(&mut written);
    let status = run_text(alloc, FIRST, MAIN, 8, &mut source, &mut sink);
    let has_failed = source.failed() || sink.failed();
    status == ACCEPTED && !has_failed && written.as_slice() == REPLIES
}

/// Whether the answer to a question is cut off behind each number of bytes below this.
fn is_cut_off_at_each(alloc: Global, question: Question, text: &[u8], bytes: u64) -> bool {
    for calls in 0..bytes {
        if !is_cut_off(alloc, question, text, calls) {
            return false;
        }
    }
    true
}

/// Whether of the answer to a question a beginning is written where its device fails behind so many bytes, and that is the status.
fn is_cut_off(alloc: Global, question: Question, text: &[u8], calls: u64) -> bool {
    let mut sink = Sheet::new(alloc, 1, calls);
    let status = match question {
        Question::Check => check_text(alloc, text, b"mAIN", &mut sink),
        Question::Layout => layout_text(alloc, text, b"mAIN", &mut sink),
    };
    status == DEVICE_FAILED && sink.written().len() as u64 == calls
}
