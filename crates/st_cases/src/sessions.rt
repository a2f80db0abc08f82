//! Sessions over each kind of memory, and whether they have the replies that are wanted.
ghost use Rattle.std.specs.Prelude.{◌≡◌, ◌<◌, IsNone};

use st_memory::{Cells, Memory, Packed};
use st_session::control::{Controller, Refusal};
use st_session::{Bytes, Outcome, Sheet, Sink, session};
use std::alloc::Global;

/// More calls than a session makes.
pub const ALL_GOOD: u64 = 1 << 40;

/// The size of a piece that holds most texts.
pub const LARGE_PIECE: usize = 4096;

/// How many steps a scan may take where a session doesn't say it.
pub const STEPS: u32 = 100_000;

/// The program of most cases that are made by code.
pub const FIRST: &[u8] =
    b"PROGRAM Main VAR A : INT := 3; B : BOOL; END_VAR A := A + 1; END_PROGRAM";

/// The name of the program, as texts declare it.
pub const MAIN: &[u8] = b"Main";

/// A session over a text: how many steps a scan may take, what an operator types, and the replies that are wanted.
#[derive(Clone, Copy)]
pub struct Session<'a> {
    pub text: &'a [u8],
    pub steps: u32,
    pub typed: &'a [u8],
    pub replies: &'a str,
}

/// How a session fails: the way in which it is run, and the first line that is wanted and doesn't come.
#[derive(Clone, Copy)]
pub struct Failure<'a> {
    pub way: &'static str,
    pub line: &'a str,
}

impl<'a> Session<'a> {
    /// How the session fails over one kind of memory, or over the other, byte by byte.
    pub fn failure(self, alloc: Global) -> Option<Failure<'a>> {
        if let Some(line) = self.lost_over::<Cells>(alloc, LARGE_PIECE) {
            return Some(Failure {
                way: "over Cells",
                line,
            });
        }
        let line = self.lost_over::<Packed>(alloc, 1)?;
        Some(Failure {
            way: "over Packed, byte by byte",
            line,
        })
    }

    /// The first line that is wanted and doesn't come over a kind of memory, where the session is read and answered by pieces of so
    /// many bytes.
    fn lost_over<M: Memory>(self, alloc: Global, piece: usize) -> Option<&'a str>
        requires { 0 < piece }
    {
        let loaded: Result<Controller<M>, Refusal> = Controller::load(
            alloc, self.text, MAIN, self.steps,
        );
        let Ok(mut controller) = loaded else {
            return Some("of a text that is accepted");
        };
        let mut source = Bytes::new(self.typed, piece, ALL_GOOD);
        let mut sheet = Sheet::new(alloc, piece, ALL_GOOD);
        let outcome = session(alloc, &mut controller, &mut source, &mut sheet);
        lost_line(
            outcome,
            sheet.written(),
            outcome_of(self.replies),
            self.replies,
        )
    }
}

/// The first line that is wanted and wasn't written, where the session ended otherwise, or something else was written.
fn lost_line<'a>(came: Outcome, written: &[u8], due: Outcome, wanted: &'a str) -> Option<&'a str>
    ensures outcome { IsNone result → came ≡ due }
    ensures written { IsNone result → written.now ≡ wanted.entry.now }
{
    if written != wanted.as_bytes() {
        Some(first_lost(written, wanted))
    } else if came != due {
        Some("of the status that these replies have")
    } else {
        None
    }
}

/// The first line that is wanted and wasn't written in its place.
fn first_lost<'a>(written: &[u8], wanted: &'a str) -> &'a str {
    let mut rest = written;
    for line in wanted.split_inclusive('\n') {
        match rest.strip_prefix(line.as_bytes()) {
            Some(behind) => rest = behind,
            None => return line.trim_end(),
        }
    }
    "behind which no more comes"
}

/// How a session with these replies ends: some line is refused, or a fault ends some scan, or neither.
fn outcome_of(replies: &str) -> Outcome {
    for reply in replies.split('\n') {
        if reply.starts_with("refused") || reply.starts_with("fault") {
            return Outcome::Refused;
        }
    }
    Outcome::Clean
}
