//! Sessions by pieces of all sizes, which may end at each byte, and whose devices may fail: what was read whole is done, and answered
//! as far as the sink takes it.
ghost use Rattle.std.specs.Prelude.{◌<◌};

use crate::made::Made;
use crate::made::stages::{LAST, Side, len_to, stage_cut, stage_within, stands_at, whole};
use crate::sessions::{ALL_GOOD, FIRST, LARGE_PIECE, MAIN, STEPS};
use st_memory::{Cells, Memory, Packed};
use st_session::control::{Controller, Refusal};
use st_session::{Bytes, Outcome, Sheet, Sink, session};
use std::alloc::Global;

/// The session: all that is typed, and all that is replied.
#[derive(Clone, Copy)]
struct Session<'a> {
    typed: &'a [u8],
    replied: &'a [u8],
}

/// What is typed, by pieces of how many bytes it is read and the replies are written, and after how many of them each device fails.
#[derive(Clone, Copy)]
struct Devices<'a> {
    lines: &'a [u8],
    read_by: usize,
    reads: u64,
    write_by: usize,
    writes: u64,
}

/// How a session ends: with these replies and a last one, as after a stage.
#[derive(Clone, Copy)]
struct End<'a> {
    outcome: Outcome,
    replies: &'a [u8],
    last: &'a [u8],
    stage: usize,
}

pub fn run(alloc: Global, made: &mut Made) {
    let (Ok(typed), Ok(replied)) = (whole(alloc, Side::Typed), whole(alloc, Side::Replied)) else {
        made.count("sessions in pieces", false);
        return;
    };
    let session = Session {
        typed: &typed,
        replied: &replied,
    };
    run_over::<Cells>(alloc, made, session);
    run_over::<Packed>(alloc, made, session);
}

/// Runs the cases over a kind of memory.
fn run_over<M: Memory>(alloc: Global, made: &mut Made, session: Session<'_>) {
    for piece in 1..17 {
        made.count(
            "pieces of 1 to 16 bytes",
            session.comes_in_pieces::<M>(alloc, piece),
        );
        made.count(
            "each read fails",
            session.ends_at_each_read::<M>(alloc, piece),
        );
    }
    for piece in [1, LARGE_PIECE] {
        made.count(
            "an end at each byte",
            session.ends_at_each_byte::<M>(alloc, piece),
        );
    }
    made.count("each write fails", session.ends_at_each_write::<M>(alloc));
    made.count(
        "a sink that fails",
        session.loses_its_sink::<M>(alloc, 3, 2),
    );
}

impl<'a> Session<'a> {
    /// What is replied up to a stage.
    fn replied_to(self, stage: usize) -> &'a [u8] {
        self.replied
            .get(..len_to(Side::Replied, stage))
            .unwrap_or(b"")
    }

    /// Whether the session comes out where it is read by so many bytes, and written byte by byte.
    fn comes_in_pieces<M: Memory>(self, alloc: Global, piece: usize) -> bool
        requires { 0 < piece }
    {
        let devices = Devices {
            lines: self.typed,
            read_by: piece,
            reads: ALL_GOOD,
            write_by: 1,
            writes: ALL_GOOD,
        };
        let end = End {
            outcome: Outcome::Refused,
            replies: self.replied,
            last: b"",
            stage: LAST,
        };
        ends_so::<M>(alloc, devices, end)
    }

    /// Whether the session ends with its source, by pieces of so many bytes, wherever that fails: what it read whole is done and
    /// answered.
    fn ends_at_each_read<M: Memory>(self, alloc: Global, piece: usize) -> bool
        requires { 0 < piece }
    {
        for calls in 0..self.typed.len().div_ceil(piece).saturating_add(1) {
            let (stage, _) = stage_within(Side::Typed, calls.saturating_mul(piece));
            let devices = Devices {
                lines: self.typed,
                read_by: piece,
                reads: calls as u64,
                write_by: 1,
                writes: ALL_GOOD,
            };
            let end = End {
                outcome: Outcome::Device,
                replies: self.replied_to(stage),
                last: b"",
                stage,
            };
            if !ends_so::<M>(alloc, devices, end) {
                return false;
            }
        }
        true
    }

    /// Whether the session is answered wherever it ends: each command that was read whole as ever, and what is left of the next too.
    fn ends_at_each_byte<M: Memory>(self, alloc: Global, piece: usize) -> bool
        requires { 0 < piece }
    {
        for bytes in 0..self.typed.len() {
            let (read, rest) = stage_within(Side::Typed, bytes);
            let (stage, last) = stage_cut(read, rest);
            let devices = Devices {
                lines: &self.typed[..bytes],
                read_by: piece,
                reads: ALL_GOOD,
                write_by: LARGE_PIECE,
                writes: ALL_GOOD,
            };
            let end = End {
                outcome: outcome_of(last),
                replies: self.replied_to(read),
                last,
                stage,
            };
            if !ends_so::<M>(alloc, devices, end) {
                return false;
            }
        }
        true
    }

    /// Whether the session ends with its sink, wherever that fails.
    fn ends_at_each_write<M: Memory>(self, alloc: Global) -> bool {
        for calls in 0..self.replied.len() {
            if !self.loses_its_sink::<M>(alloc, 1, calls) {
                return false;
            }
        }
        true
    }

    /// Whether a session ends with its sink, which takes so many pieces: the command is done whose reply doesn't get through.
    fn loses_its_sink<M: Memory>(self, alloc: Global, piece: usize, calls: usize) -> bool
        requires { 0 < piece }
    {
        let bytes = calls.saturating_mul(piece);
        let (replied, _) = stage_within(Side::Replied, bytes);
        let devices = Devices {
            lines: self.typed,
            read_by: LARGE_PIECE,
            reads: ALL_GOOD,
            write_by: piece,
            writes: calls as u64,
        };
        let end = End {
            outcome: Outcome::Device,
            replies: self.replied.get(..bytes).unwrap_or(b""),
            last: b"",
            stage: replied.saturating_add(1),
        };
        ends_so::<M>(alloc, devices, end)
    }
}

/// How a session ends whose last line has this reply.
fn outcome_of(reply: &[u8]) -> Outcome {
    if reply.starts_with(b"refused") {
        Outcome::Refused
    } else {
        Outcome::Clean
    }
}

/// Whether a session over these devices ends so.
fn ends_so<M: Memory>(alloc: Global, devices: Devices<'_>, end: End<'_>) -> bool
    requires read_by { 0 < devices.read_by }
    requires write_by { 0 < devices.write_by }
{
    let loaded: Result<Controller<M>, Refusal> = Controller::load(alloc, FIRST, MAIN, STEPS);
    let Ok(mut controller) = loaded else {
        return false;
    };
    let mut source = Bytes::new(devices.lines, devices.read_by, devices.reads);
    let mut sink = Sheet::new(alloc, devices.write_by, devices.writes);
    let outcome = session(alloc, &mut controller, &mut source, &mut sink);
    outcome == end.outcome
        && sink.written().strip_prefix(end.replies) == Some(end.last)
        && stands_at(&controller, end.stage)
}
