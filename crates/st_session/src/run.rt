//! Running a program's text: it is loaded, and a session's commands are answered.
ghost use Rattle.std.specs.Prelude.{◌≡◌, ◌≢◌, ◌<◌, ◌^◌, ◌⊎◌, ◌↔◌, ◌||◌, ℕ, [], false, true, Err, Ok, IsTrue, codes, length, take};
ghost use Rattle.std.specs.Io.KnownBytes.{Appends};
ghost use Rattle.st_control.specs.Causes.{too_long};
ghost use Rattle.st_control.specs.Loads.{OfLoad};
ghost use Rattle.st_devices.specs.Pending.{OnBytes, OnReading};
ghost use Rattle.st_session.specs.Replies.{ended};
ghost use Rattle.st_session.specs.Runs.{OfProgram, WritesAll, WritesPart, WritesRead, refusal_status};
ghost use Rattle.st_session.specs.Statuses.{device_failed, no_memory, no_program};

use crate::conversation::{Outcome, session_observed};
use crate::observer::{Observer, Silent};
use crate::reply::Reply;
use st_control::{Controller, Refusal};
use st_devices::{Sink, Source, write_all};
use st_memory::Packed;
use std::alloc::Global;
use std::mem::forget;

/// All was accepted.
pub const ACCEPTED: u8 = 0;

/// The text isn't accepted.
pub const NO_PROGRAM: u8 = 1;

/// Some command was refused.
pub const LINE_REFUSED: u8 = 3;

/// A device failed.
pub const DEVICE_FAILED: u8 = 4;

/// There was no memory.
pub const NO_MEMORY: u8 = 5;

/// Loads the program of the name `main` from a text and answers a session's commands over it, or writes the refusal of the
/// load. Answers the status. The devices have not failed, and `steps` is the step limit of a scan.
///
/// It is what a process does last: what was loaded is left to the system, which takes it at once, while to let go of a
/// large program node by node takes a fifth of its load. Who goes on afterwards calls [`Controller::load`] and [`session`].
pub fn run_text<R: Source, W: Sink>(
    alloc: Global,
    text: &[u8],
    main: &[u8],
    steps: u32,
    source: &mut R,
    sink: &mut W,
) -> u8
    requires source { R.has_failed source.old ≡ false }
    requires sink { W.has_failed sink.old ≡ false }

    // The replies to all commands are written, or the refusal of the load, and then nothing is read.
    ensures all { result ≢ device_failed → result ≢ no_memory
        → OnBytes (R.rest source.old) (λ bytes.
        OfLoad text.now main.now steps
        (WritesAll bytes result (W.taken sink.old) (W.taken sink.new))) }
    ensures refused { result ≡ no_program → source.new ≡ source.old }

    // There was no memory for some command, and the replies to all are written; or there was none before the first command was
    // read, and then nothing is read, and either that is written or nothing.
    ensures memory { result ≡ no_memory
        → OnBytes (R.rest source.old) (λ bytes. OfProgram text.now main.now steps
        (λ c. WritesAll bytes no_memory (W.taken sink.old) (W.taken sink.new) (Ok c)))
        ⊎ ((source.new ≡ source.old) × ((sink.new ≡ sink.old)
        ⊎ Appends (W.taken sink.old) (W.taken sink.new) (ended (codes "refused M")))) }

    // A text that is too long is refused for that alone, also where there is no memory.
    ensures long { 2 ^ 20 < length text.now → result ≢ device_failed → (result ≡ no_program)
        × Appends (W.taken sink.old) (W.taken sink.new) (ended (codes "refused S4 line 1")) }

    // A device has failed, and the run ended there. Where it is the source, the text was loaded, and of the commands that were
    // read whole none is lost.
    ensures part { result ≡ device_failed → OnBytes (R.rest source.old) (λ bytes.
        OfLoad text.now main.now steps (WritesPart bytes (W.taken sink.old) (W.taken sink.new))) }
    ensures read { R.has_failed source.new ≡ true
        → OnReading (R.rest source.old) (R.rest source.new) (λ bytes rest.
        OfProgram text.now main.now steps
        (WritesRead bytes rest (W.taken sink.old) (W.taken sink.new))) }
    ensures failed { IsTrue (R.has_failed source.new || W.has_failed sink.new)
        ↔ (result ≡ device_failed) }
{
    run_text_observed(alloc, text, main, steps, source, sink, &mut Silent)
}

/// Loads the program of the name `main` from a text and answers a session's commands over it, or writes the refusal of the
/// load. Answers the status, and tells the observer of each command. The devices have not failed, and `steps` is the step limit
/// of a scan. What is promised is what [`run_text`] promises, whoever observes.
///
/// It is what a process does last: what was loaded is left to the system, which takes it at once, while to let go of a
/// large program node by node takes a fifth of its load. Who goes on afterwards calls [`Controller::load`] and [`session`].
pub fn run_text_observed<R: Source, W: Sink, O: Observer>(
    alloc: Global,
    text: &[u8],
    main: &[u8],
    steps: u32,
    source: &mut R,
    sink: &mut W,
    observer: &mut O,
) -> u8
    requires source { R.has_failed source.old ≡ false }
    requires sink { W.has_failed sink.old ≡ false }

    // The replies to all commands are written, or the refusal of the load, and then nothing is read.
    ensures all { result ≢ device_failed → result ≢ no_memory
        → OnBytes (R.rest source.old) (λ bytes.
        OfLoad text.now main.now steps
        (WritesAll bytes result (W.taken sink.old) (W.taken sink.new))) }
    ensures refused { result ≡ no_program → source.new ≡ source.old }

    // There was no memory for some command, and the replies to all are written; or there was none before the first command was
    // read, and then nothing is read, and either that is written or nothing.
    ensures memory { result ≡ no_memory
        → OnBytes (R.rest source.old) (λ bytes. OfProgram text.now main.now steps
        (λ c. WritesAll bytes no_memory (W.taken sink.old) (W.taken sink.new) (Ok c)))
        ⊎ ((source.new ≡ source.old) × ((sink.new ≡ sink.old)
        ⊎ Appends (W.taken sink.old) (W.taken sink.new) (ended (codes "refused M")))) }

    // A text that is too long is refused for that alone, also where there is no memory.
    ensures long { 2 ^ 20 < length text.now → result ≢ device_failed → (result ≡ no_program)
        × Appends (W.taken sink.old) (W.taken sink.new) (ended (codes "refused S4 line 1")) }

    // A device has failed, and the run ended there. Where it is the source, the text was loaded, and of the commands that were
    // read whole none is lost.
    ensures part { result ≡ device_failed → OnBytes (R.rest source.old) (λ bytes.
        OfLoad text.now main.now steps (WritesPart bytes (W.taken sink.old) (W.taken sink.new))) }
    ensures read { R.has_failed source.new ≡ true
        → OnReading (R.rest source.old) (R.rest source.new) (λ bytes rest.
        OfProgram text.now main.now steps
        (WritesRead bytes rest (W.taken sink.old) (W.taken sink.new))) }
    ensures failed { IsTrue (R.has_failed source.new || W.has_failed sink.new)
        ↔ (result ≡ device_failed) }
{
    match Controller::load(alloc, text, main, steps) {
        Ok(mut controller) => {
            let status = serve(alloc, &mut controller, source, sink, observer);
            forget(controller);
            status
        }
        Err(refusal) => refuse(alloc, refusal, sink),
    }
}

/// Runs a session over a controller, and answers its status.
fn serve<R: Source, W: Sink, O: Observer>(
    alloc: Global,
    controller: &mut Controller<Packed>,
    source: &mut R,
    sink: &mut W,
    observer: &mut O,
) -> u8
    requires source { R.has_failed source.old ≡ false }
    requires sink { W.has_failed sink.old ≡ false }
    ensures all { result ≢ device_failed → result ≢ no_memory
        → OnBytes (R.rest source.old) (λ bytes.
        WritesAll bytes result (W.taken sink.old) (W.taken sink.new) (Ok controller.old)) }
    ensures loaded { result ≢ no_program }
    ensures memory { result ≡ no_memory → OnBytes (R.rest source.old) (λ bytes.
        WritesAll bytes no_memory (W.taken sink.old) (W.taken sink.new) (Ok controller.old))
        ⊎ ((source.new ≡ source.old) × (sink.new ≡ sink.old)) }
    ensures part { result ≡ device_failed → OnBytes (R.rest source.old) (λ bytes.
        WritesPart bytes (W.taken sink.old) (W.taken sink.new) (Ok controller.old)) }
    ensures read { R.has_failed source.new ≡ true
        → OnReading (R.rest source.old) (R.rest source.new) (λ bytes rest.
        WritesRead bytes rest (W.taken sink.old) (W.taken sink.new) controller.old) }
    ensures failed { IsTrue (R.has_failed source.new || W.has_failed sink.new)
        ↔ (result ≡ device_failed) }
{
    match session_observed(alloc, controller, source, sink, observer) {
        Outcome::Clean => ACCEPTED,
        Outcome::Refused => LINE_REFUSED,
        Outcome::Memory => NO_MEMORY,
        Outcome::Device => DEVICE_FAILED,
    }
}

/// Writes a refusal, and answers its status. Where there is no memory for its text, that is what is refused; a text that is
/// too long needs none.
pub(crate) fn refuse<W: Sink>(alloc: Global, refusal: Refusal, sink: &mut W) -> u8
    requires { W.has_failed sink.old ≡ false }
    ensures all { result ≢ device_failed → result ≢ no_memory
        → WritesAll [] result (W.taken sink.old) (W.taken sink.new) (Err refusal) }
    ensures memory { result ≡ no_memory → (refusal ≢ too_long)
        × Appends (W.taken sink.old) (W.taken sink.new) (ended (codes "refused M")) }
    ensures part { result ≡ device_failed
        → WritesPart [] (W.taken sink.old) (W.taken sink.new) (Err refusal)
        ⊎ ((refusal ≢ too_long)
        × WritesPart [] (W.taken sink.old) (W.taken sink.new) (Err Refusal.M)) }
    ensures failed { IsTrue (W.has_failed sink.new) ↔ (result ≡ device_failed) }
{
    if is_too_long(refusal) {
        return tell(sink, b"refused S4 line 1\n", NO_PROGRAM);
    }
    match Reply::new(alloc) {
        Ok(mut reply) => {
            reply.refuse(refusal);
            tell(sink, reply.as_slice(), status_of(refusal))
        }
        Err(_) => tell(sink, b"refused M\n", NO_MEMORY),
    }
}

/// Tests whether the text is longer than a text may be.
fn is_too_long(refusal: Refusal) -> bool
    ensures yes { result ≡ true → refusal ≡ too_long }
    ensures no { result ≡ false → refusal ≢ too_long }
{
    matches!(refusal, Refusal::S { number: 4, line: 1 })
}

/// The status of a refusal.
fn status_of(refusal: Refusal) -> u8
    ensures { result ≡ refusal_status refusal }
{
    match refusal {
        Refusal::M => NO_MEMORY,
        _ => NO_PROGRAM,
    }
}

/// Writes a text and answers the status, or that a device failed.
pub(crate) fn tell<W: Sink>(sink: &mut W, text: &[u8], status: u8) -> u8
    requires works { W.has_failed sink.old ≡ false }
    requires other { status ≢ device_failed }
    ensures all { result ≢ device_failed
        → (result ≡ status) × Appends (W.taken sink.old) (W.taken sink.new) text.now }
    ensures part { result ≡ device_failed → (count : ℕ)
        × Appends (W.taken sink.old) (W.taken sink.new) (take count text.now) }
    ensures failed { IsTrue (W.has_failed sink.new) ↔ (result ≡ device_failed) }
{
    match write_all(sink, text) {
        Ok(()) => status,
        Err(_) => DEVICE_FAILED,
    }
}
