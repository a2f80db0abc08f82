//! From the words of the command line, over the source file and standard input and output, to the status of the process.
ghost use Rattle.std.specs.Prelude.{◌≡◌, ◌≢◌, ◌⊎◌, ◌↔◌, ◌||◌, ◌+◌, ◌<◌, ◌^◌, [], List, Ok, false, true, IfOk, IfSome, IsTrue, codes, length, map, take};
ghost use Rattle.std.specs.Io.KnownBytes.{Appends};
ghost use Rattle.std.specs.IoError.{error_kind};
ghost use Rattle.std.specs.String.{string_bytes};
ghost use Rattle.clap.specs.Words.{Text, kind_of};
ghost use Rattle.st_session.specs.Loads.{OfLoad};
ghost use Rattle.st_session.specs.Texts.{OfCheck};
ghost use Rattle.st_devices.specs.Pending.{OnBytes, OnReading};
ghost use Rattle.st_session.specs.Checks.{TellsAll, TellsPart};
ghost use Rattle.st_session.specs.Layouts.{ListsAll, ListsPart, OfLayout};
ghost use Rattle.st_session.specs.Replies.{ended};
ghost use Rattle.st_session.specs.Runs.{OfProgram, WritesAll, WritesPart, WritesRead};
ghost use Rattle.st_session.specs.Statuses.{device_failed, no_memory, no_program};
ghost use Rattle.st_explain.specs.Messages.{Explains};
ghost use Rattle.st_driver.specs.Statuses.{EndsAsCheck, EndsAsLayout, EndsAsOrdered, EndsAsRun, EndsBy, EndsByWords, error_status, usage};

use crate::refused::TextExplainer;
use clap::error::ErrorKind;
use st_devices::{FromReader, Sink, Source, ToWriter};
use st_explain::explain_faults;
use st_remarks::Remarks;
use st_session::{
    ACCEPTED, DEVICE_FAILED, NO_MEMORY, NO_PROGRAM, Observer, Silent, check_text, layout_text,
    run_text_observed,
};
use st_tokens::MAX_TEXT_BYTES;
use st_words::{Manner, Order, Verb, read_order};
use std::alloc::{AllocError, Global};
use std::convert::AsStr;
use std::fs::File;
use std::io::{self, Read};
use std::rt::{Env, Files};

/// The most bytes that are read of a file: one more than a text may have, so that a longer text is seen to be too long.
const MAX_READ_BYTES: u64 = MAX_TEXT_BYTES as u64 + 1;

/// The words are at fault.
const USAGE: u8 = 2;

/// The most bytes of a list that the C library is to keep; its own limit is 32 MiB, with what it adds.
const KEPT_BYTES: usize = 31 * 1_048_576;

/// Does what the program's words order, and answers its status.
///
/// No clause knows the words that it was started with. So of some words the status is theirs.
pub fn run<R: Env + Files + Input + Print + Eprint + AllocGlobal>(rt: &R) -> u8
    ensures { (result ≡ no_memory) ⊎ (result ≡ usage)
        ⊎ ((words : List Text) × EndsByWords words result) }
{
    match given_words(rt) {
        Ok(words) => obey_given(rt, words.as_slice()),
        Err(error) => explain_words(rt, &error),
    }
}

/// Obeys the words. `stc help` stands for `stc --help`, and `stc help run` for `stc run --help`.
fn obey_given<R: Files + Input + Print + Eprint + AllocGlobal>(rt: &R, words: &[String]) -> u8
    ensures { (meant : List Text) × EndsByWords meant result }
{
    match words {
        [own, help] if help.as_str() == "help" => obey_words(rt, &[own.as_str(), "--help"]),
        [own, help, verb] if help.as_str() == "help" => {
            obey_words(rt, &[own.as_str(), verb.as_str(), "--help"])
        }
        _ => obey_words(rt, words),
    }
}

/// Says that a word can't be read, where there is memory, and answers the status.
fn explain_words<R: Eprint>(rt: &R, error: &io::Error) -> u8
    ensures { result ≡ error_status (error_kind error.now) usage }
{
    if error.kind() == io::ErrorKind::OutOfMemory {
        return NO_MEMORY;
    }
    let _ = eprintln!(rt; "error: a word is not text in UTF-8");
    USAGE
}

/// The program's words, of which the first is its own name.
fn given_words<R: Env + AllocGlobal>(rt: &R) -> io::Result<Vec<String>> {
    let words = std::env::args(rt)?;
    Ok(words.collect(rt.alloc())?)
}

/// Obeys the words, of which the first is the program's own name, or says why they are no order, and answers the status.
fn obey_words<R: Files + Input + Print + Eprint + AllocGlobal, S: AsStr>(rt: &R, words: &[S]) -> u8
    ensures { EndsByWords (map S.text words.now) result }
{
    match read_order(rt.alloc(), words) {
        Ok((order, manner)) => obey(rt, order, manner),
        Err(error) => explain(rt, &error),
    }
}

/// Writes the help or the version that was asked for, or what is wrong with the words, and answers the status.
fn explain<R: Print + Eprint>(rt: &R, error: &clap::Error) -> u8
    ensures { EndsBy (kind_of error.now) result }
{
    let status = match error.kind() {
        ErrorKind::OutOfMemory => return NO_MEMORY,
        ErrorKind::DisplayHelp | ErrorKind::DisplayVersion => ACCEPTED,
        _ => USAGE,
    };
    match error.print(rt) {
        Ok(()) => status,
        Err(_) => DEVICE_FAILED,
    }
}

/// Reads the source text and does with it what is ordered.
///
/// No clause knows what the file holds. So of some text the status is its.
fn obey<R: Files + Input + Print + Eprint + AllocGlobal>(
    rt: &R,
    order: Order<'_>,
    manner: Manner,
) -> u8
    ensures check { EndsAsCheck order.entry result }
    ensures layout { EndsAsLayout order.entry result }
    ensures run { EndsAsRun order.entry result }
{
    keep_freed_memory(rt.alloc());
    match read_source(rt, order.file) {
        Ok(text) => answer(rt, order, manner, text.as_slice()),
        Err(error) => explain_file(rt, order.file, &error),
    }
}

/// Has the C library keep the memory of lists that are given back, for later lists.
///
/// It gives the memory of a long list back to the system, and takes a fresh one for the next, until a list as long as that was given
/// back: from then on it keeps what is below that length. So this takes `KEPT_BYTES`, never touches them, and gives them back at once.
/// Where they aren't there, all goes on as before.
fn keep_freed_memory(alloc: Global) {
    let room: Result<Vec<u8>, AllocError> = Vec::with_capacity(alloc, KEPT_BYTES);
    drop(room);
}

/// Does with the source text what is ordered, and says why it is refused where it is.
fn answer<R: Input + Print + Eprint + AllocGlobal>(
    rt: &R,
    order: Order<'_>,
    manner: Manner,
    text: &[u8],
) -> u8
    ensures { EndsAsOrdered order.entry text.now result }
{
    let status = serve(rt, order, manner, text);
    if let Ok(told) = told_of(rt.alloc(), order, manner, text, status)
        && !told.is_empty()
    {
        let _ = eprint!(rt; "{told}");
    }
    status
}

/// What a person is told of a source text that ended with this status: where it is refused, why that is, unless it is to be quiet.
fn told_of(
    alloc: Global,
    order: Order<'_>,
    manner: Manner,
    text: &[u8],
    status: u8,
) -> Result<String, AllocError>
    ensures refused { status ≡ no_program → manner.quiet ≡ false → IfOk result (λ told.
        Explains manner.all order.entry.file.now text.now order.entry.main.now (string_bytes told)) }
    ensures quiet { manner.quiet ≡ true → IfOk result (λ told. string_bytes told ≡ []) }
    ensures other { status ≢ no_program → IfOk result (λ told. string_bytes told ≡ []) }
{
    if manner.quiet || status != NO_PROGRAM {
        return Ok(String::new(alloc));
    }
    explain_faults(alloc, order.file, text, order.main.as_bytes(), manner.all)
}

/// Says that the file can't be read, where there is memory, and answers the status.
fn explain_file<R: Eprint>(rt: &R, file: &str, error: &io::Error) -> u8
    ensures { result ≡ error_status (error_kind error.now) device_failed }
{
    if error.kind() == io::ErrorKind::OutOfMemory {
        return NO_MEMORY;
    }
    let _ = match reason_of(error.kind()) {
        Some(reason) => eprintln!(rt; "cannot read {file}: {reason}"),
        None => eprintln!(rt; "cannot read {file}: {error}"),
    };
    DEVICE_FAILED
}

/// Why a file can't be read, of the kinds of errors that people meet most. What the system says of the others is shown.
fn reason_of(kind: io::ErrorKind) -> Option<&'static str> {
    match kind {
        io::ErrorKind::IsADirectory => Some("it is a folder"),
        io::ErrorKind::NotFound => Some("there is no such file"),
        io::ErrorKind::NotADirectory => Some("a part of its path is no folder"),
        io::ErrorKind::PermissionDenied => Some("it may not be read by this user"),
        _ => None,
    }
}

/// The text of the file, or the beginning of a longer one than a text may be.
fn read_source<R: Files + AllocGlobal>(rt: &R, path: &str) -> io::Result<Vec<u8>> {
    read_text(rt.alloc(), std::fs::open(rt, path)?)
}

/// As much of what the reader gives as a source text may have, and one byte more.
fn read_text<R: Read + Drop>(alloc: Global, reader: R) -> io::Result<Vec<u8>>
    ensures { IfOk result (λ text. IfSome (R.remaining reader)
        (λ bytes. text.items ≡ take (2 ^ 20 + 1) bytes)) }
{
    let mut text = Vec::new(alloc);
    reader.take(MAX_READ_BYTES).read_to_end(&mut text)?;
    Ok(text)
}

/// Does with the source text what is ordered, on standard input and output, and remarks on the session unless it is to be quiet.
fn serve<R: Input + Print + Eprint + AllocGlobal>(
    rt: &R,
    order: Order<'_>,
    manner: Manner,
    text: &[u8],
) -> u8
    ensures { EndsAsOrdered order.entry text.now result }
{
    if manner.quiet {
        return serve_observed(rt, order, text, &mut Silent);
    }
    let mut remarks = Remarks::new(rt, TextExplainer, text, order.main.as_bytes());
    serve_observed(rt, order, text, &mut remarks)
}

/// Does with the source text what is ordered, on standard input and output, before an observer.
///
/// No clause knows the bytes of standard input. So of some commands the status is theirs.
fn serve_observed<R: Input + Print + AllocGlobal, O: Observer>(
    rt: &R,
    order: Order<'_>,
    text: &[u8],
    observer: &mut O,
) -> u8
    ensures { EndsAsOrdered order.entry text.now result }
{
    let mut source = FromReader::new(rt.reader());
    let mut sink = ToWriter::new(io::writer(rt));
    obey_text(rt.alloc(), order, text, &mut source, &mut sink, observer)
}

/// Does with a source text what is ordered, on devices that haven't failed, tells the observer of each line of a session, and answers the
/// status. What is promised is the same, whoever observes.
///
/// Where the verb is `check`, that is what `check_text` does with the main program of the order; where it is `layout`, what
/// `layout_text` does with it; and where it is `run`, what `run_text` does with it under the step limit of the order.
pub fn obey_text<R: Source, W: Sink, O: Observer>(
    alloc: Global,
    order: Order<'_>,
    text: &[u8],
    source: &mut R,
    sink: &mut W,
    observer: &mut O,
) -> u8
    requires source { R.has_failed source.old ≡ false }
    requires sink { W.has_failed sink.old ≡ false }

    // What the check answers is written, or a beginning of it where the device failed. Nothing is read.
    ensures check_all { order.entry.verb ≡ Verb.Check →
        result ≢ device_failed → result ≢ no_memory
        → OfCheck text.now order.entry.main.now (TellsAll result (W.taken sink.old) (W.taken sink.new)) }
    ensures check_memory { order.entry.verb ≡ Verb.Check → result ≡ no_memory
        → Appends (W.taken sink.old) (W.taken sink.new) (ended (codes "refused M")) }
    ensures check_part { order.entry.verb ≡ Verb.Check → result ≡ device_failed
        → OfCheck text.now order.entry.main.now (TellsPart (W.taken sink.old) (W.taken sink.new)) }
    ensures check_source { order.entry.verb ≡ Verb.Check → source.new ≡ source.old }

    // The lines of all leaves are written, or the refusal, or a beginning of that where the device failed. Nothing is read.
    ensures layout_all { order.entry.verb ≡ Verb.Layout →
        result ≢ device_failed → result ≢ no_memory
        → OfLayout text.now order.entry.main.now (ListsAll result (W.taken sink.old) (W.taken sink.new)) }
    ensures layout_memory { order.entry.verb ≡ Verb.Layout → result ≡ no_memory
        → Appends (W.taken sink.old) (W.taken sink.new) (ended (codes "refused M")) }
    ensures layout_part { order.entry.verb ≡ Verb.Layout → result ≡ device_failed
        → OfLayout text.now order.entry.main.now (ListsPart (W.taken sink.old) (W.taken sink.new)) }
    ensures layout_source { order.entry.verb ≡ Verb.Layout → source.new ≡ source.old }

    // The replies to all commands are written, or the refusal of the load, and then nothing is read.
    ensures run_all { order.entry.verb ≡ Verb.Run →
        result ≢ device_failed → result ≢ no_memory
        → OnBytes (R.rest source.old) (λ bytes. OfLoad text.now order.entry.main.now order.entry.steps
        (WritesAll bytes result (W.taken sink.old) (W.taken sink.new))) }
    ensures run_refused { order.entry.verb ≡ Verb.Run → result ≡ no_program
        → source.new ≡ source.old }

    // There was no memory for some command, and the replies to all are written; or there was none before the first command was
    // read, and then nothing is read, and either that is written or nothing.
    ensures run_memory { order.entry.verb ≡ Verb.Run → result ≡ no_memory
        → OnBytes (R.rest source.old) (λ bytes. OfProgram text.now order.entry.main.now order.entry.steps
        (λ c. WritesAll bytes no_memory (W.taken sink.old) (W.taken sink.new) (Ok c)))
        ⊎ ((source.new ≡ source.old) × ((sink.new ≡ sink.old)
        ⊎ Appends (W.taken sink.old) (W.taken sink.new) (ended (codes "refused M")))) }

    // A device has failed, and the run ended there. Where it is the source, the text was loaded, and of the commands that were
    // read whole none is lost.
    ensures run_part { order.entry.verb ≡ Verb.Run → result ≡ device_failed
        → OnBytes (R.rest source.old) (λ bytes. OfLoad text.now order.entry.main.now order.entry.steps
        (WritesPart bytes (W.taken sink.old) (W.taken sink.new))) }
    ensures run_read { order.entry.verb ≡ Verb.Run → R.has_failed source.new ≡ true
        → OnReading (R.rest source.old) (R.rest source.new) (λ bytes rest. OfProgram text.now order.entry.main.now
        order.entry.steps (WritesRead bytes rest (W.taken sink.old) (W.taken sink.new))) }

    // A text that is too long is refused for that alone, also where there is no memory.
    ensures long { 2 ^ 20 < length text.now → result ≢ device_failed → (result ≡ no_program)
        × Appends (W.taken sink.old) (W.taken sink.new) (ended (codes "refused S4 line 1")) }
    ensures failed { IsTrue (R.has_failed source.new || W.has_failed sink.new)
        ↔ (result ≡ device_failed) }
{
    let main = order.main.as_bytes();
    match order.verb {
        Verb::Check => check_text(alloc, text, main, sink),
        Verb::Layout => layout_text(alloc, text, main, sink),
        Verb::Run => { run_text_observed(alloc, text, main, order.steps, source, sink, observer) }
    }
}
