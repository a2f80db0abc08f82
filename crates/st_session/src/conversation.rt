//! A session: each command of a source is acted on, and its reply written to a sink.
ghost use Rattle.std.specs.Prelude.{◌≡◌, ◌≢◌, ◌≤◌, ◌<◌, ◌↔◌, ◌||◌, ◌⊎◌, [], true, false, IfOk, IsNone, IsTrue, OnErr, OnOk, OnSome, is_err, length, vec_capacity};
ghost use Rattle.st_control.specs.Controllers.{machine_of};
ghost use Rattle.st_control.specs.States.{leaves_of};
ghost use Rattle.st_devices.specs.Inputs.{has_ended, left, pending, unread};
ghost use Rattle.st_devices.specs.Pending.{OnBytes, OnReading};
ghost use Rattle.st_devices.specs.Words.{words_of};
ghost use Rattle.st_lines.specs.Commands.{TakesPartOf};
ghost use Rattle.st_lines.specs.Requests.{RequestView, request_in, request_of};
ghost use Rattle.st_session.specs.Hearings.{HearsOver, HearsPart, HearsSession};
ghost use Rattle.st_session.specs.Sessions.{AnswersAll, AnswersRead, Does, DoesAsked, DoesOver, LosesPart, LosesText, StopsIn, TurnsOver};
ghost use Rattle.st_session.specs.Turns.{CanBeAsked, Gives, answer, leaf_value, value_given};

use crate::change::take_change;
use crate::grade::{Grade, worse};
use crate::observer::{Exchange, Observer, Silent};
use crate::reply::Reply;
use crate::scanning::{reset, scan};
use st_control::{Controller, NO_SUCH_LINE, NO_SUCH_PATH};
use st_devices::{DeviceFault, Found, Input, MAX_LINE_BYTES, Sink, Source, write_all};
use st_lines::{Request, ScanValues, read_renames, read_request};
use st_memory::Memory;
use st_values::{Elem, Value, read_value};
use std::alloc::{AllocError, Global};

/// How a session ended.
#[derive(Clone, Copy, Debug, PartialEq, Eq)]
pub enum Outcome {
    /// All commands were accepted.
    Clean,
    /// Some command was refused.
    Refused,
    /// There was no memory for some command, or for the session itself.
    Memory,
    /// A device failed.
    Device,
}

/// A value of no type.
const VALUE_OF_NONE: Value = Value {
    elem: Elem::Bool,
    bits: 2,
};

/// The value that a text is for a leaf. A text that is no value of the leaf's type counts as one of none.
pub(crate) fn value_of_leaf<M: Memory>(controller: &Controller<M>, leaf: u32, text: &[u8]) -> Value
    requires { leaf < length (leaves_of controller.now.state) }
    ensures { result ≡ leaf_value (machine_of controller.now).state leaf text.now }
{
    read_value(controller.elem(leaf), text).unwrap_or(VALUE_OF_NONE)
}

/// The value that a text is for the leaf with this path. A text that is no value of the leaf's type counts as one of none.
fn read_given<M: Memory>(controller: &Controller<M>, path: &[u8], text: &[u8]) -> Value
    ensures { result ≡ value_given (machine_of controller.now).state path.now text.now }
{
    match controller.find(path) {
        Some(leaf) => value_of_leaf(controller, leaf, text),
        None => VALUE_OF_NONE,
    }
}

/// Replies what the leaf with this path holds, and answers the grade of that.
#[inline(never)]
fn show<M: Memory>(controller: &Controller<M>, path: &[u8], reply: &mut Reply) -> Grade
    ensures { Gives (answer (RequestView.show path.now) (machine_of controller.now)) result
        (machine_of controller.now) reply.new }
{
    let Some(leaf) = controller.find(path) else {
        return reply.refuse_as(NO_SUCH_PATH);
    };
    let (value, forced) = controller.held(leaf);
    reply.show(controller.shown(leaf), value, forced);
    Grade::Accepted
}

/// Sets the leaf with this path to the value that the text is, and answers the grade of the reply.
#[inline(never)]
fn write<M: Memory>(
    controller: &mut Controller<M>,
    path: &[u8],
    text: &[u8],
    reply: &mut Reply,
) -> Grade
    ensures { Gives (answer (RequestView.write path.now text.now)
        (machine_of controller.old)) result
        (machine_of controller.new) reply.new }
{
    let value = read_given(controller, path, text);
    reply.answer(controller.write(path, value))
}

/// Sets the leaf with this path to the value that the text is and forces it, and answers the grade of the reply.
#[inline(never)]
fn force<M: Memory>(
    controller: &mut Controller<M>,
    path: &[u8],
    text: &[u8],
    reply: &mut Reply,
) -> Grade
    ensures { Gives (answer (RequestView.force path.now text.now)
        (machine_of controller.old)) result
        (machine_of controller.new) reply.new }
{
    let value = read_given(controller, path, text);
    reply.answer(controller.force(path, value))
}

/// Lets go of the leaf with this path, and answers the grade of the reply.
#[inline(never)]
fn release<M: Memory>(controller: &mut Controller<M>, path: &[u8], reply: &mut Reply) -> Grade
    ensures { Gives (answer (RequestView.release path.now) (machine_of controller.old)) result
        (machine_of controller.new) reply.new }
{
    reply.answer(controller.release(path))
}

/// Takes back the newest command, and answers the grade of the reply.
#[inline(never)]
fn undo<M: Memory>(alloc: Global, controller: &mut Controller<M>, reply: &mut Reply) -> Grade
    ensures { Does (CanBeAsked RequestView.undo (machine_of controller.old)) result
        (machine_of controller.old) (machine_of controller.new) reply.new }
{
    reply.answer(controller.undo(alloc))
}

/// Replies how the controller stands, and answers the grade of that.
#[inline(never)]
fn report<M: Memory>(controller: &Controller<M>, reply: &mut Reply) -> Grade
    ensures { Gives (answer RequestView.status (machine_of controller.now)) result
        (machine_of controller.now) reply.new }
{
    reply.report(controller.status());
    Grade::Accepted
}

/// Does what the line of a command asks for, makes the reply, and answers its grade.
fn act<M: Memory>(
    alloc: Global,
    controller: &mut Controller<M>,
    request: Request<'_>,
    values: &mut ScanValues,
    reply: &mut Reply,
) -> Grade
    ensures { Does (CanBeAsked (request_of request.entry) (machine_of controller.old)) result
        (machine_of controller.old) (machine_of controller.new) reply.new }
{
    match request {
        Request::Nothing => {
            reply.clear();
            Grade::Accepted
        }
        Request::Show(path) => show(controller, path, reply),
        Request::Write(path, text) => write(controller, path, text, reply),
        Request::Force(path, text) => force(controller, path, text, reply),
        Request::Release(path) => release(controller, path, reply),
        Request::Scan(moment, pairs) => scan(controller, moment, pairs, values, reply),
        Request::Undo => undo(alloc, controller, reply),
        Request::Reset => reset(controller, reply),
        Request::Status => report(controller, reply),
        Request::Change(_) | Request::Unknown => reply.refuse_as(NO_SUCH_LINE),
    }
}

/// What a session makes room for before its first read.
#[derive(Drop)]
struct Buffers {
    input: Input,
    /// The line that was taken last.
    line: Vec<u8>,
    /// The number of that line.
    number: u64,
    /// The values of the scan that was done last.
    values: ScanValues,
    reply: Reply,
    /// The text of the change that was done or refused last, until the next command is read.
    text: Option<Vec<u8>>,
    ghost capacity: { 4096 ≤ vec_capacity line },
}

impl Buffers {
    /// Buffers of which nothing is used yet.
    fn new(alloc: Global) -> Result<Self, AllocError>
        ensures unread { IfOk result (λ buffers. unread buffers.input ≡ []) }
        ensures not_ended { IfOk result (λ buffers. has_ended buffers.input ≡ false) }
    {
        Ok(Buffers {
            input: Input::new(alloc)?,
            line: Vec::with_capacity(alloc, MAX_LINE_BYTES)?,
            number: 0,
            values: ScanValues::new(alloc)?,
            reply: Reply::new(alloc)?,
            text: None,
        })
    }
}

/// Lets go of a text, where there is one.
fn let_go(text: &mut Option<Vec<u8>>)
    ensures { IsNone text.new }
{
    if text.is_some() {
        *text = None;
    }
}

/// Reads a command, does it and makes the reply. Answers its grade, or nothing at the end.
#[inline(never)]
fn take_command<M: Memory, R: Source>(
    alloc: Global,
    controller: &mut Controller<M>,
    source: &mut R,
    buffers: &mut Buffers,
) -> Result<Option<Grade>, DeviceFault>
    requires { R.has_failed source.old ≡ false }
    ensures ok { IfOk result (λ grade. OnReading
        (pending buffers.old.input (R.rest source.old))
        (pending buffers.new.input (R.rest source.new))
        (DoesOver grade (has_ended buffers.new.input) (machine_of controller.old)
        (machine_of controller.new) buffers.new.reply)) }
    ensures err { OnErr result (controller.new ≡ controller.old) }
    ensures read { OnErr result (OnReading
        (pending buffers.old.input (R.rest source.old)) (R.rest source.new) (TakesPartOf None)) }
    ensures not_ended { OnErr result (has_ended buffers.old.input ≡ false) }
    ensures progress { IfOk result
        (λ grade. OnSome grade (left buffers.new.input (R.reads_left source.new)
        < left buffers.old.input (R.reads_left source.old))) }
    ensures ended { has_ended buffers.old.input ≡ true → has_ended buffers.new.input ≡ true }
    ensures failed { R.has_failed source.new ≡ is_err result }
{
    let_go(&mut buffers.text);
    buffers.number = buffers.input.lines().wrapping_add(1);
    match buffers.input.next_line(source, &mut buffers.line)? {
        Found::End => Ok(None),
        Found::TooLong => Ok(Some(buffers.reply.refuse_as(NO_SUCH_LINE))),
        Found::Line => Ok(Some(do_line(alloc, controller, source, buffers)?)),
    }
}

/// Does what the line that was taken asks for; where it begins a change, its text is read first. Makes the reply, and answers
/// its grade.
fn do_line<M: Memory, R: Source>(
    alloc: Global,
    controller: &mut Controller<M>,
    source: &mut R,
    buffers: &mut Buffers,
) -> Result<Grade, DeviceFault>
    requires works { R.has_failed source.old ≡ false }
    requires short { length buffers.old.line.items ≤ 4096 }
    ensures ok { IfOk result (λ grade. OnReading
        (pending buffers.old.input (R.rest source.old))
        (pending buffers.new.input (R.rest source.new))
        (DoesAsked (request_in (words_of buffers.old.line.items)) grade
        (has_ended buffers.new.input)
        (machine_of controller.old) (machine_of controller.new) buffers.new.reply)) }
    ensures err { OnErr result (controller.new ≡ controller.old) }
    ensures read { OnErr result (OnReading
        (pending buffers.old.input (R.rest source.old)) (R.rest source.new)
        (LosesText (request_in (words_of buffers.old.line.items)))) }
    ensures not_ended { OnErr result (has_ended buffers.old.input ≡ false) }
    ensures steady { OnOk result (left buffers.new.input (R.reads_left source.new)
        ≤ left buffers.old.input (R.reads_left source.old)) }
    ensures ended { has_ended buffers.old.input ≡ true → has_ended buffers.new.input ≡ true }
    ensures failed { R.has_failed source.new ≡ is_err result }
{
    match read_request(buffers.line.as_slice()) {
        Request::Change(words) => {
            let renames = read_renames(alloc, words);
            take_change(
                alloc,
                controller,
                renames,
                &mut buffers.input,
                source,
                &mut buffers.reply,
                &mut buffers.text,
            )
        }
        request => Ok(act(
            alloc,
            controller,
            request,
            &mut buffers.values,
            &mut buffers.reply,
        )),
    }
}

/// Tells the observer of a command that was done.
#[inline(always)]
fn tell<M: Memory, O: Observer>(
    controller: &Controller<M>,
    observer: &mut O,
    buffers: &Buffers,
    grade: Grade,
)
    ensures { O.hears observer.old buffers.now.reply observer.new }
{
    let text = match &buffers.text {
        Some(text) => Some(text.as_slice()),
        None => None,
    };
    let exchange = Exchange {
        line: buffers.line.as_slice(),
        number: buffers.number,
        reply: buffers.reply.as_slice(),
        grade,
        upshot: buffers.reply.upshot(),
        text,
    };
    observer.observe(&exchange, controller);
}

/// Reads a command, does it, writes the reply whole and tells the observer. Answers its grade, or nothing at the end.
fn turn<M: Memory, R: Source, W: Sink, O: Observer>(
    alloc: Global,
    controller: &mut Controller<M>,
    source: &mut R,
    sink: &mut W,
    observer: &mut O,
    buffers: &mut Buffers,
) -> Result<Option<Grade>, DeviceFault>
    requires source { R.has_failed source.old ≡ false }
    requires sink { W.has_failed sink.old ≡ false }
    ensures ok { IfOk result (λ grade. OnReading
        (pending buffers.old.input (R.rest source.old))
        (pending buffers.new.input (R.rest source.new))
        (TurnsOver grade (has_ended buffers.new.input) (machine_of controller.old)
        (machine_of controller.new)
        (W.taken sink.old) (W.taken sink.new))) }
    ensures err { OnErr result (OnBytes (pending buffers.old.input (R.rest source.old))
        (StopsIn (machine_of controller.old) (machine_of controller.new) (W.taken sink.old)
        (W.taken sink.new))) }
    ensures read { R.has_failed source.new ≡ true → OnReading
        (pending buffers.old.input (R.rest source.old)) (R.rest source.new)
        (LosesPart (has_ended buffers.old.input) (machine_of controller.old)
        (machine_of controller.new)
        (W.taken sink.old) (W.taken sink.new)) }
    ensures heard { IfOk result (λ grade. OnReading
        (pending buffers.old.input (R.rest source.old))
        (pending buffers.new.input (R.rest source.new))
        (HearsOver O.hears grade (has_ended buffers.new.input) (machine_of controller.old)
        (machine_of controller.new)
        observer.old observer.new)) }
    ensures unheard { OnErr result (observer.new ≡ observer.old) }
    ensures progress { IfOk result
        (λ grade. OnSome grade (left buffers.new.input (R.reads_left source.new)
        < left buffers.old.input (R.reads_left source.old))) }
    ensures ended { has_ended buffers.old.input ≡ true → has_ended buffers.new.input ≡ true }
    ensures failed { (R.has_failed source.new || W.has_failed sink.new) ≡ is_err result }
    ensures source { OnOk result (R.has_failed source.new ≡ false) }
    ensures sink { OnOk result (W.has_failed sink.new ≡ false) }
{
    let Some(grade) = take_command(alloc, controller, source, buffers)? else {
        return Ok(None);
    };
    write_all(sink, buffers.reply.as_slice())?;
    tell(controller, observer, buffers, grade);
    Ok(Some(grade))
}

/// Does all commands that are pending, and answers the worst grade of their replies.
fn answer_all<M: Memory, R: Source, W: Sink, O: Observer>(
    alloc: Global,
    controller: &mut Controller<M>,
    source: &mut R,
    sink: &mut W,
    observer: &mut O,
    buffers: &mut Buffers,
) -> Result<Grade, DeviceFault>
    requires source { R.has_failed source.old ≡ false }
    requires sink { W.has_failed sink.old ≡ false }
    ensures ok { IfOk result (λ grade. OnBytes (pending buffers.old.input (R.rest source.old))
        (AnswersAll grade (machine_of controller.old) (machine_of controller.new) (W.taken sink.old)
        (W.taken sink.new))) }
    ensures err { OnErr result (OnBytes (pending buffers.old.input (R.rest source.old))
        (StopsIn (machine_of controller.old) (machine_of controller.new) (W.taken sink.old)
        (W.taken sink.new))) }
    ensures read { R.has_failed source.new ≡ true → OnReading
        (pending buffers.old.input (R.rest source.old)) (R.rest source.new)
        (AnswersRead (machine_of controller.old) (machine_of controller.new) (W.taken sink.old)
        (W.taken sink.new)) }
    ensures heard { IfOk result (λ grade. OnBytes (pending buffers.old.input (R.rest source.old))
        (HearsSession O.hears (machine_of controller.old)
        (machine_of controller.new) observer.old observer.new)) }
    ensures unheard { OnErr result (OnBytes (pending buffers.old.input (R.rest source.old))
        (HearsPart O.hears (machine_of controller.old) observer.old observer.new)) }
    ensures failed { (R.has_failed source.new || W.has_failed sink.new) ≡ is_err result }
{
    let mut worst = Grade::Accepted;
    while let Some(grade) = turn(alloc, controller, source, sink, observer, buffers)? {
        worst = worse(worst, grade);
    }
    Ok(worst)
}

/// Does each command of the source and replies on the sink, over a controller. The devices have not failed.
pub fn session<M: Memory, R: Source, W: Sink>(
    alloc: Global,
    controller: &mut Controller<M>,
    source: &mut R,
    sink: &mut W,
) -> Outcome
    requires source { R.has_failed source.old ≡ false }
    requires sink { W.has_failed sink.old ≡ false }

    // Every command is answered, unless a device fails or there is no memory for the session's own buffers.
    ensures clean { result ≡ Outcome.Clean → OnBytes (R.rest source.old)
        (AnswersAll Grade.Accepted (machine_of controller.old) (machine_of controller.new)
        (W.taken sink.old) (W.taken sink.new)) }
    ensures refused { result ≡ Outcome.Refused → OnBytes (R.rest source.old)
        (AnswersAll Grade.Refused (machine_of controller.old) (machine_of controller.new)
        (W.taken sink.old) (W.taken sink.new)) }

    // A command found no memory; or the session's own buffers didn't, and nothing was done.
    ensures memory { result ≡ Outcome.Memory → OnBytes (R.rest source.old)
        (AnswersAll Grade.Memory (machine_of controller.old) (machine_of controller.new)
        (W.taken sink.old) (W.taken sink.new))
        ⊎ ((controller.new ≡ controller.old) × (source.new ≡ source.old) × (sink.new ≡ sink.old)) }

    // A device has failed, and the session ended there. Of the commands that were read whole none is lost.
    ensures device { result ≡ Outcome.Device → OnBytes (R.rest source.old)
        (StopsIn (machine_of controller.old) (machine_of controller.new) (W.taken sink.old)
        (W.taken sink.new)) }
    ensures read { R.has_failed source.new ≡ true
        → OnReading (R.rest source.old) (R.rest source.new)
        (AnswersRead (machine_of controller.old) (machine_of controller.new) (W.taken sink.old)
        (W.taken sink.new)) }
    ensures failed { IsTrue (R.has_failed source.new || W.has_failed sink.new)
        ↔ (result ≡ Outcome.Device) }
{
    session_observed(alloc, controller, source, sink, &mut Silent)
}

/// Does each command of the source, replies on the sink, and tells the observer, over a controller. The devices have not failed.
/// What is promised is what [`session`] promises, whoever observes.
pub fn session_observed<M: Memory, R: Source, W: Sink, O: Observer>(
    alloc: Global,
    controller: &mut Controller<M>,
    source: &mut R,
    sink: &mut W,
    observer: &mut O,
) -> Outcome
    requires source { R.has_failed source.old ≡ false }
    requires sink { W.has_failed sink.old ≡ false }

    // Every command is answered, unless a device fails or there is no memory for the session's own buffers.
    ensures clean { result ≡ Outcome.Clean → OnBytes (R.rest source.old)
        (AnswersAll Grade.Accepted (machine_of controller.old) (machine_of controller.new)
        (W.taken sink.old) (W.taken sink.new)) }
    ensures refused { result ≡ Outcome.Refused → OnBytes (R.rest source.old)
        (AnswersAll Grade.Refused (machine_of controller.old) (machine_of controller.new)
        (W.taken sink.old) (W.taken sink.new)) }

    // A command found no memory; or the session's own buffers didn't, and nothing was done.
    ensures memory { result ≡ Outcome.Memory → OnBytes (R.rest source.old)
        (AnswersAll Grade.Memory (machine_of controller.old) (machine_of controller.new)
        (W.taken sink.old) (W.taken sink.new))
        ⊎ ((controller.new ≡ controller.old) × (source.new ≡ source.old) × (sink.new ≡ sink.old)) }

    // A device has failed, and the session ended there. Of the commands that were read whole none is lost.
    ensures device { result ≡ Outcome.Device → OnBytes (R.rest source.old)
        (StopsIn (machine_of controller.old) (machine_of controller.new) (W.taken sink.old)
        (W.taken sink.new)) }
    ensures read { R.has_failed source.new ≡ true
        → OnReading (R.rest source.old) (R.rest source.new)
        (AnswersRead (machine_of controller.old) (machine_of controller.new) (W.taken sink.old)
        (W.taken sink.new)) }
    ensures failed { IsTrue (R.has_failed source.new || W.has_failed sink.new)
        ↔ (result ≡ Outcome.Device) }

    // The observer was told of every command that was answered, with its reply, one after another, and of nothing else.
    ensures heard { result ≢ Outcome.Device → OnBytes (R.rest source.old)
        (HearsSession O.hears (machine_of controller.old)
        (machine_of controller.new) observer.old observer.new)
        ⊎ ((result ≡ Outcome.Memory) × (observer.new ≡ observer.old)) }
    ensures heard_part { result ≡ Outcome.Device → OnBytes (R.rest source.old)
        (HearsPart O.hears (machine_of controller.old) observer.old observer.new) }
{
    let Ok(mut buffers) = Buffers::new(alloc) else {
        return Outcome::Memory;
    };
    match answer_all(alloc, controller, source, sink, observer, &mut buffers) {
        Ok(Grade::Accepted) => Outcome::Clean,
        Ok(Grade::Refused) => Outcome::Refused,
        Ok(Grade::Memory) => Outcome::Memory,
        Err(_) => Outcome::Device,
    }
}
