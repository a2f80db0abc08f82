//! Why a line of a session is refused, and what to do.
use crate::culprit::{Subject, subject_of};
use crate::kinds::push_values;
use crate::message::{
    Spotted, begin, push_naming, push_question, push_rest, push_value, show_line,
};
use crate::near::{Meant, meant_by};
use crate::part::lost_rename;
use crate::usage::{COMMANDS, Complaint, complaint_of};
use crate::words::{Spot, first_word, second_word};
use st_faults::{Family, explanation_of};
use st_memory::Memory;
use st_messages::{Nearest, push_help, push_note, push_quoted, push_shown};
use st_session::control::{
    Controller, HALTED, IS_FORCED, MOMENT_PAST, NO_SUCH_LINE, NO_SUCH_PATH, NOT_AN_INPUT,
    NOT_FORCED, NOT_OF_TYPE, NOT_OPEN, NOT_PAIRED, Status,
};
use st_tree::Role;
use std::alloc::{AllocError, Global};

/// What a person is told of a line that was refused for the cause with this number, over the controller as it is. Whether a path
/// that is near is looked for is the caller's choice, since that goes over all leaves.
pub fn told_of_refusal<M: Memory>(
    alloc: Global,
    number: u64,
    line: &[u8],
    cause: u8,
    searches: bool,
    controller: &Controller<M>,
) -> Result<String, AllocError> {
    let mut message = String::new(alloc);
    match cause {
        NO_SUCH_LINE => tell_no_line(alloc, &mut message, number, line)?,
        MOMENT_PAST => tell_moment(alloc, &mut message, number, line, controller)?,
        NOT_PAIRED => tell_renames(alloc, &mut message, number, line, searches, controller)?,
        HALTED => tell_halted(alloc, &mut message, number, line, controller)?,
        _ => match subject_of(line, cause, controller) {
            Some(subject) if cause == NO_SUCH_PATH => {
                let place = place(number, line, subject.at);
                tell_no_path(alloc, &mut message, &place, searches, controller)?
            }
            Some(subject) => {
                tell_subject(
                    alloc,
                    &mut message,
                    number,
                    line,
                    cause,
                    &subject,
                    controller,
                )?
            }
            None => tell_general(alloc, &mut message, number, line, cause)?,
        },
    }
    Ok(message)
}

/// The place of a word in a line.
fn place<'a>(number: u64, line: &'a [u8], spot: Spot<'a>) -> Spotted<'a> {
    Spotted { number, line, spot }
}

/// The first word of a line, or all of it where there is none.
fn first_spot(line: &[u8]) -> Spot<'_> {
    match first_word(line) {
        Some(spot) => spot,
        None => Spot {
            start: 0,
            end: line.len(),
            word: line,
        },
    }
}

/// Says what the number of a cause means, of which nothing more is known, and what to do.
fn tell_general(
    alloc: Global,
    message: &mut String,
    number: u64,
    line: &[u8],
    cause: u8,
) -> Result<(), AllocError> {
    let place = place(number, line, first_spot(line));
    begin(message, &place, cause)?;
    match explanation_of(Family::Operator, cause) {
        Some(explanation) => {
            message.push_str(explanation.sentence)?;
            show_line(alloc, message, &place)?;
            push_help(message, explanation.advice)
        }
        None => show_line(alloc, message, &place),
    }
}

/// Says why a line is refused whose path is there.
fn tell_subject<M: Memory>(
    alloc: Global,
    message: &mut String,
    number: u64,
    line: &[u8],
    cause: u8,
    subject: &Subject<'_>,
    controller: &Controller<M>,
) -> Result<(), AllocError> {
    let here = place(number, line, subject.at);
    match cause {
        NOT_OPEN => tell_closed(alloc, message, &here),
        NOT_OF_TYPE => {
            let there = place(number, line, subject.value_at);
            tell_type(alloc, message, &there, subject.path, controller)
        }
        IS_FORCED => tell_forced(alloc, message, &here, controller),
        NOT_FORCED => tell_free(alloc, message, &here),
        NOT_AN_INPUT => tell_no_input(alloc, message, &here, controller),
        _ => tell_general(alloc, message, number, line, cause),
    }
}

/// Says that there is no variable of a path, and which there is.
fn tell_no_path<M: Memory>(
    alloc: Global,
    message: &mut String,
    place: &Spotted<'_>,
    searches: bool,
    controller: &Controller<M>,
) -> Result<(), AllocError> {
    begin(message, place, NO_SUCH_PATH)?;
    message.push_str("there is no variable ")?;
    push_quoted(message, place.spot.word)?;
    show_line(alloc, message, place)?;
    tell_meant(alloc, message, place.spot.word, searches, controller)
}

/// Says which path may have been meant.
fn tell_meant<M: Memory>(
    alloc: Global,
    message: &mut String,
    path: &[u8],
    searches: bool,
    controller: &Controller<M>,
) -> Result<(), AllocError> {
    if !searches {
        return push_help(message, "`stc layout` lists all paths");
    }
    match meant_by(alloc, controller.layout(), path)? {
        Meant::Whole(inside) => {
            push_naming(message, "it is a whole, and its first value is ", inside)?;
            push_help(
                message,
                "name one value: an element, a member or an input or output",
            )
        }
        Meant::Behind(path) => push_question(
            message,
            "paths begin with the program's name: ",
            path,
        ),
        Meant::Near(path) => push_question(message, "did you mean ", path),
        Meant::Nothing => push_help(message, "`stc layout` lists all paths"),
    }
}

/// Says that an operator may not set a variable.
fn tell_closed(alloc: Global, message: &mut String, place: &Spotted<'_>) -> Result<(), AllocError> {
    begin(message, place, NOT_OPEN)?;
    push_quoted(message, place.spot.word)?;
    message.push_str(" is set by the program alone: a chart or a block keeps it for itself")?;
    show_line(alloc, message, place)?;
    push_help(
        message,
        "set a variable that the program declares, or one of a block's inputs",
    )
}

/// Says of which type a value has to be.
fn tell_type<M: Memory>(
    alloc: Global,
    message: &mut String,
    place: &Spotted<'_>,
    path: &[u8],
    controller: &Controller<M>,
) -> Result<(), AllocError> {
    begin(message, place, NOT_OF_TYPE)?;
    push_quoted(message, place.spot.word)?;
    let Some(leaf) = controller.find(path) else {
        message.push_str(" is no value of the variable's type")?;
        return show_line(alloc, message, place);
    };
    let elem = controller.elem(leaf);
    message.push_str(" is no value of ")?;
    push_quoted(message, controller.shown(leaf))?;
    message.push_str(", which is ")?;
    push_shown(message, elem.name())?;
    show_line(alloc, message, place)?;
    message.push_str("  help: write ")?;
    push_values(alloc, message, elem)?;
    message.push_str(", without blanks\n")
}

/// Says that a variable is forced, and to which value.
fn tell_forced<M: Memory>(
    alloc: Global,
    message: &mut String,
    place: &Spotted<'_>,
    controller: &Controller<M>,
) -> Result<(), AllocError> {
    begin(message, place, IS_FORCED)?;
    push_quoted(message, place.spot.word)?;
    message.push_str(" is forced")?;
    if let Ok((value, _)) = controller.get(place.spot.word) {
        message.push_str(" to ")?;
        push_value(alloc, message, value)?;
    }
    message.push_str(", so that it can't be written")?;
    show_line(alloc, message, place)?;
    push_help(
        message,
        "give `release` first, or `force` with the new value",
    )
}

/// Says that a variable isn't forced.
fn tell_free(alloc: Global, message: &mut String, place: &Spotted<'_>) -> Result<(), AllocError> {
    begin(message, place, NOT_FORCED)?;
    push_quoted(message, place.spot.word)?;
    message.push_str(" isn't forced, so that there is nothing to release")?;
    show_line(alloc, message, place)?;
    push_help(message, "`show` says `forced` where a variable is")
}

/// Says that a variable is no input of the program, and which inputs there are.
fn tell_no_input<M: Memory>(
    alloc: Global,
    message: &mut String,
    place: &Spotted<'_>,
    controller: &Controller<M>,
) -> Result<(), AllocError> {
    begin(message, place, NOT_AN_INPUT)?;
    push_quoted(message, place.spot.word)?;
    message.push_str(
        " isn't under VAR_INPUT of the program, so that a scan can't give it a value",
    )?;
    show_line(alloc, message, place)?;
    push_inputs(message, controller)?;
    push_help(message, "set it with `write`, or hold it with `force`")
}

/// The most inputs that are named.
const MAX_INPUTS: u32 = 8;

/// Says which inputs the program has.
fn push_inputs<M: Memory>(
    message: &mut String,
    controller: &Controller<M>,
) -> Result<(), AllocError> {
    message.push_str("  note: the inputs are")?;
    let mut count: u32 = 0;
    for number in 0..controller.layout().len() {
        let leaf = controller.layout().at(number);
        if matches!(leaf.role, Role::ProcessInput) {
            if count < MAX_INPUTS {
                message.push_str(if count == 0 { " " } else { ", " })?;
                push_quoted(message, leaf.shown.as_slice())?;
            }
            count = count.saturating_add(1);
        }
    }
    push_rest(message, count, MAX_INPUTS)?;
    message.push_str(if count == 0 { " none\n" } else { "\n" })
}

/// Says which moment was the last.
fn tell_moment<M: Memory>(
    alloc: Global,
    message: &mut String,
    number: u64,
    line: &[u8],
    controller: &Controller<M>,
) -> Result<(), AllocError> {
    let spot = second_word(line).unwrap_or(first_spot(line));
    let place = place(number, line, spot);
    begin(message, &place, MOMENT_PAST)?;
    let now = controller.status().now;
    write!(
        message,
        "the last scan was at the moment {now}, and one can't be before it nor above 1000000000000000"
    )?;
    show_line(alloc, message, &place)?;
    write!(
        message,
        "  help: give a moment from {now} on, in milliseconds\n"
    )
}

/// Says which rename names no part of the program, or what else can be wrong with renames.
fn tell_renames<M: Memory>(
    alloc: Global,
    message: &mut String,
    number: u64,
    line: &[u8],
    searches: bool,
    controller: &Controller<M>,
) -> Result<(), AllocError> {
    let Some(spot) = lost_rename(controller.layout(), line) else {
        return tell_general(alloc, message, number, line, NOT_PAIRED);
    };
    let place = place(number, line, spot);
    begin(message, &place, NOT_PAIRED)?;
    message.push_str("the program that runs has no part ")?;
    push_quoted(message, spot.word)?;
    show_line(alloc, message, &place)?;
    tell_meant(alloc, message, spot.word, searches, controller)
}

/// Says by which fault the program was halted.
fn tell_halted<M: Memory>(
    alloc: Global,
    message: &mut String,
    number: u64,
    line: &[u8],
    controller: &Controller<M>,
) -> Result<(), AllocError> {
    let place = place(number, line, first_spot(line));
    begin(message, &place, HALTED)?;
    message.push_str("the program was halted")?;
    if let Status::Halted(fault) = controller.status().status {
        message.push_str(" by a fault in ")?;
        push_shown(message, fault.unit.bytes())?;
        write!(message, ", line {}", fault.line)?;
    }
    show_line(alloc, message, &place)?;
    push_help(
        message,
        "correct the program with `change`, or its values with `write`, and give `reset`",
    )
}

/// Says what is wrong with a line that a session hasn't.
fn tell_no_line(
    alloc: Global,
    message: &mut String,
    number: u64,
    line: &[u8],
) -> Result<(), AllocError> {
    match complaint_of(line) {
        Complaint::NoCommand(spot) => {
            complain(
                alloc,
                message,
                &place(number, line, spot),
                "there is no such command",
            )?;
            tell_commands(alloc, message, spot.word)
        }
        Complaint::TooLong => {
            let first = first_spot(line);
            complain(
                alloc,
                message,
                &place(number, line, first),
                "the line is longer than 4096 bytes",
            )?;
            push_help(
                message,
                "give a scan fewer values, or set some of them with `write`",
            )
        }
        other => tell_usage(alloc, message, number, line, other),
    }
}

/// Says that a line isn't one, why, and shows it.
fn complain(
    alloc: Global,
    message: &mut String,
    place: &Spotted<'_>,
    why: &str,
) -> Result<(), AllocError> {
    begin(message, place, NO_SUCH_LINE)?;
    message.push_str(why)?;
    show_line(alloc, message, place)
}

/// Says which command is near to a word, and which there are.
fn tell_commands(alloc: Global, message: &mut String, word: &[u8]) -> Result<(), AllocError> {
    let mut nearest = Nearest::new(alloc, word);
    for command in COMMANDS {
        nearest.offer(command.as_bytes());
    }
    if let Some(near) = nearest.get()? {
        push_question(message, "did you mean ", near)?;
    }
    push_note(
        message,
        "the commands are show, write, force, release, scan, reset, change, undo and status",
    )
}

/// Says how a command is written whose word stands first.
fn tell_usage(
    alloc: Global,
    message: &mut String,
    number: u64,
    line: &[u8],
    complaint: Complaint<'_>,
) -> Result<(), AllocError> {
    let (spot, why, usage) = match complaint {
        Complaint::Capitals(spot, usage) => (spot, "command words are in small letters", usage),
        Complaint::Moment(spot) => (
            spot,
            "the moment of a scan is in milliseconds, in decimal digits alone",
            "scan MOMENT PATH:=VALUE ..",
        ),
        Complaint::Pair(spot) => (
            spot,
            "a value of a scan is a word PATH:=VALUE, without blanks",
            "scan MOMENT PATH:=VALUE ..",
        ),
        Complaint::Rename(spot) => (
            spot,
            "a rename is a word OLD=NEW, without blanks",
            "change OLD=NEW ..",
        ),
        Complaint::Unended(spot) => (
            spot,
            "the input ended within the text of this change",
            "end_change",
        ),
        Complaint::Sign(spot, usage) => (spot, "no sign stands between path and value", usage),
        Complaint::Words(spot, usage) => (
            spot,
            "words are missing here, or there are too many",
            usage,
        ),
        Complaint::TooLong | Complaint::NoCommand(_) => (
            first_spot(line),
            "there is no such line",
            "",
        ),
    };
    complain(alloc, message, &place(number, line, spot), why)?;
    message.push_str("  help: write `")?;
    message.push_str(usage)?;
    message.push_str("`\n")
}
