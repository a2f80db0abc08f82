//! Trials in which memory may be refused: loads, online changes and their undo, command by command.
//!
//! A trial is a file of `without-memory`, by its name. Behind the program's text and a line `-- trial`, which names paths, stand
//! commands with their replies. What is refused for want of memory has to leave all as it was, and is tried again until it is done; then
//! it has to come out as without a refusal. A line says how many refusals there were over both kinds of memory, and the most in a row.
//! `tools/refuse-allocations` refuses each allocation of a trial in turn.
mod commands;
mod picture;
mod tries;

use crate::sessions::{ALL_GOOD, LARGE_PIECE, MAIN, STEPS};
use crate::tally::Tally;
use crate::trial::commands::{Command, Trial};
use crate::trial::picture::Picture;
use crate::trial::tries::{MOST_TRIES, Tries};
use st_memory::{Cells, Memory, Packed};
use st_session::control::{Controller, Refusal};
use st_session::{Bytes, Outcome, ToWriter, session};
use std::alloc::{AllocError, Global};
use std::fs::read_to_string;
use std::io;

/// The reply to a command that finds no memory.
const NO_MEMORY: &[u8] = b"refused M\n";

/// Runs a trial, counts it as a case, and says how often it was refused.
pub fn run_trial(rt: &HostRuntime, name: &str) -> io::Result<Tally> {
    let path = format!(in rt.alloc(); "without-memory/{name}.cases")?;
    let file = read_to_string(rt, &path)?;
    let trial = Trial::of(rt.alloc(), &file)?;
    let mut tries = Tries::default();
    let comes_out = comes_out(rt.alloc(), &mut tries, &trial)?;
    let mut tally = Tally::default();
    tally.count(comes_out);
    let (refused, in_a_row) = (tries.refused, tries.most_in_a_row);
    println!(rt; "{name}: refused {refused} times, {in_a_row} in a row")?;
    Ok(tally)
}

/// Whether a trial comes out over both kinds of memory.
fn comes_out(alloc: Global, tries: &mut Tries, trial: &Trial<'_>) -> Result<bool, AllocError> {
    Ok(
        comes_out_over::<Cells>(alloc, tries, trial)?
            && comes_out_over::<Packed>(alloc, tries, trial)?,
    )
}

/// Whether a trial comes out in the end.
fn comes_out_over<M: Memory>(
    alloc: Global,
    tries: &mut Tries,
    trial: &Trial<'_>,
) -> Result<bool, AllocError> {
    match loaded::<M>(alloc, tries, trial.text) {
        Some(mut controller) => are_done(alloc, tries, &mut controller, trial),
        None => Ok(false),
    }
}

/// The controller of a text. Where its load is refused for want of memory it is loaded again.
fn loaded<M: Memory>(alloc: Global, tries: &mut Tries, text: &str) -> Option<Controller<M>> {
    for _ in 0..MOST_TRIES {
        match Controller::load(alloc, text.as_bytes(), MAIN, STEPS) {
            Ok(controller) => {
                tries.end_row();
                return Some(controller);
            }
            Err(Refusal::M) => tries.count_refusal(),
            Err(_) => return None,
        }
    }
    None
}

/// Whether the commands of a trial are replied to so, one by one. There is one at least.
fn are_done<M: Memory>(
    alloc: Global,
    tries: &mut Tries,
    controller: &mut Controller<M>,
    trial: &Trial<'_>,
) -> Result<bool, AllocError> {
    for command in &trial.commands {
        if !is_done(alloc, tries, controller, trial.paths, command)? {
            return Ok(false);
        }
    }
    Ok(!trial.commands.is_empty())
}

/// Whether a command is replied to so. Where it finds no memory, or the session doesn't, all has to be as before, and it is typed again.
fn is_done<M: Memory>(
    alloc: Global,
    tries: &mut Tries,
    controller: &mut Controller<M>,
    paths: &str,
    command: &Command<'_>,
) -> Result<bool, AllocError> {
    let before = Picture::of(alloc, controller, paths)?;
    let mut written = Vec::with_capacity(alloc, LARGE_PIECE)?;
    for _ in 0..MOST_TRIES {
        written.clear();
        if typed(alloc, controller, &command.lines, &mut written) != Outcome::Memory {
            tries.end_row();
            return Ok(written.strip_suffix(b"\n") == Some(command.reply.as_bytes()));
        }
        tries.count_refusal();
        let is_told = written.is_empty() || written.as_slice() == NO_MEMORY;
        if !is_told || !before.is_of(controller, paths) {
            return Ok(false);
        }
    }
    Ok(false)
}

/// Types lines, and puts what is replied behind what was written.
fn typed<M: Memory>(
    alloc: Global,
    controller: &mut Controller<M>,
    lines: &str,
    written: &mut Vec<u8>,
) -> Outcome {
    let mut source = Bytes::new(lines.as_bytes(), LARGE_PIECE, ALL_GOOD);
    let mut sink = ToWriter::new(written);
    session(alloc, controller, &mut source, &mut sink)
}
