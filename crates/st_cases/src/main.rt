//! Runs the sessions of worked cases over each kind of memory, with the replies that are wanted.
//!
//! A word of the command line is a folder. Of each of its files `*.cases`, by name, a line says how many sessions it has, with a line
//! before it for each that fails. The word `--made` stands for the cases that are made by code, and a word `--without-memory=NAME` for
//! the trial of that name, in which memory may be refused (`src/trial.rt`). The last line counts all. The status is 0 where none
//! failed, 1 where one did, and 2 where a folder or a file can't be read.
//! `data/README.md` has the form of a case.
#![tactic(auto)]

mod blocks;
mod braces;
mod case;
mod folder;
mod made;
mod sessions;
mod tally;
mod trial;

use crate::folder::run_folder;
use crate::made::run_made;
use crate::tally::Tally;
use crate::trial::run_trial;
use std::io;
use std::process::ExitCode;

/// A case failed.
const FAILED: u8 = 1;

/// A folder or a file can't be read.
const UNREADABLE: u8 = 2;

fn main(rt: HostRuntime) -> ExitCode {
    match run_all(&rt) {
        Ok(tally) if tally.failed == 0 => ExitCode::SUCCESS,
        Ok(_) => ExitCode::from(FAILED),
        Err(error) => {
            let _ = eprintln!(rt; "error: {error}");
            ExitCode::from(UNREADABLE)
        }
    }
}

/// Runs the cases that the words name, and counts them.
fn run_all(rt: &HostRuntime) -> io::Result<Tally> {
    let mut all = Tally::default();
    for word in std::env::args(rt)?.skip(1) {
        all.add(run_word(rt, word.as_str())?);
    }
    let Tally { passed, failed } = all;
    println!(rt; "{passed} passed, {failed} failed")?;
    Ok(all)
}

/// Runs the cases that a word names.
fn run_word(rt: &HostRuntime, word: &str) -> io::Result<Tally> {
    if let Some(name) = word.strip_prefix("--without-memory=") {
        return run_trial(rt, name);
    }
    match word {
        "--made" => run_made(rt),
        folder => run_folder(rt, folder),
    }
}
