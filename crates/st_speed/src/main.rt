//! Counts the tokens of the source text on standard input, with the word `parse` its units, or with `check` the units of the program
//! `Main`: for measures of speed.
#![tactic(auto)]

use anyhow::Result as Done;
use st_check::{CheckFault, check};
use st_syntax::parse;
use st_tokens::{SyntaxFault, tokens};
use std::alloc::Global;
use std::io::Read;
use thiserror::Error;

/// One byte more than a source text may have.
const MAX_READ_BYTES: u64 = 1_048_577;

/// Why nothing is counted.
#[derive(Clone, Copy, Debug, Error)]
enum Fault {
    #[error("{0}")]
    Syntax(SyntaxFault),
    #[error("{0}")]
    Check(CheckFault),
}

fn main(rt: HostRuntime) -> Done<()> {
    let words = std::env::args(&rt)?.collect::<Vec<String>>(rt.alloc())?;
    let verb = match words.get(1) {
        Some(word) => word.as_str(),
        None => "tokens",
    };
    let mut text = Vec::new(rt.alloc());
    rt.reader().take(MAX_READ_BYTES).read_to_end(&mut text)?;
    match count(rt.alloc(), &text, verb) {
        Ok(count) => println!(rt; "{count}")?,
        Err(fault) => println!(rt; "{fault}")?,
    }
    Ok(())
}

/// How many units a text has, checked or not, or how many tokens.
fn count(alloc: Global, text: &[u8], verb: &str) -> Result<usize, Fault> {
    if verb == "tokens" {
        return Ok(tokens(alloc, text).map_err(Fault::Syntax)?.len());
    }
    let units = parse(alloc, text).map_err(Fault::Syntax)?;
    if verb == "parse" {
        return Ok(units.len());
    }
    let program = check(alloc, units, b"Main").map_err(Fault::Check)?;
    Ok(program.units().len())
}
