//! The program `stc`: a soft controller for programs in Structured Text, driven line by line.
#![tactic(auto)]

use st_driver::run;
use std::process::ExitCode;

fn main(rt: HostRuntime) -> ExitCode {
    ExitCode::from(run(&rt))
}
