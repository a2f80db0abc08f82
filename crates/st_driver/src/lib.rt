//! Does what the words of the command line order, from the source file to the exit status and the message on standard error.
#![tactic(auto)]

mod driver;
mod refused;

pub use driver::{obey_text, run};
