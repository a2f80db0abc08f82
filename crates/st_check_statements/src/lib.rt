//! Finds what breaks a rule in statements.
#![tactic(auto)]

mod around;
mod counters;
mod invocations;
mod labels;
mod pins;
mod statements;

pub use statements::check_body;
