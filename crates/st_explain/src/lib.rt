//! Explains to people why a text is refused: the file, the line and the column of the fault, what is wrong there, the line with a caret,
//! and what to do.
#![tactic(auto)]

mod all;
mod explain;
mod finding;
mod size;

pub use explain::{explain_all, explain_faults, explain_text};
