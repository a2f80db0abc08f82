//! Says which rule of the language a text breaks and how: which names are near, what an instance takes, which units lead back to one,
//! which limit is passed.
#![tactic(auto)]

mod calls;
mod cause;
mod charts;
mod cycles;
mod limits;
mod names;
mod rows;
mod rules;

pub use limits::count_text;
pub use rules::{explain_no_program, explain_rule};
