//! Says why a text isn't in the grammar: which token is out of place, what could stand there, and what isn't closed.
#![tactic(auto)]

mod cause;
mod characters;
mod kinds;
mod located;
mod open;
mod probe;
mod reading;
mod rows;
mod spot;
mod token_cause;
mod tokens;

pub use located::{Located, explain_syntax, span_at};
