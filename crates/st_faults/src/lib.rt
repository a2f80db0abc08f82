//! Names the rules that a text can break though it is in the grammar, keeps the first of the faults that are offered, and says what the
//! numbers of refusals and faults mean to people.
//!
//! The page `docs/REFUSALS.md` and what is said of the lines of a session are made of its tables.
#![tactic(auto)]

mod example;
mod explanation;
mod fault;
mod first;
mod laws;
mod meanings;

pub use example::{Cause, EXAMPLES, Example};
pub use explanation::{Explanation, Family};
pub use fault::{Fault, Rule};
pub use first::FirstFault;
pub use laws::kept_fault_is_the_first;
pub use meanings::{explanation_of, explanation_of_rule, numbers_are_listed};
