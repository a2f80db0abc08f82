//! Explains a session to people, on standard error: why a line is refused and what to do, at which line of the program a fault ended a
//! scan, and what an online change and its undo dropped and brought. It observes the session, and nothing that it does is seen there.
#![tactic(auto)]

mod change;
mod culprit;
mod fault;
mod kinds;
mod message;
mod near;
mod part;
mod past;
mod refused;
mod remarks;
mod usage;
mod words;

pub use change::told_of_change;
pub use fault::told_of_fault;
pub use refused::told_of_refusal;
pub use remarks::{Explainer, Remarks};
