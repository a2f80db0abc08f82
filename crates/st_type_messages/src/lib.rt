//! Says of types and values what is wrong: which type is expected and which one found, which range a literal is outside of, and why
//! something may not be assigned.
#![tactic(auto)]

mod assigned;
mod cause;
mod literals;
mod rows;
mod types;

pub use assigned::explain_assigned;
pub use literals::explain_range;
pub use types::explain_type;
