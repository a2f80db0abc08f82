//! Makes the code of statements and charts from their trees, from its end to its beginning.
#![tactic(auto)]

mod body;
mod cases;
mod charts;
mod invocations;
mod loops;
mod statements;

pub use body::emit_body;
pub use charts::emit_chart;
