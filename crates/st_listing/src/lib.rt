//! Lists the leaves of a checked program, in order, and makes its layout of them.
#![tactic(auto)]

mod block;
mod chart;
mod empty;
mod layouts;
mod leaf_use;
mod leaves;
mod listing;
mod members;
mod program;
mod rows;
mod subscripts;
mod values;
mod walk;

pub use layouts::{OfProgram, changes_without_renames_pair};
pub use leaves::leaves_of;
