//! Finds what stands at a token of a text's units: an expression and what is due there, a target, a call, a name, a bound.
#![tactic(auto)]

mod due;
mod expressions;
mod site;
mod statements;
mod units;

pub use due::{elements_of, operand_due, own, reached, target_shape};
pub use site::Site;
pub use units::{in_unit, unit_at};
