//! Makes the code of expressions and places from their trees.
#![tactic(auto)]

mod expression;
mod functions;
mod index;
mod literal;
mod numbers;
mod own;
mod places;
mod scope;
mod steps;
mod takes;

pub use expression::{emit_expression, emit_store};
pub use index::{emit_nil, emit_value};
pub use numbers::narrow;
pub use own::own_or_lint;
pub use places::{Place, locate, place_named};
pub use scope::Scope;
