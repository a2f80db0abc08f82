//! Finds what breaks a rule in expressions, in their variables and calls, and in what is assigned.
#![tactic(auto)]

mod arguments;
mod calls;
mod check;
mod literals;
mod names;
mod operators;
mod own;
mod route;
mod variables;

pub use arguments::{count_positionals, input_names, output_names};
pub use calls::{elem_due, name_due, offer_broken, position_due};
pub use check::{check_arguments, check_expression, check_target};
pub use literals::{check_literal, is_misstated, literal_position};
pub use names::has_repeated;
pub use operators::compares;
pub use own::selected_type;
pub use route::{elem_of, is_unknown};
pub use variables::is_counted;
