//! Finds what breaks a rule in declarations, charts and units.
#![tactic(auto)]

mod associations;
mod charts;
mod declarations;
mod permitted;
mod repeats;
mod sizes;
mod subscripts;
mod type_uses;
mod units;
mod values;

pub use units::{MAX_UNITS, check_units};
