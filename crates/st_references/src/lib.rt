//! Finds which units of a text a unit contains or calls, and puts units in an order in which each stands after all that it refers to, or
//! finds all that reach themselves. So each type is known before its uses, and with which values variables begin (2.4.2) takes one look-up.
#![tactic(auto)]

mod caller;
mod constant;
mod contained;
mod cycles;
mod expression;
mod first;
mod graph;
mod laws;
mod lookup;
mod reversal;
mod row;
mod search;
mod sorting;
mod statement;
mod table;
mod types;
mod unit;
mod walk;

pub use constant::value_written;
pub use first::{FirstValues, Written};
pub use graph::references;
pub use laws::ordered_has_no_cycle;
pub use sorting::{OrderFault, order};
pub use table::Initials;
pub use types::{types_written, written};
