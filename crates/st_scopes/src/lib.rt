//! Says what names stand for in each unit of a text: variables, members, steps, actions, and what can be called. The tables of a text
//! are made once, and each unit has a scope in them.
#![tactic(auto)]

mod chart;
mod declaration;
mod lookup;
mod names;
mod scope;
mod tables;
mod variable;

pub use declaration::Declared;
pub use scope::Scope;
pub use tables::Tables;
pub use variable::{may_hold_instances, must_be_value};
