//! Gives parsers what they share: the tokens that are left, the fault of a parser, levels, and lists of items. Reads expressions
//! (IEC 61131-3:2003, 3.3.1), and the variables, calls and constants that stand in them.
#![tactic(auto)]

pub mod constant;
mod cursor;
mod expect;
pub mod expression;
mod fault;
mod level;
mod list;

pub use cursor::Cursor;
pub use fault::ReadFault;
pub use level::MAX_LEVELS;
pub use list::{add, at_least_one, boxed, listed, many, single, words};
