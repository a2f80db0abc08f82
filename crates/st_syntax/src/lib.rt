//! Reads a whole text: declarations (IEC 61131-3:2003, 2.3.3 and 2.4.3), units (2.5) and their bodies, which are statements (3.3.2) and
//! charts (2.6), as the grammar of annex B has them. No list in their trees is longer than the text has tokens.
#![tactic(auto)]

pub mod chart;
mod declaration;
mod laws;
pub mod statement;
mod text;
mod unit;

pub use laws::parts_are_shorter;
pub use st_parser::ReadFault;
pub use text::{one_reading, parse, read_units};
