//! Reads what lines ask for: requests with their words, and changes with the source lines that follow. Who has a controller does what is
//! asked.
#![tactic(auto)]

mod change_text;
mod laws;
mod pairs;
mod renames;
mod request;
mod scan_values;
mod source_text;

pub use change_text::{ChangeText, read_text};
pub use laws::commands_come_in_parts;
pub use pairs::{Pairs, cut_pair};
pub use renames::read_renames;
pub use request::{Request, read_request};
pub use scan_values::ScanValues;
