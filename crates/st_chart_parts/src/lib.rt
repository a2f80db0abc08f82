//! Finds what of each unit's chart has leaves (IEC 61131-3:2003, 2.6): its steps, and the names that it stores. This is done once for all
//! instances.
#![tactic(auto)]

mod parts;
mod spellings;
mod step;
mod stored;

pub use parts::{ChartParts, chart_parts};
pub use step::StepPart;
