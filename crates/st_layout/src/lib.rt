//! Numbers the leaves of a program, finds them by their paths, and says where each lies in bytes. It pairs the leaves of two programs for
//! an online change, as ranges. It knows leaves and no programs.
#![tactic(auto)]

mod alike;
mod laws;
mod layout;
mod pairing;
mod part_table;
mod parts;
mod plan;
mod plan_fault;
mod rename_table;
mod renames;
mod runs;
mod table;

pub use laws::{pairs_are_one_to_one, places_follow, wholes_pair_without_renames};
pub use layout::Layout;
pub use plan::Plan;
pub use plan_fault::PlanFault;
pub use renames::Rename;
pub use runs::{Run, Runs};
