//! Runs the code of a program, its function blocks and its functions over any memory, on stacks that are made before, without
//! allocating.
#![tactic(auto)]

mod block;
mod calls;
mod charts;
mod entries;
mod function;
mod instances;
mod looping;
mod run;
mod stacks;
mod stretches;
mod units;

pub use block::Block;
pub use function::Function;
pub use looping::run_fused;
pub use run::Halt;
pub use stacks::{Room, Stacks};
pub use units::Units;
