//! Checks a text that is in the grammar: it is a program, or has a first fault. Whether a program passes a limit of size is told from the
//! sizes of its types, each of which is sized once.
#![tactic(auto)]

mod checks;
mod fault;
mod faults;
mod laws;
mod program;
mod sizes;
mod types;
mod units;

pub use checks::{check, program_named};
pub use fault::CheckFault;
pub use faults::{Unordered, fault_from, ordered};
pub use laws::{
    checked_program_has_distinct_names, checked_program_has_elementary_functions,
    checked_program_has_no_recursion, checked_program_has_sound_leaves, checked_program_is_small,
    checked_program_stores_declared_names, text_has_one_answer,
};
pub use program::Program;
pub use sizes::{MAX_IMAGE_BYTES, MAX_LEAVES, MAX_PATH_BYTES, is_too_large};
pub use units::type_sizes;
