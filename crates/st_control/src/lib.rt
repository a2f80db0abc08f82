//! Controls a running program: an operator looks at it and changes it, scans run, and each change of the operator's can be taken back.
#![tactic(auto)]

mod changing;
mod check;
mod controller;
mod image;
mod laws;
mod record;
mod refusal;
mod scanning;
mod state;
mod undoing;

pub use changing::Counts;
pub use check::{check_program, texts_give_one_list};
pub use controller::{Controller, MAX_RECORDS, Report};
pub use image::load_image;
pub use laws::{
    changes_are_refused_by_path, command_changes_by_path, pulses_name_their_steps,
    record_undoes_command, resets_give_initial_values, scans_keep_the_frame,
    steps_keep_states_whole, undos_give_back_states,
};
pub use record::Record;
pub use refusal::{
    HALTED, IS_FORCED, MOMENT_PAST, NO_ACTIVE_STEP, NO_SUCH_LINE, NO_SUCH_PATH, NOT_AN_INPUT,
    NOT_FORCED, NOT_OF_TYPE, NOT_OPEN, NOT_PAIRED, NOTHING_TO_UNDO, Refusal, UNDO_FULL,
};
pub use scanning::{MAX_MOMENT, Scanned};
pub use st_compile::Image;
pub use st_meaning::{RunFault, RunFaultKind};
pub use state::{State, Status};
pub use undoing::revert;
