//! Makes images, which are checked programs with their layouts and their code, and runs them. Its definitions of typing by cases without a
//! default say what an accepted program is (2.3, 2.5, 2.6, 3.3), to be read beside the standard: each unit of a checked program has one such
//! typing, and it is what the program means. Which functions statements call is defined too: they stand before them in a checked program, so
//! no bound on calls, nor on the turns of loops, is ever met.
#![tactic(auto)]

mod bodies;
mod calls;
mod charts;
mod functions;
mod image;
mod laws;
mod levels;
mod making;
mod running;
mod typing;
mod units;

pub use calls::{
    bounds_are_never_met, checked_calls_are_those_of_their_bodies, checked_functions_call_below,
    checked_functions_have_no_instances, functions_call_below, sound_bodies_call_what_passes,
    sound_commands_call_what_passes, typing_calls_what_is_named,
};
pub use image::{Image, compile};
pub use laws::runs_keep_the_frame;
pub use running::run;
pub use st_machine::Stacks;
pub use typing::{
    bodies_are_strict, checked_programs_are_typed, expressions_are_strict, initials_are_strict,
    names_are_tied, own_types_are_the_same, statements_are_strict, strict_commands_are_one,
    strict_terms_are_one, typings_are_one, units_are_typed,
};
