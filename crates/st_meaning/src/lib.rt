//! Defines what programs mean: the values of expressions, and what statements and charts do to the values of variables, which are found by
//! their paths (IEC 61131-3:2003, 2.6 and 3.3). No code and no stack stands in it. Charts are put into the numbers that this meaning and the
//! machine have, once and in time linear in their texts.
#![tactic(auto)]

mod fault;
mod laws;
mod numbers;
mod offsets;
mod operation;
mod parts;
mod qualifiers;
mod sketch;
mod start;

pub use fault::{RunFault, RunFaultKind};
pub use laws::{
    bodies_depend_on_their_calls, bodies_keep_the_frame, called_functions_matter_alone,
    calls_are_sound, calls_are_those_of_their_bodies, commands_keep_the_frame,
    functions_declare_their_results, places_have_leaves, places_take_steps, sketches_are_in_range,
    terms_give_values, typing_gives_sound_bodies, typing_gives_sound_units,
};
pub use operation::{Binary, Unary};
pub use sketch::{Sketch, sketch_of};
pub use start::Start;
