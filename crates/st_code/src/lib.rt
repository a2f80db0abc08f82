//! Defines the code of units for a stack machine: its instructions and what each does. Its main law says that the code of statements and
//! charts does as they mean. Counts how many numbers a body needs on the stack, by the structure of its trees, and puts a table of entries
//! beside code: each entry stands for one to ten instructions, which the machine does in one go.
#![tactic(auto)]

mod choosing;
mod code;
mod depth;
mod entry;
mod fused;
mod instr;
mod laws;
mod logic;
mod pair;

pub use choosing::result_of;
pub use code::Code;
pub use depth::{body_depth, statements_depth};
pub use entry::{Entry, Pace, Use};
pub use fused::Fused;
pub use instr::Instr;
pub use laws::{
    code_calls_functions, code_does_as_commands_mean, code_enters_what_is_invoked,
    code_is_of_its_chart, depth_is_at_most_the_length, instructions_are_relative,
    instructions_keep_lengths, runs_are_relative, typing_enters_instances, typing_invokes_bodies,
};
pub use logic::{Logic, Term};
pub use pair::Pair;
