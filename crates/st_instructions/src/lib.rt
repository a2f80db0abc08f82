//! Does each instruction by itself, over a stack and the leaves of a memory, or the variables of a function.
#![tactic(auto)]

mod blocks;
mod cells;
mod counting;
mod distances;
mod leaves;
pub mod local;
mod moves;
mod operations;
mod performing;
mod quick;
mod stack;
mod transfers;
mod variables;

pub use cells::{NO_VALUE, value_in};
pub use counting::{go_back, go_next, step, test};
pub use distances::{distance_in, far_in, strides};
pub use leaves::{load, load_as, store};
pub use moves::{Move, place_after};
pub use operations::{at_once, in_turn, lies_within, logical};
pub use performing::{is_own, perform};
pub use quick::{negated, negated_if, unary};
pub use stack::Stack;
pub use transfers::leaf_behind;
