//! Works out one invocation of a standard function block from the values of its leaves (IEC 61131-3:2003, 2.5.2.3).
#![tactic(auto)]

mod bistable;
mod block;
mod cells;
mod counter;
mod laws;
mod time;
mod timer;
mod ton;
mod trigger;

pub use bistable::Bistable;
pub use block::{MAX_BLOCK_LEAVES, block_step, leaf_count};
pub use counter::Counter;
pub use laws::{
    blocks_begin_with_their_leaves, blocks_keep_their_types, cells_are_read, counters_move_by_one,
    edges_are_found, inputs_dominate, inputs_stay, outputs_are_delayed,
    pulses_are_as_long_as_preset, times_stay_within_preset,
};
pub use timer::Timer;
pub use ton::Ton;
pub use trigger::Trigger;
