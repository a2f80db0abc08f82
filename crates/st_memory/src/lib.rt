//! Holds the value of each leaf of a layout, and whether the leaf is forced: in cells, or packed into the bytes that the layout says. Says
//! what an online change makes of a memory, what it saves, and what gives it back.
#![tactic(auto)]

mod bytes;
mod cells;
mod fresh;
mod laws;
mod memory;
mod packed;
mod pairs;
mod saved;

pub use cells::Cells;
pub use laws::{
    back_undoes_carry, change_carries_by_path, change_saves_dropped, content_is_a_map,
    forces_stay_open,
};
pub use memory::{Memory, carry_over};
pub use packed::Packed;
pub use saved::Saved;
