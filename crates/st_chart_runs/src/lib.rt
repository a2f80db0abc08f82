//! Runs charts over the leaves of a memory: what a chart keeps is read from them, one invocation is worked out, and what isn't forced is
//! written back, without allocating (IEC 61131-3:2003, 2.6).
#![tactic(auto)]

mod cells;
mod flags;
mod leaves;
mod questions;
mod rooms;
mod runs;
mod state;
mod steps;
mod values;
mod workspace;

pub use leaves::{load_values, store_value, store_values};
pub use questions::is_asked;
pub use rooms::room_for;
pub use runs::{invoke_chart, set_times};
pub use workspace::{ChartRoom, Workspace};
