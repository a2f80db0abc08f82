//! Works out one invocation of a sequential function chart: which transitions are cleared, which steps are active, and which names are on
//! (IEC 61131-3:2003, 2.6). It knows no text, no leaves and no values.
#![tactic(auto)]

mod chart;
mod clearing;
mod laws;
mod names;
mod order;
mod step;
mod table;

pub use chart::chart_step;
pub use laws::{
    cleared_transitions_move_steps, clearing_is_determined, invocations_have_one_outcome,
    only_enabled_are_cleared, other_steps_stay, priorities_decide, pulses_are_single, reset_wins,
    times_are_set_once,
};
pub use step::{StepCell, chart_times};
pub use table::{ChartTable, Link, Qualifier, Transition};
