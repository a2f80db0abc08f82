//! Defines which leaves a program has, in which order, under which paths and with which values. Counts them, the bytes that they take and
//! the letters of their paths, without listing them.
#![tactic(auto)]

mod array;
mod chart;
mod laws;
mod limited;
mod names;
mod size;
mod standard;
mod stored;
mod subrange;

pub use array::{array_size, number_written};
pub use chart::{chart_size, has_pulse, leaves_of_step};
pub use laws::{
    flags_have_charts, leaves_are_counted, leaves_begin_with_values, leaves_follow_the_composition,
    paths_are_distinct, places_are_numbers,
};
pub use limited::{Choices, MAX_COUNT, Size};
pub use names::AssociatedNames;
pub use size::{leaf_size, named_size};
pub use standard::standard_size;
pub use stored::stored_names;
pub use subrange::Number;
