//! Finds what names in the statements of a text's units stand for, in constant time a name: the parts of variables by offsets, bounds
//! and strides. Its tables are made once, in time linear in the text.
#![tactic(auto)]

mod chart;
mod constant;
mod content;
mod count;
mod dimension;
mod function;
mod functions;
mod laws;
mod member;
mod node;
mod step;
mod tables;
mod unit;

pub use function::Function;
pub use laws::{charts_are_in_bodies, instances_are_of_blocks, units_are_sound};
pub use node::{Dimension, Node};
pub use tables::Tables;
