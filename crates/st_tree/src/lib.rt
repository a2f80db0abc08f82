//! Holds what a program is made of: names, lists, and the trees of a text's units, down to expressions. Leaves, the single values of a
//! program, have their type here too.
#![tactic(auto)]

mod boxed;
mod leaf;
mod list;
mod name;
mod operator;
pub mod tree;
mod word;

pub use boxed::Boxed;
pub use leaf::{Leaf, Role};
pub use list::List;
pub use name::{MAX_NAME_BYTES, Name};
pub use operator::BinOp;
pub use word::Word;
