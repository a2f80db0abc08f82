//! Compares names without regard to case (IEC 61131-3:2003, 2.1.2), and says what the types of a text stand for, which functions and function
//! blocks are standard, and which type an expression has of itself. All crates of the checks cite its definitions.
#![tactic(auto)]

mod base;
mod functions;
mod inputs;
mod link;
mod literal;
mod name_table;
mod pin;
mod spelling;
mod standard;
mod symbol;
mod types;
mod unit;
mod walk;

pub use base::{Base, Purpose};
pub use functions::{function_gives, standard_due, takes_count, types_call};
pub use inputs::Inputs;
pub use literal::{literal_own, or_lint};
pub use name_table::NameTable;
pub use pin::{Kept, Pin};
pub use spelling::is_same_name;
pub use standard::{Standard, StandardBlock, StandardFunction, standard_of};
pub use symbol::{Callee, Due, Elements, Input, Member, Shape, Signature, Symbol};
pub use types::TypeTable;
pub use unit::{NamedUnit, UnitKind};
