//! The variables of functions as calls begin.
use st_values::Value;

/// With which value a variable of a function begins in a call.
#[derive(Clone, Copy)]
pub enum Start {
    /// The next input's.
    Input,
    /// This one.
    Value(Value),
}
