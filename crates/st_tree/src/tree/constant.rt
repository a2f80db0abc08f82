//! Literals (2.2).
use crate::tree::position::Position;
use st_values::{CompactValue, Integer, Natural};

/// A decimal or based number with its sign (2.2.1).
#[derive(Clone, Copy)]
pub struct SignedInteger {
    /// Where the sign stands, or the number where it has none.
    pub position: Position,
    /// Whether the sign is `-`.
    pub is_negative: bool,
    /// The number without its sign. Each above 2^64 - 1 counts as 2^64.
    pub magnitude: Natural,
}

/// A duration (2.2.3.1).
#[derive(Clone, Copy)]
pub struct Duration {
    pub position: Position,
    /// In milliseconds. Each outside -2^63 to 2^63 - 1 counts as 2^64.
    pub milliseconds: Integer,
}

/// A literal.
#[derive(Clone, Copy)]
pub enum Constant {
    /// A number, which has the type that is due.
    Integer(SignedInteger),
    /// A typed literal, as `INT#5`. Its number may lie outside the type's range.
    Typed(Position, CompactValue),
    Duration(Duration),
    /// `TRUE` or `FALSE`.
    Bool(Position, bool),
}
