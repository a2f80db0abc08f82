//! What an expression does with the values of its operands.
use st_tree::BinOp;
use st_values::Elem;

/// An operator before an operand, or a function of one value (3.3.1, 2.5.1.5).
#[derive(Clone, Copy, Debug, PartialEq, Eq)]
pub enum Unary {
    /// `-`
    Negate,
    /// `NOT`
    Complement,
    /// `ABS`
    Absolute,
    /// A conversion to this type, as `INT_TO_DINT`.
    Convert(Elem),
}

/// An operator between two operands, or a function of two values (3.3.1, 2.5.1.5).
#[derive(Clone, Copy, Debug, PartialEq, Eq)]
pub enum Binary {
    /// As `+`.
    Operator(BinOp),
    /// `MIN` of two. Of more it is taken with one after the other.
    Least,
    /// `MAX` of two.
    Greatest,
    /// `SHL`
    ShiftLeft,
    /// `SHR`
    ShiftRight,
    /// `ROL`
    RotateLeft,
    /// `ROR`
    RotateRight,
}
