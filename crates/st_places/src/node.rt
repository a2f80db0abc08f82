//! Parts of variables (2.4.1).
use st_values::Elem;

/// A part of the variables of a unit, by what it is a part of.
#[derive(Clone, Copy, Debug, PartialEq, Eq)]
pub enum Node {
    /// All variables of the unit of this number, with its chart.
    Whole(usize),
    /// A variable of a unit, or a member of a structure: the number of the unit, and that of the name among those that are
    /// declared in it and are no constants.
    Member(usize, usize),
    /// Each element of such a variable or member, which is declared as an array.
    Element(usize, usize),
    /// Each element of what has the array type of this unit.
    ArrayElement(usize),
    /// An input or an output of a standard function block.
    Pin(Elem),
}

/// One subscript of an array.
#[derive(Clone, Copy, Debug, PartialEq, Eq)]
pub struct Dimension {
    /// How far the upper bound is above the lower one.
    pub last: u16,
    /// How many leaves stand between two elements whose subscripts differ by one.
    pub stride: u32,
    /// The least subscript.
    pub low: i64,
}
