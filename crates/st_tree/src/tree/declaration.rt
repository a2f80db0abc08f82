//! Declarations of variables and types (2.3.3, 2.4.3).
ghost use Rattle.std.specs.Prelude.{◌≡◌};
ghost use Rattle.st_tree.specs.Kinds.{is_constant, is_input, is_output};

use crate::boxed::Boxed;
use crate::list::List;
use crate::tree::constant::{Constant, SignedInteger};
use crate::tree::position::{Identifier, Position};
use st_values::{Elem, Natural};

/// The name of a type.
#[derive(Drop)]
pub enum TypeName {
    Elementary(Position, Elem),
    /// A declared type, or a function block.
    Declared(Identifier),
}

/// The bounds of a subscript. Both belong to it.
#[derive(Clone, Copy)]
pub struct Subrange {
    /// The least subscript.
    pub lower: SignedInteger,
    /// The greatest subscript.
    pub upper: SignedInteger,
}

/// What a variable, a member or a declared type is.
#[derive(Drop)]
pub enum Specification {
    /// One of a named type.
    Simple(TypeName),
    /// `ARRAY`: its subscripts, and the type of its elements.
    Array(Position, List<Subrange>, Boxed<TypeName>),
}

/// An initial value (2.4.2).
#[derive(Drop)]
pub enum Initial {
    /// A literal.
    Constant(Constant),
    /// The elements of an array, from the first on. The position is that of the `[`.
    Array(Position, List<ArrayElement>),
}

/// A part of an array's initial values.
#[derive(Drop)]
pub enum ArrayElement {
    /// One element.
    Single(Constant),
    /// So many elements in a row, of this value or of the one that their type has.
    Repeated(Position, Natural, Option<Boxed<Constant>>),
}

/// Names that are declared together, as variables or as a member.
#[derive(Drop)]
pub struct Declaration {
    pub names: List<Identifier>,
    /// What each of them is.
    pub specification: Specification,
    /// With which value it begins, where one is written.
    pub initial: Option<Boxed<Initial>>,
}

/// What the variables of a block of declarations are for (2.4.3, table 16).
#[derive(Clone, Copy)]
pub enum VarKind {
    /// `VAR`
    Internal,
    /// `VAR CONSTANT`
    Constant,
    /// `VAR_INPUT`
    Input,
    /// `VAR_OUTPUT`
    Output,
}

impl VarKind {
    pub fn is_input(self) -> bool
        ensures { result ≡ is_input self }
    {
        matches!(self, VarKind::Input)
    }

    pub fn is_output(self) -> bool
        ensures { result ≡ is_output self }
    {
        matches!(self, VarKind::Output)
    }

    pub fn is_constant(self) -> bool
        ensures { result ≡ is_constant self }
    {
        matches!(self, VarKind::Constant)
    }
}

/// A block of declarations, from VAR, VAR_INPUT or VAR_OUTPUT to END_VAR.
#[derive(Drop)]
pub struct VarBlock {
    /// Where it begins.
    pub position: Position,
    /// What its variables are for. RETAIN and NON_RETAIN have no effect, and aren't kept.
    pub kind: VarKind,
    pub declarations: List<Declaration>,
}

/// What a type is declared as.
#[derive(Drop)]
pub enum DeclaredType {
    /// Another type, or an array, and the value with which its variables begin, where one is written.
    Derived(Specification, Option<Boxed<Initial>>),
    /// A structure of these members. Each declares one name.
    Structure(Position, List<Declaration>),
}
