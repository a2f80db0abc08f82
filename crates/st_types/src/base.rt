//! What variables are made of, and what they are for.
ghost use Rattle.std.specs.Prelude.{◌≡◌};
ghost use Rattle.st_types.specs.Types.{array_of, elem_in, is_instance, is_unknown, without_instance};

use crate::standard::StandardBlock;
use st_values::Elem;

/// What a variable is made of, where it is no array of its own.
#[derive(Clone, Copy, Debug, PartialEq, Eq)]
pub enum Base {
    /// It can't be known, for a fault.
    Unknown,
    /// A value of an elementary type (2.3.1).
    Elementary(Elem),
    /// An array: the number of the unit that declares its type (2.3.3.1).
    Array(usize),
    /// A structure: the number of the unit that declares it (2.3.3.1).
    Structure(usize),
    /// An instance of a function block of the text: the number of the unit (2.5.2).
    Block(usize),
    /// An instance of a standard function block (2.5.2.3).
    Standard(StandardBlock),
}

/// What a variable is for.
#[derive(Clone, Copy, Debug, PartialEq, Eq)]
pub enum Purpose {
    /// `VAR`
    Internal,
    /// `VAR CONSTANT`
    Constant,
    /// `VAR_INPUT`
    Input,
    /// `VAR_OUTPUT`
    Output,
    /// A function's name in its own statements.
    Result,
}

impl Base {
    /// Whether it can't be known.
    pub fn is_unknown(self) -> bool
        ensures { result ≡ is_unknown self }
    {
        matches!(self, Base::Unknown)
    }

    /// Whether it is an instance of a function block.
    pub fn is_instance(self) -> bool
        ensures { result ≡ is_instance self }
    {
        matches!(self, Base::Block(_) | Base::Standard(_))
    }

    /// The elementary type of what is one value.
    pub fn elem(self) -> Option<Elem>
        ensures { result ≡ elem_in self }
    {
        match self {
            Base::Elementary(elem) => Some(elem),
            _ => None,
        }
    }

    /// What stands for no type where no instance may stand.
    pub fn without_instance(self) -> Base
        ensures { result ≡ without_instance self }
    {
        if self.is_instance() {
            Base::Unknown
        } else {
            self
        }
    }

    /// The array, whose type has this number, of such elements.
    pub fn array_of(self, number: usize) -> Base
        ensures { result ≡ array_of number self }
    {
        if self.without_instance().is_unknown() {
            Base::Unknown
        } else {
            Base::Array(number)
        }
    }
}
