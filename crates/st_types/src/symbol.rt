//! What names stand for.
ghost use Rattle.std.specs.Prelude.{◌≡◌, ◌<◌, None, false, length, IfSome};
ghost use Rattle.st_types.specs.Scopes.{member};
ghost use Rattle.st_types.specs.Signatures.{input_number, signature};
ghost use Rattle.st_types.specs.OwnTypes.{nth_due};
ghost use Rattle.st_types.specs.Types.{array_shape, elem_of, is_value, plain, unknown};

use crate::base::{Base, Purpose};
use crate::inputs::Inputs;
use crate::standard::StandardFunction;
use st_tree::tree::Subrange;
use st_values::Elem;
use std::marker::Model;

/// What a variable is made of: its own subscripts, where it is declared as an array, and what each of its elements is, or
/// else what it is itself.
#[derive(Drop)]
pub struct Shape<'a> {
    /// The subscripts of an array that is declared with the variable.
    pub subscripts: Option<&'a [Subrange]>,
    /// What each element is, or the variable.
    pub base: Base,
}

impl<'a> Model for Shape<'a> {
    ghost use Rattle.st_types.specs.Types.{Shape};
    ghost use Rattle.std.specs.Option.{option_map};

    ghost Value = { Shape };

    ghost view = { λ s. record { subscripts = option_map (λ ranges. ranges.now) s.subscripts; base = s.base } };
}

impl<'a> Shape<'a> {
    /// What is no array of its own.
    pub fn plain(base: Base) -> Shape<'a>
        ensures { result ≡ plain base }
    {
        Shape {
            subscripts: None,
            base,
        }
    }

    /// What fits every type.
    pub fn unknown() -> Shape<'a>
        ensures { result ≡ unknown }
    {
        Shape::plain(Base::Unknown)
    }

    /// An array of such elements.
    pub fn array(subscripts: &'a [Subrange], element: Base) -> Shape<'a>
        ensures { result ≡ array_shape subscripts.now element }
    {
        if element.without_instance().is_unknown() {
            return Shape::unknown();
        }
        Shape {
            subscripts: Some(subscripts),
            base: element,
        }
    }

    /// Its elementary type, where it is one value.
    pub fn elem(&self) -> Option<Elem>
        ensures { result ≡ elem_of self.now }
    {
        match self.subscripts {
            Some(_) => None,
            None => self.base.elem(),
        }
    }

    /// Whether it is one value.
    pub fn is_value(&self) -> bool
        ensures { result ≡ is_value self.now }
    {
        self.elem().is_some()
    }
}

/// What a name stands for, where it is that of a variable.
#[derive(Drop)]
pub struct Symbol<'a> {
    /// What it is for.
    pub purpose: Purpose,
    /// What it is made of.
    pub shape: Shape<'a>,
}

/// What stands for a name behind a variable.
#[derive(Drop)]
pub struct Member<'a> {
    /// The member, input or output.
    pub symbol: Option<Symbol<'a>>,
    /// Whether it belongs to an instance of a function block.
    pub of_instance: bool,
}

impl<'a> Member<'a> {
    /// Nothing stands for the name.
    pub fn none() -> Member<'a>
        ensures { result ≡ member None false }
    {
        Member {
            symbol: None,
            of_instance: false,
        }
    }
}

/// The subscripts of an array, and what each of its elements is.
#[derive(Drop)]
pub struct Elements<'a> {
    pub subscripts: &'a [Subrange],
    pub element: Base,
}

impl<'a> Model for Elements<'a> {
    ghost use Rattle.st_types.specs.Types.{Elements};

    ghost Value = { Elements };

    ghost view = { λ e. record { subscripts = e.subscripts.now; element = e.element } };
}

/// What is asked of a value.
#[derive(Clone, Copy, Debug, PartialEq, Eq)]
pub enum Due {
    /// Nothing.
    Any,
    /// A type.
    Type(Elem),
    /// Any integer type, as of subscripts, selectors and counts.
    Integer,
    /// What no value meets.
    NoValue,
}

/// An input of a function of the text.
#[derive(Drop)]
pub struct Input<'a> {
    pub name: &'a [u8],
    /// What is asked of its argument.
    pub due: Due,
}

impl<'a> Model for Input<'a> {
    ghost use Rattle.st_types.specs.Signatures.{Input};

    ghost Value = { Input };

    ghost view = { λ i. record { name = i.name.now; due = i.due } };
}

/// A function of the text: its result, and its inputs in order.
#[derive(Drop)]
pub struct Signature<'a> {
    result: Elem,
    inputs: &'a Inputs<'a>,
}

impl<'a> Model for Signature<'a> {
    ghost use Rattle.st_types.specs.Signatures.{Signature};

    ghost Value = { Signature };

    ghost view = { λ s. record { result = s.result; inputs = s.inputs.now } };
}

impl<'a> Signature<'a> {
    /// Of a function with this type of result and these inputs.
    pub fn new(result_type: Elem, inputs: &'a Inputs<'a>) -> Signature<'a>
        ensures { result ≡ signature result_type inputs.now }
    {
        Signature {
            result: result_type,
            inputs,
        }
    }

    /// The type of its result.
    pub fn result(&self) -> Elem
        ensures { result ≡ self.now.result }
    {
        self.result
    }

    /// How many inputs it has.
    pub fn len(&self) -> usize
        ensures { result ≡ length self.now.inputs }
    {
        self.inputs.len()
    }

    /// What is asked of the argument at this position, from 0.
    pub fn due_at(&self, position: usize) -> Due
        ensures { result ≡ nth_due self.now.inputs position }
    {
        self.inputs.due_at(position)
    }

    /// The number of the first input of this name, ignoring case.
    pub fn number_of(&self, name: &[u8]) -> Option<usize>
        ensures number { result ≡ input_number self.now.inputs name.now }
        ensures within { IfSome result (λ i. i < length self.now.inputs) }
    {
        self.inputs.number_of(name)
    }
}

/// What a word before `(` names (2.5.1.4, 3.3.2.2).
#[derive(Drop)]
pub enum Callee<'a> {
    /// Nothing that can be called.
    Missing,
    /// A variable whose type can't be known.
    Faulty,
    /// An instance of the unit.
    Instance(Base),
    /// A function block, which isn't called itself.
    Block,
    Standard(StandardFunction),
    /// `X_TO_Y`
    Conversion(Elem, Elem),
    /// A function of the text.
    Own(Signature<'a>),
}
