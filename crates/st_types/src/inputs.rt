//! The inputs of a function (2.5.1), in order and by name.
ghost use Rattle.std.specs.Prelude.{◌≡◌, ◌++◌, ◌∷◌, [], ◌<◌, IfSome, OnErr, OnOk, length, option_copied, slice_get};
ghost use Rattle.st_types.specs.OwnTypes.{nth_due};
ghost use Rattle.st_types.specs.Signatures.{input_number};
ghost use Rattle.st_types.specs.Inputs.{input};

use crate::NameTable;
use crate::symbol::{Due, Input};
use std::alloc::{AllocError, Global};
use std::marker::Model;

/// The inputs of a function in order, and a table of their names.
#[derive(Drop)]
pub struct Inputs<'a> {
    items: Vec<Input<'a>>,
    names: NameTable<'a>,
}

impl<'a> Model for Inputs<'a> {
    ghost use Rattle.std.specs.Prelude.{List};
    ghost use Rattle.st_types.specs.Signatures.{Input as Seen};

    ghost Value = { List Seen };

    ghost use Rattle.st_types.specs.Inputs.{AreInputs};

    ghost view = { λ inputs. inputs.items.items };

    ghost invariant = { AreInputs };
}

impl<'a> Inputs<'a> {
    /// None. They take no memory.
    pub fn new(alloc: Global) -> Inputs<'a>
        ensures { result ≡ [] }
    {
        Inputs {
            items: Vec::new(alloc),
            names: NameTable::new(alloc),
        }
    }

    /// Adds an input at the end.
    pub fn push(&mut self, name: &'a [u8], due: Due) -> Result<(), AllocError>
        ensures ok { OnOk result (self.new ≡ self.old ++ input name.now due ∷ []) }
        ensures err { OnErr result (self.new ≡ self.old) }
    {
        self.items.reserve(1)?;
        self.names.push(name)?;
        self.items.push(Input { name, due })?;
        Ok(())
    }

    /// How many there are.
    pub fn len(&self) -> usize
        ensures { result ≡ length self.now }
    {
        self.items.len()
    }

    /// The input at this position.
    fn at(&self, position: usize) -> Option<&Input<'a>>
        ensures { option_copied result ≡ slice_get self.now position }
    {
        self.items.get(position)
    }

    /// What is asked of the argument at this position, from 0.
    pub fn due_at(&self, position: usize) -> Due
        ensures { result ≡ nth_due self.now position }
    {
        match self.at(position) {
            Some(input) => input.due,
            None => Due::Any,
        }
    }

    /// The number of the first input of this name, ignoring case.
    pub fn number_of(&self, name: &[u8]) -> Option<usize>
        ensures number { result ≡ input_number self.now name.now }
        ensures within { IfSome result (λ i. i < length self.now) }
    {
        self.names.find(name)
    }
}
