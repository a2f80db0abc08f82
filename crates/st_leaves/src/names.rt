//! The names that the steps of a chart are associated with (2.6.4.3).
ghost use Rattle.std.specs.Prelude.{◌≡◌, ◌<◌, ◌∷◌, [], IfOk, IfSome, OnOk, Some, length, slice_get};
ghost use Rattle.std.specs.List.{position};
ghost use Rattle.st_leaves.specs.Associated.{HasNamesOf};
ghost use Rattle.st_leaves.specs.Charts.{associated_names, associations_in, spelled};
ghost use Rattle.st_values.specs.Words.{is_word};

use st_tree::Word;
use st_tree::tree::{Association, ChartElement};
use st_types::NameTable;
use std::alloc::{AllocError, Global};
use std::marker::Model;

/// The names that the steps of a chart are associated with, each once, in the order of its first association, and a table of them.
#[derive(Drop)]
pub struct AssociatedNames<'a> {
    words: Vec<&'a Word>,
    numbers: NameTable<'a>,
}

impl<'a> Model for AssociatedNames<'a> {
    ghost use Rattle.std.specs.Prelude.{List, ℕ};
    ghost use Rattle.st_leaves.specs.Inside.{AreNames};

    ghost Value = { List (List ℕ) };

    ghost view = { λ names. names.numbers };

    ghost invariant = { AreNames };
}

impl<'a> AssociatedNames<'a> {
    /// Those of the steps among these elements.
    pub fn of(
        alloc: Global,
        elements: &'a [ChartElement],
    ) -> Result<AssociatedNames<'a>, AllocError>
        ensures { IfOk result (λ names. names ≡ associated_names (associations_in elements.now)) }
    {
        let mut names = AssociatedNames::none(alloc);
        'elements: for element in elements {
            let ChartElement::Step(step) = element else {
                continue;
            };
            names.add_all(step.associations.as_slice())?;
        }
        Ok(names)
    }

    /// None. They take no memory.
    fn none(alloc: Global) -> AssociatedNames<'a>
        ensures { result ≡ [] }
    {
        AssociatedNames {
            words: Vec::new(alloc),
            numbers: NameTable::new(alloc),
        }
    }

    /// Adds the names of further associations.
    fn add_all(&mut self, associations: &'a [Association]) -> Result<(), AllocError>
        ensures { OnOk result (HasNamesOf associations.now self.old self.new) }
    {
        'associations: for association in associations {
            self.add(association)?;
        }
        Ok(())
    }

    /// Adds the name of one more association, if it isn't there yet.
    fn add(&mut self, association: &'a Association) -> Result<(), AllocError>
        ensures { OnOk result (HasNamesOf (association.now ∷ []) self.old self.new) }
    {
        let name = association.name.spelling.as_slice();
        if self.find(name).is_some() {
            return Ok(());
        }
        self.words.reserve(1)?;
        self.numbers.push(name)?;
        self.words.push(&association.name.spelling)?;
        Ok(())
    }

    /// How many names there are.
    pub fn len(&self) -> usize
        ensures { result ≡ length self.now }
    {
        self.numbers.len()
    }

    /// The name of this number, as its first association spells it.
    pub fn name(&self, number: usize) -> &'a [u8]
        requires { number < length self.now }
        ensures { slice_get self.now number ≡ Some result.now }
    {
        self.words[number].as_slice()
    }

    /// The names in order, as their first associations spell them.
    pub(crate) fn words(&self) -> &[&'a Word]
        ensures { spelled result.now ≡ self.now }
    {
        self.words.as_slice()
    }

    /// The number of this name, ignoring case.
    pub fn find(&self, name: &[u8]) -> Option<usize>
        ensures number { result ≡ position (is_word name.now) self.now }
        ensures within { IfSome result (λ number. number < length self.now) }
    {
        self.numbers.find(name)
    }
}
