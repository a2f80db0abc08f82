//! How names are declared in a unit.
ghost use Rattle.std.specs.Prelude.{◌≡◌, ◌++◌, ◌∷◌, [], IfOk, OnOk, map};
ghost use Rattle.st_leaves.specs.Charts.{action_names, as_declared, storable, variable_names};
ghost use Rattle.st_scopes.specs.Declarations.{seen};
ghost use Rattle.st_types.specs.Names.{actions_in};

use st_scopes::Declared;
use st_tree::Word;
use st_tree::tree::{ChartElement, VarKind};
use st_types::NameTable;
use std::alloc::{AllocError, Global};
use std::marker::Model;

/// Names in order, as they are declared, which are looked up by a table.
#[derive(Drop)]
pub(crate) struct Spellings<'a> {
    words: Vec<&'a Word>,
    names: NameTable<'a>,
}

impl<'a> Model for Spellings<'a> {
    ghost use Rattle.std.specs.Prelude.{List, ℕ};
    ghost use Rattle.st_chart_parts.specs.Spellings.{AreSpellings};

    ghost Value = { List (List ℕ) };

    ghost view = { λ all. all.names };

    ghost invariant = { AreSpellings };
}

impl<'a> Spellings<'a> {
    /// Of these variables, but for constants, and of the actions among these elements of a chart.
    pub fn new(
        alloc: Global,
        variables: &[Declared<'a>],
        elements: &'a [ChartElement],
    ) -> Result<Spellings<'a>, AllocError>
        ensures { IfOk result (λ all. all ≡ variable_names (map seen variables.now)
            ++ action_names elements.now) }
    {
        let mut all = Spellings::none(alloc);
        all.add_variables(variables)?;
        all.add_actions(elements)?;
        Ok(all)
    }

    /// None. They take no memory.
    fn none(alloc: Global) -> Spellings<'a>
        ensures { result ≡ [] }
    {
        Spellings {
            words: Vec::new(alloc),
            names: NameTable::new(alloc),
        }
    }

    /// Adds those of these variables, but for constants.
    fn add_variables(&mut self, variables: &[Declared<'a>]) -> Result<(), AllocError>
        ensures { OnOk result (self.new ≡ self.old ++ variable_names (map seen variables.now)) }
    {
        'variables: for variable in variables {
            self.add_variable(variable)?;
        }
        Ok(())
    }

    /// Adds that of a variable, unless it is a constant.
    fn add_variable(&mut self, variable: &Declared<'a>) -> Result<(), AllocError>
        ensures { OnOk result (self.new ≡ self.old ++ storable (seen variable.now)) }
    {
        if variable.kind.is_constant() {
            return Ok(());
        }
        self.push(&variable.name.spelling)
    }

    /// Adds those of the actions among these elements.
    fn add_actions(&mut self, elements: &'a [ChartElement]) -> Result<(), AllocError>
        ensures { OnOk result (self.new ≡ self.old ++ action_names elements.now) }
    {
        'elements: for element in elements {
            self.add_action(element)?;
        }
        Ok(())
    }

    /// Adds that of an element, if it is an action.
    fn add_action(&mut self, element: &'a ChartElement) -> Result<(), AllocError>
        ensures { OnOk result (self.new ≡ self.old ++ map (λ a. a.name.spelling)
            (actions_in element.now)) }
    {
        match element {
            ChartElement::Action(action) => self.push(&action.name.spelling),
            ChartElement::Step(_) | ChartElement::Transition(_) => Ok(()),
        }
    }

    /// Adds a name.
    fn push(&mut self, word: &'a Word) -> Result<(), AllocError>
        ensures { OnOk result (self.new ≡ self.old ++ word.now ∷ []) }
    {
        self.words.reserve(1)?;
        self.names.push(word.as_slice())?;
        self.words.push(word)?;
        Ok(())
    }

    /// A name as the first of these spells it that is the same, and as it stands where none is.
    pub fn of(&self, name: &'a Word) -> &'a Word
        ensures { result.now ≡ as_declared self.now name.now }
    {
        match self.names.find(name.as_slice()) {
            Some(number) => self.words[number],
            None => name,
        }
    }
}
