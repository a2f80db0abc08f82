//! The functions of a text (2.5.1), each with a table of its inputs.
ghost use Rattle.std.specs.Prelude.{◌≡◌, ◌<◌, ◌++◌, ◌∷◌, [], IfOk, IfSome, List as Items, OnOk, length, map};
ghost use Rattle.std.specs.List.{position};
ghost use Rattle.st_references.specs.Tables.{AreInitials};
ghost use Rattle.st_meaning.specs.Wholes.{Input};
ghost use Rattle.st_places.specs.Callables.{HasVariables};
ghost use Rattle.st_scopes.specs.Declarations.{seen};
ghost use Rattle.st_types.specs.Names.{Declared as Name, Named, units_of};
ghost use Rattle.st_values.specs.Words.{is_word};
ghost use Rattle.st_values.specs.declared.elem.Elem.{Elem as Kind};

use crate::constant::value_of;
use st_meaning::Start;
use st_references::Initials;
use st_scopes::{Declared, Tables};
use st_tree::List;
use st_tree::tree::VarKind;
use st_types::NameTable;
use st_values::{Elem, Value};
use std::alloc::{AllocError, Global};
use std::marker::Model;

/// A function of the text: the number of its unit, the type of its result, and its inputs in the order of their declaration.
#[derive(Drop)]
pub struct Function<'a> {
    pub(crate) number: usize,
    pub(crate) result: Elem,
    /// The names of its inputs.
    pub(crate) names: NameTable<'a>,
    /// The values that they begin with.
    pub(crate) initials: List<Value>,
}

impl<'a> Model for Function<'a> {
    ghost use Rattle.st_meaning.specs.Wholes.{Called};

    ghost Value = { Called };

    ghost use Rattle.st_places.specs.Inputs.{HasInputs, called_seen};

    ghost view = { called_seen };

    ghost invariant = { HasInputs };
}

impl<'a> Function<'a> {
    /// The number of its unit.
    pub fn number(&self) -> usize
        ensures { result ≡ self.now.number }
    {
        self.number
    }

    /// The type of its result.
    pub fn result(&self) -> Elem
        ensures { result ≡ self.now.result }
    {
        self.result
    }

    /// The values that its inputs begin with, in the order of their declaration.
    pub fn initials(&self) -> &[Value]
        ensures { result.now ≡ map (λ (i : Input). i.initial) self.now.inputs }
    {
        self.initials.as_slice()
    }

    /// The number of the input of this name, ignoring case.
    pub fn input(&self, name: &[u8]) -> Option<usize>
        ensures number { result ≡ position (λ (i : Input). is_word i.name name.now)
            self.now.inputs }
        ensures within { IfSome result (λ i. i < length self.now.inputs) }
    {
        self.names.find(name)
    }
}

/// The inputs of a function, and with which values its variables begin.
#[derive(Drop)]
pub(crate) struct Variables<'a> {
    /// The names of the inputs.
    pub names: NameTable<'a>,
    /// The values that the inputs begin with.
    pub initials: List<Value>,
    /// How all variables begin, the result first.
    pub starts: List<Start>,
}

impl<'a> Variables<'a> {
    /// Of a function with a result of this type, and with no other variables.
    pub fn new(alloc: Global, elem: Elem) -> Result<Variables<'a>, AllocError>
        ensures { IfOk result (λ all. (units : Items Named) → HasVariables units elem [] all) }
    {
        let mut starts = List::new(alloc);
        starts.push(Start::Value(Value { elem, bits: 0 }))?;
        Ok(Variables {
            names: NameTable::new(alloc),
            initials: List::new(alloc),
            starts,
        })
    }

    /// Adds a declared name.
    pub fn add(
        &mut self,
        tables: &Tables<'_>,
        initials: &Initials<'_>,
        declared: &Declared<'a>,
    ) -> Result<(), AllocError>
        requires { AreInitials (units_of tables.now) initials.now }
        ensures { OnOk result ((e : Kind) (vs : Items Name)
            → HasVariables (units_of tables.now) e vs self.old
            → HasVariables (units_of tables.now) e (vs ++ seen declared.now ∷ []) self.new) }
    {
        if declared.kind.is_constant() {
            return Ok(());
        }
        let Some(value) = value_of(tables, initials, declared) else {
            return Ok(());
        };
        if !declared.kind.is_input() {
            return self.starts.push(Start::Value(value));
        }
        self.names.push(declared.name.spelling.as_slice())?;
        self.initials.push(value)?;
        self.starts.push(Start::Input)
    }
}
