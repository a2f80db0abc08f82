//! Tables of a text: its units, what they declare, and what its types stand for.
ghost use Rattle.std.specs.Prelude.{◌≡◌, ◌<◌, IfOk, IfSome, Some, length, map, slice_get};
ghost use Rattle.std.specs.Option.{option_copied, option_map};
ghost use Rattle.st_scopes.specs.Declarations.{names_at, seen};
ghost use Rattle.st_types.specs.Inside.{declares_at, named_by};
ghost use Rattle.st_types.specs.Names.{number_of, unit_at, units_of};
ghost use Rattle.st_types.specs.Types.{elements_in, shape_of, type_at};
ghost use Rattle.st_scopes.specs.UnitNames.{unit_names};

use crate::declaration::Declared;
use crate::lookup::elements_in;
use crate::names::{UnitNames, names_of};
use crate::scope::Scope;
use st_tree::tree::{Specification, Unit};
use st_types::{Base, Elements, NamedUnit, Shape, TypeTable};
use std::alloc::{AllocError, Global};
use std::marker::Model;

/// Tables of a text. They are made once, and each name of the text is put into them once.
#[derive(Drop)]
pub struct Tables<'a> {
    text: &'a [Unit],
    types: TypeTable<'a>,
    /// What is declared in each unit.
    names: Vec<UnitNames<'a>>,
}

impl<'a> Model for Tables<'a> {
    ghost use Rattle.std.specs.Coded.{codes};
    ghost use Rattle.std.specs.Prelude.{List};
    ghost use Rattle.st_tree.specs.contracts.tree.expression.Expression as expression;
    ghost use Rattle.st_tree.specs.contracts.tree.statement.Statement as statement;
    ghost use Rattle.st_tree.specs.declared.tree.unit.Unit.{Unit as Section};

    ghost Value = { List Section };

    ghost coded = { Prim.hlevel (codes, statement.the_row.coded, expression.the_row.coded) };

    ghost use Rattle.st_scopes.specs.TextTables.{AreTables};

    ghost view = { λ t. t.text.now };

    ghost invariant = { AreTables };
}

impl<'a> Tables<'a> {
    /// The tables of a text.
    pub fn new(alloc: Global, text: &'a [Unit]) -> Result<Tables<'a>, AllocError>
        ensures { IfOk result (λ tables. tables ≡ text.now) }
    {
        let types = TypeTable::new(alloc, text)?;
        let names = names_of(alloc, &types)?;
        Ok(Tables { text, types, names })
    }

    /// The units of the text that the tables are of.
    pub fn text(&self) -> &'a [Unit]
        ensures { result.now ≡ self.now }
    {
        self.text
    }

    /// How many units the text has.
    pub fn len(&self) -> usize
        ensures { result ≡ length (units_of self.now) }
    {
        self.types.len()
    }

    /// The units, in order.
    pub fn units(&self) -> &[NamedUnit<'a>]
        ensures { map named_by result.now ≡ units_of self.now }
    {
        self.types.units()
    }

    /// The unit of this number.
    pub fn unit(&self, number: usize) -> NamedUnit<'a>
        requires { number < length (units_of self.now) }
        ensures { Some (named_by result) ≡ unit_at (units_of self.now) number }
    {
        self.types.unit(number)
    }

    /// What the unit of this number declares, in order: its variables, or the members of a structure.
    pub fn declared(&self, unit: usize) -> &[Declared<'a>]
        requires { unit < length (units_of self.now) }
        ensures { map seen result.now ≡ names_at (units_of self.now) unit }
    {
        let names = &self.names[unit];
        names.declarations.as_slice()
    }

    /// The number of the first unit of this name, ignoring case.
    pub fn number_of(&self, name: &[u8]) -> Option<usize>
        ensures number { result ≡ number_of (units_of self.now) name.now }
        ensures within { IfSome result (λ i. i < length (units_of self.now)) }
    {
        self.types.number_of(name)
    }

    /// What the unit of this number stands for as a type (2.3.3).
    pub fn type_at(&self, unit: usize) -> Base
        ensures { result ≡ type_at (units_of self.now) unit }
    {
        self.types.type_at(unit)
    }

    /// What is specified.
    pub fn shape_of<'s>(&self, specification: &'s Specification) -> Shape<'s>
        ensures { result ≡ shape_of (units_of self.now) specification.now }
    {
        self.types.shape_of(specification)
    }

    /// The subscripts and elements of an array type.
    pub fn elements(&self, base: Base) -> Option<Elements<'_>>
        ensures { result ≡ elements_in (units_of self.now) base }
    {
        elements_in(self, base)
    }

    /// What the names in the statements of a unit stand for.
    pub fn scope(&self, unit: usize) -> Scope<'_>
        requires { unit < length (units_of self.now) }
        ensures { result ≡ (self.now, unit) }
    {
        Scope::new(self, unit)
    }

    /// The units and types.
    pub(crate) fn types(&self) -> &TypeTable<'a>
        ensures { result.now ≡ units_of self.now }
    {
        &self.types
    }

    /// What is declared in the unit of this number.
    pub(crate) fn names(&self, unit: usize) -> Option<&UnitNames<'a>>
        ensures { option_copied result
            ≡ option_map (unit_names (units_of self.now)) (declares_at (units_of self.now) unit) }
    {
        names_at(&self.names, unit)
    }
}

/// What is declared in the unit of this number.
fn names_at<'t, 'a>(names: &'t [UnitNames<'a>], unit: usize) -> Option<&'t UnitNames<'a>>
    ensures { option_copied result ≡ slice_get names.now unit }
{
    names.get(unit)
}
