//! What the types of a text stand for (2.3.3), and what variables are made of (2.4.1).
ghost use Rattle.std.specs.Prelude.{◌≡◌, ◌<◌, IfOk, IfSome, Some, length, map};
ghost use Rattle.std.specs.Option.{option_map};
ghost use Rattle.st_types.specs.Inside.{declared_by, declares_at, named_by};
ghost use Rattle.st_types.specs.Links.{names_of};
ghost use Rattle.st_types.specs.Names.{number_of, unit_at, units_of};
ghost use Rattle.st_types.specs.Types.{name_stands_for, shape_of, type_at, type_named};

use crate::NameTable;
use crate::base::Base;
use crate::link::links_of;
use crate::standard::{Standard, standard_of};
use crate::symbol::Shape;
use crate::unit::{NamedUnit, UnitKind, units_of};
use crate::walk::bases_of;
use st_tree::tree::{Specification, TypeName, Unit};
use std::alloc::{AllocError, Global};
use std::marker::Model;

/// The units of a text by number and by name, and what each stands for as a type.
#[derive(Drop)]
pub struct TypeTable<'a> {
    units: Vec<NamedUnit<'a>>,
    names: NameTable<'a>,
    bases: Vec<Base>,
}

impl<'a> Model for TypeTable<'a> {
    ghost use Rattle.std.specs.Prelude.{List};
    ghost use Rattle.st_types.specs.Names.{Named};
    ghost use Rattle.std.specs.Coded.{codes};
    ghost use Rattle.st_tree.specs.contracts.tree.expression.Expression as expression;
    ghost use Rattle.st_tree.specs.contracts.tree.statement.Statement as statement;

    ghost Value = { List Named };

    ghost coded = { Prim.hlevel (codes, statement.the_row.coded, expression.the_row.coded) };

    ghost use Rattle.st_types.specs.Inside.{IsTypeTable, units_seen};

    ghost view = { units_seen };

    ghost invariant = { IsTypeTable };
}

impl<'a> TypeTable<'a> {
    /// The table of a text. Each unit is read once.
    pub fn new(alloc: Global, text: &'a [Unit]) -> Result<TypeTable<'a>, AllocError>
        ensures { IfOk result (λ table. table ≡ units_of text.now) }
    {
        let units = units_of(alloc, text)?;
        let names = names_of(alloc, &units)?;
        let links = links_of(alloc, &units, &names)?;
        let bases = bases_of(alloc, &links)?;
        Ok(TypeTable {
            units,
            names,
            bases,
        })
    }

    /// How many units there are.
    pub fn len(&self) -> usize
        ensures { result ≡ length self.now }
    {
        self.units.len()
    }

    /// The units, in order.
    pub fn units(&self) -> &[NamedUnit<'a>]
        ensures { map named_by result.now ≡ self.now }
    {
        &self.units
    }

    /// The unit of this number.
    pub fn unit(&self, number: usize) -> NamedUnit<'a>
        requires { number < length self.now }
        ensures { Some (named_by result) ≡ unit_at self.now number }
    {
        self.units[number]
    }

    /// What the unit of this number declares.
    pub fn kind(&self, number: usize) -> Option<UnitKind<'a>>
        ensures { option_map declared_by result ≡ declares_at self.now number }
    {
        if number < self.len() {
            Some(self.unit(number).kind)
        } else {
            None
        }
    }

    /// The number of the first unit of this name, ignoring case.
    pub fn number_of(&self, name: &[u8]) -> Option<usize>
        ensures number { result ≡ number_of self.now name.now }
        ensures within { IfSome result (λ i. i < length self.now) }
    {
        self.names.find(name)
    }

    /// What the unit of this number stands for as a type.
    pub fn type_at(&self, number: usize) -> Base
        ensures { result ≡ type_at self.now number }
    {
        match self.bases.get(number) {
            Some(base) => *base,
            None => Base::Unknown,
        }
    }

    /// What a name stands for as a type.
    #[tactic(auto, unfolding(crate::specs::Types::type_named))]
    fn type_named(&self, name: &[u8]) -> Base
        ensures { result ≡ type_named self.now name.now }
    {
        match standard_of(name) {
            Some(Standard::Block(block)) => Base::Standard(block),
            Some(_) => Base::Unknown,
            None => match self.number_of(name) {
                Some(number) => self.type_at(number),
                None => Base::Unknown,
            },
        }
    }

    /// What the name of a type stands for.
    pub fn base_of(&self, name: &TypeName) -> Base
        ensures { result ≡ name_stands_for (type_named self.now) name.now }
    {
        match name {
            TypeName::Elementary(_, elem) => Base::Elementary(*elem),
            TypeName::Declared(identifier) => self.type_named(identifier.spelling.as_slice()),
        }
    }

    /// What is specified.
    #[tactic(auto, unfolding(crate::specs::Types::shape_of))]
    pub fn shape_of<'s>(&self, specification: &'s Specification) -> Shape<'s>
        ensures { result ≡ shape_of self.now specification.now }
    {
        match specification {
            Specification::Simple(name) => Shape::plain(self.base_of(name)),
            Specification::Array(_, ranges, name) => {
                Shape::array(ranges.as_slice(), self.base_of(name.get()))
            }
        }
    }
}

/// The names of units, in order.
fn names_of<'a>(alloc: Global, units: &[NamedUnit<'a>]) -> Result<NameTable<'a>, AllocError>
    ensures { IfOk result (λ names. names ≡ names_of (map named_by units.now)) }
{
    let mut names = NameTable::new(alloc);
    for unit in units {
        names.push(unit.name.spelling.as_slice())?;
    }
    Ok(names)
}
