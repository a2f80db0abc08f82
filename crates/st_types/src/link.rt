//! What a unit stands for as a type, before the types that it names are known (2.3.3).
ghost use Rattle.std.specs.Prelude.{◌≡◌, ℕ, IfOk, length, map};
ghost use Rattle.std.specs.List.{All};
ghost use Rattle.st_types.specs.Inside.{declared_by, named_by};
ghost use Rattle.st_types.specs.Links.{LeadsBelow, alias_link, array_link, link_at, name_link, optional_link, through, unit_link};
ghost use Rattle.st_types.specs.Names.{type, unit_at};

use crate::NameTable;
use crate::base::Base;
use crate::standard::{Standard, standard_of};
use crate::unit::{NamedUnit, UnitKind};
use st_tree::tree::{DeclaredType, Specification, TypeName};
use std::alloc::{AllocError, Global};

/// What a unit stands for as a type, before the types that it names are known.
#[derive(Clone, Copy)]
pub enum Link {
    /// This type.
    Known(Base),
    /// What the unit of this number stands for.
    SameAs(usize),
    /// An array of what the unit of this number stands for.
    ArrayOf(usize),
}

/// The links of these units. The table has their names.
pub fn links_of(
    alloc: Global,
    units: &[NamedUnit],
    names: &NameTable,
) -> Result<Vec<Link>, AllocError>
    ensures links { IfOk result
        (λ links. (i : ℕ) → link_at links.items i
        ≡ optional_link names.now i (unit_at (map named_by units.now) i)) }
    ensures len { IfOk result (λ links. length links.items ≡ length units.now) }
    ensures closed { IfOk result (λ links. All (LeadsBelow (length names.now)) links.items) }
{
    let mut links = Vec::new(alloc);
    for (number, unit) in units.iter().enumerate() {
        links.push(unit_link(names, number, unit.kind))?;
    }
    Ok(links)
}

/// The link of a unit of this number.
fn unit_link(names: &NameTable, number: usize, kind: UnitKind) -> Link
    ensures link { result ≡ unit_link names.now number (declared_by kind.entry) }
    ensures closed { LeadsBelow (length names.now) result }
{
    match kind {
        UnitKind::Type(declared) => type_link(names, number, declared),
        UnitKind::Block(_) => Link::Known(Base::Block(number)),
        UnitKind::Function(_) | UnitKind::Program(_) => Link::Known(Base::Unknown),
    }
}

/// The link of a declared type.
fn type_link(names: &NameTable, number: usize, declared: &DeclaredType) -> Link
    ensures link { result ≡ unit_link names.now number (type declared.now) }
    ensures closed { LeadsBelow (length names.now) result }
{
    match declared {
        DeclaredType::Structure(..) => Link::Known(Base::Structure(number)),
        DeclaredType::Derived(Specification::Simple(name), _) => name_link(names, name).of_alias(),
        DeclaredType::Derived(Specification::Array(_, _, name), _) => {
            name_link(names, name.get()).of_array(number)
        }
    }
}

/// The type that a name stands for, or the unit.
fn name_link(names: &NameTable, name: &TypeName) -> Link
    ensures link { result ≡ name_link names.now name.now }
    ensures closed { LeadsBelow (length names.now) result }
{
    let spelling = match name {
        TypeName::Elementary(_, elem) => return Link::Known(Base::Elementary(*elem)),
        TypeName::Declared(identifier) => identifier.spelling.as_slice(),
    };
    match standard_of(spelling) {
        Some(Standard::Block(block)) => Link::Known(Base::Standard(block)),
        Some(_) => Link::Known(Base::Unknown),
        None => match names.find(spelling) {
            Some(unit) => Link::SameAs(unit),
            None => Link::Known(Base::Unknown),
        },
    }
}

impl Link {
    /// Of a type that is declared as the one at the link.
    fn of_alias(self) -> Link
        ensures link { result ≡ alias_link self }
        ensures closed { (n : ℕ) → LeadsBelow n self → LeadsBelow n result }
    {
        match self {
            Link::Known(base) => Link::Known(base.without_instance()),
            other => other,
        }
    }

    /// Of an array, whose type has this number, of the one at the link.
    fn of_array(self, number: usize) -> Link
        ensures link { result ≡ array_link number self }
        ensures closed { (n : ℕ) → LeadsBelow n self → LeadsBelow n result }
    {
        match self {
            Link::Known(base) => Link::Known(base.array_of(number)),
            Link::SameAs(unit) | Link::ArrayOf(unit) => Link::ArrayOf(unit),
        }
    }
    /// What the unit of this number stands for, where the one at the link stands for this type.
    pub fn through(self, number: usize, base: Base) -> Base
        ensures { result ≡ through self number base }
    {
        match self {
            Link::Known(known) => known,
            Link::SameAs(_) => base.without_instance(),
            Link::ArrayOf(_) => base.array_of(number),
        }
    }
}
