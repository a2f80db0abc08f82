//! The constants of a unit (2.4.3).
ghost use Rattle.std.specs.Prelude.{◌≡◌, ◌++◌, ◌∷◌, [], List as Items, OnOk, Some};
ghost use Rattle.st_references.specs.Tables.{AreInitials};
ghost use Rattle.st_meaning.specs.Wholes.{constant_value};
ghost use Rattle.st_places.specs.Members.{HasConstants, value_declared};
ghost use Rattle.st_scopes.specs.Declarations.{seen};
ghost use Rattle.st_types.specs.Compositions.{elementary, started};
ghost use Rattle.st_types.specs.Initials.{zero_of};
ghost use Rattle.st_types.specs.Names.{Declared as Name, Named, units_of};

use st_references::{Initials, value_written};
use st_scopes::{Declared, Tables};
use st_tree::List;
use st_tree::tree::Initial;
use st_types::NameTable;
use st_values::{Elem, Value};
use std::alloc::{AllocError, Global};

/// Constants in order, and a table of their names.
#[derive(Drop)]
pub(crate) struct Constants<'a> {
    pub names: NameTable<'a>,
    /// The value of each, where it is of an elementary type.
    pub values: List<Option<Value>>,
}

impl<'a> Constants<'a> {
    /// None. They take no memory.
    pub fn new(alloc: Global) -> Constants<'a>
        ensures { (units : Items Named) → HasConstants units [] result }
    {
        Constants {
            names: NameTable::new(alloc),
            values: List::new(alloc),
        }
    }

    /// Adds a declared name.
    pub fn add(
        &mut self,
        tables: &Tables<'_>,
        initials: &Initials<'_>,
        declared: &Declared<'a>,
    ) -> Result<(), AllocError>
        requires { AreInitials (units_of tables.now) initials.now }
        ensures { OnOk result ((vs : Items Name) → HasConstants (units_of tables.now) vs self.old
            → HasConstants (units_of tables.now) (vs ++ seen declared.now ∷ []) self.new) }
    {
        let value = value_of(tables, initials, declared);
        self.names.push(declared.name.spelling.as_slice())?;
        self.values.push(value)
    }
}

/// The value that a declared name begins with, where it is of an elementary type.
pub(crate) fn value_of(
    tables: &Tables<'_>,
    initials: &Initials<'_>,
    declared: &Declared<'_>,
) -> Option<Value>
    requires { AreInitials (units_of tables.now) initials.now }
    ensures { result ≡ value_declared (units_of tables.now) (seen declared.now) }
{
    let specification = &declared.declaration.specification;
    let elem = tables.shape_of(specification).elem()?;
    if let Some(initial) = &declared.declaration.initial {
        return Some(started_value(elem, initial.get()));
    }
    match initials.of(tables, specification, None) {
        Some(written) => Some(started_value(elem, written.initial())),
        None => Some(Value { elem, bits: 0 }),
    }
}

/// The value of this type that is written.
fn started_value(elem: Elem, initial: &Initial) -> Value
    ensures { Some result ≡ constant_value (started (Some initial.now)
        (elementary (zero_of elem))) }
{
    match initial {
        Initial::Constant(constant) => value_written(elem, constant),
        Initial::Array(..) => Value { elem, bits: 0 },
    }
}
