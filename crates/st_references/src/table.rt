//! The initial values of types and of what is declared (2.3.3.1, 2.4.2).
ghost use Rattle.std.specs.Prelude.{◌≡◌, ◌<◌, IfOk, length, map};
ghost use Rattle.std.specs.Option.{option_copied};
ghost use Rattle.st_references.specs.Graphs.{IsOrder};
ghost use Rattle.st_references.specs.References.{graph_of};
ghost use Rattle.st_types.specs.Initials.{element_initial, initial_of, unit_element_initial};
ghost use Rattle.st_types.specs.Names.{Declared, unit_at, units_of};
ghost use Rattle.st_references.specs.Tables.{AreInitials, written_at, written_by};

use crate::first::Written;
use crate::lookup::{name_source, specified_source, unit_source};
use st_scopes::Tables;
use st_tree::tree::{DeclaredType, Specification};
use st_types::UnitKind;
use std::alloc::{AllocError, Global};
use std::marker::Model;

/// The initial values of the types of a text, by the numbers of the units.
#[derive(Drop)]
pub struct Initials<'a> {
    /// What the units write themselves.
    written: &'a [Option<Written<'a>>],
    /// The unit that writes the initial value of each type.
    types: Vec<Option<usize>>,
}

impl<'a> Model for Initials<'a> {
    ghost use Rattle.std.specs.Prelude.{List, Option, map};
    ghost use Rattle.st_tree.specs.declared.tree.declaration.Initial.{Initial};

    ghost Value = { List (Option Initial) };

    ghost use Rattle.st_references.specs.Tables.{written_at};

    ghost view = { λ t. map (written_at t.written.now) t.types.items };
}

impl<'a> Initials<'a> {
    /// The table of a text, where this is what its types write themselves. In the order each unit stands after all that it refers
    /// to.
    ///
    /// Each unit is read once, so the time is linear, however many types are declared as one another.
    pub fn new(
        alloc: Global,
        tables: &Tables<'_>,
        written: &'a [Option<Written<'a>>],
        order: &[usize],
    ) -> Result<Initials<'a>, AllocError>
        requires written { written.now ≡ map written_by (units_of tables.now) }
        requires order { IsOrder (graph_of (units_of tables.now)) order.now }
        ensures { IfOk result (λ initials. AreInitials (units_of tables.now) initials) }
    {
        let types = sources_of(alloc, tables, written, order)?;
        Ok(Initials { written, types })
    }

    /// With what a declared name begins: with the value that its declaration writes, or else with that of its type.
    pub fn of(
        &self,
        tables: &Tables<'_>,
        specification: &Specification,
        written: Option<&'a Written<'a>>,
    ) -> Option<&'a Written<'a>>
        requires { AreInitials (units_of tables.now) self.now }
        ensures { (v : Declared) → v.specification ≡ specification.now
            → v.initial ≡ option_copied written.entry
            → option_copied result ≡ initial_of (units_of tables.now) v }
    {
        if written.is_some() {
            return written;
        }
        let source = specified_source(tables, &self.types, specification);
        written_at(self.written, source)
    }

    /// With what each element begins of what is declared as an array.
    pub fn of_elements(
        &self,
        tables: &Tables<'_>,
        specification: &Specification,
    ) -> Option<&'a Written<'a>>
        requires { AreInitials (units_of tables.now) self.now }
        ensures { option_copied result ≡ element_initial (units_of tables.now) specification.now }
    {
        match specification {
            Specification::Simple(_) => None,
            Specification::Array(_, _, name) => {
                let source = name_source(tables, &self.types, name.get());
                written_at(self.written, source)
            }
        }
    }

    /// With what each element begins of an array type, whose unit has this number.
    pub fn of_array(&self, tables: &Tables<'_>, unit: usize) -> Option<&'a Written<'a>>
        requires initials { AreInitials (units_of tables.now) self.now }
        requires unit { unit < length (units_of tables.now) }
        ensures { option_copied result
            ≡ unit_element_initial (units_of tables.now) (unit_at (units_of tables.now) unit) }
    {
        match tables.unit(unit).kind {
            UnitKind::Type(DeclaredType::Derived(specification, _)) => {
                self.of_elements(tables, specification)
            }
            UnitKind::Type(DeclaredType::Structure(..))
            | UnitKind::Function(_)
            | UnitKind::Block(_)
            | UnitKind::Program(_) => None,
        }
    }
}

/// The unit that writes the initial value of each type, where this is what the units write themselves.
fn sources_of(
    alloc: Global,
    tables: &Tables<'_>,
    written: &[Option<Written<'_>>],
    order: &[usize],
) -> Result<Vec<Option<usize>>, AllocError>
    requires written { written.now ≡ map written_by (units_of tables.now) }
    requires order { IsOrder (graph_of (units_of tables.now)) order.now }
    ensures { IfOk result (λ types. AreInitials (units_of tables.now)
        (map (written_at written.now) types.items)) }
{
    let mut types = vec![in alloc; None; tables.len()]?;
    'units: for &unit in order {
        types[unit] = unit_source(tables, &types, unit);
    }
    Ok(types)
}

/// What the unit of this number writes.
fn written_at<'a>(
    written: &'a [Option<Written<'a>>],
    source: Option<usize>,
) -> Option<&'a Written<'a>>
    ensures { option_copied result ≡ written_at written.now source }
{
    match written.get(source?) {
        Some(one) => one.as_ref(),
        None => None,
    }
}
