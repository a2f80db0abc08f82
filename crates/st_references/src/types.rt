//! The initial values that declarations write (2.3.3.1, 2.4.2).
ghost use Rattle.std.specs.Prelude.{◌≡◌, IfOk, map};
ghost use Rattle.st_references.specs.Tables.{declares_written, written_by};
ghost use Rattle.st_types.specs.Inside.{declared_by};
ghost use Rattle.st_types.specs.Names.{units_of};

use crate::first::Written;
use st_scopes::Tables;
use st_tree::Boxed;
use st_tree::tree::{DeclaredType, Initial};
use st_types::UnitKind;
use std::alloc::{AllocError, Global};

/// What the types of a text write themselves, by the numbers of the units.
pub fn types_written<'a>(
    alloc: Global,
    tables: &Tables<'a>,
) -> Result<Vec<Option<Written<'a>>>, AllocError>
    ensures { IfOk result (λ all. all.items ≡ map written_by (units_of tables.now)) }
{
    let units = tables.units();
    let mut all = Vec::with_capacity(alloc, units.len())?;
    'each: for unit in units {
        all.push(type_written(alloc, unit.kind)?)?;
    }
    Ok(all)
}

/// What a type writes itself. What is no type writes none.
fn type_written<'a>(alloc: Global, unit: UnitKind<'a>) -> Result<Option<Written<'a>>, AllocError>
    ensures { IfOk result (λ one. one ≡ declares_written (declared_by unit.entry)) }
{
    match unit {
        UnitKind::Type(DeclaredType::Derived(_, initial)) => written(alloc, initial),
        UnitKind::Type(DeclaredType::Structure(..))
        | UnitKind::Function(_)
        | UnitKind::Block(_)
        | UnitKind::Program(_) => Ok(None),
    }
}

/// What a declaration writes.
pub fn written<'a>(
    alloc: Global,
    initial: &'a Option<Boxed<Initial>>,
) -> Result<Option<Written<'a>>, AllocError>
    ensures { IfOk result (λ one. one ≡ initial.now) }
{
    match initial {
        Some(initial) => Ok(Some(Written::new(alloc, initial.get())?)),
        None => Ok(None),
    }
}
