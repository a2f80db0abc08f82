//! The sizes of units, each after those that it contains.
ghost use Rattle.std.specs.Prelude.{◌≡◌, ◌<◌, ℕ, IfOk, List, Some, length};
ghost use Rattle.st_leaves.specs.Charts.{chart_leaves, stored_by};
ghost use Rattle.st_leaves.specs.Leaves.{leaves_of};
ghost use Rattle.st_leaves.specs.Limits.{sizes_of};
ghost use Rattle.st_references.specs.Graphs.{IsOrder};
ghost use Rattle.st_check.specs.Sized.{AreSized, IsSized, own_leaves};
ghost use Rattle.st_references.specs.References.{graph_of};
ghost use Rattle.st_leaves.specs.Sizes.{IsSize};
ghost use Rattle.st_types.specs.Inside.{declared_by};
ghost use Rattle.st_types.specs.Names.{Named, chart_in, unit_at, units_of};
ghost use Rattle.st_types.specs.Types.{type_at};

use crate::types::{type_size, variables_size};
use st_leaves::{Size, array_size, chart_size};
use st_scopes::Tables;
use st_tree::tree::Body;
use st_types::{Base, UnitKind};
use std::alloc::{AllocError, Global};

/// The sizes of what has an array, a structure or a function block of the text as its type, by the number of the unit.
///
/// In the order each unit stands after all that it contains.
pub fn type_sizes(
    alloc: Global,
    tables: &Tables<'_>,
    order: &[usize],
) -> Result<Vec<Size>, AllocError>
    requires { IsOrder (graph_of (units_of tables.now)) order.now }
    ensures { IfOk result (λ sizes. (i : ℕ) → IsSized (units_of tables.now)
        sizes.items (type_at (units_of tables.now) i)) }
{
    let mut sizes = vec![in alloc; Size::none(); tables.len()]?;
    'units: for &unit in order {
        sizes[unit] = own_size(alloc, tables, &sizes, unit)?;
    }
    Ok(sizes)
}

/// The size of what has the unit of this number as its type.
fn own_size(
    alloc: Global,
    tables: &Tables<'_>,
    sizes: &[Size],
    unit: usize,
) -> Result<Size, AllocError>
    requires unit { unit < length (units_of tables.now) }
    requires sized { AreSized (units_of tables.now) sizes.now unit }
    ensures { IfOk result (λ size. IsSize size (sizes_of (own_leaves (units_of tables.now) unit))) }
{
    match tables.elements(Base::Array(unit)) {
        Some(elements) => {
            let element = type_size(sizes, elements.element);
            Ok(array_size(elements.subscripts, element))
        }
        None => unit_size(alloc, tables, sizes, unit),
    }
}

/// The size of a unit's variables, or its members, and of its chart.
pub fn unit_size(
    alloc: Global,
    tables: &Tables<'_>,
    sizes: &[Size],
    unit: usize,
) -> Result<Size, AllocError>
    requires unit { unit < length (units_of tables.now) }
    requires sized { AreSized (units_of tables.now) sizes.now unit }
    ensures { IfOk result (λ size. (named : Named) → unit_at (units_of tables.now) unit ≡ Some named
        → IsSize size (sizes_of (leaves_of (units_of tables.now) named.declares))) }
{
    let variables = variables_size(tables, sizes, tables.declared(unit));
    let chart = unit_chart_size(alloc, tables.unit(unit).kind)?;
    Ok(variables.beside(chart))
}

/// The size of what a unit's chart keeps, however the names that it stores are declared.
fn unit_chart_size(alloc: Global, unit: UnitKind<'_>) -> Result<Size, AllocError>
    ensures { IfOk result (λ size. (variables : List (List ℕ))
        → IsSize size (sizes_of (chart_leaves (stored_by variables (chart_in (declared_by unit.entry))) (chart_in (declared_by unit.entry))))) }
{
    let (UnitKind::Block(pou) | UnitKind::Program(pou)) = unit else {
        return Ok(Size::none());
    };
    match &pou.body {
        Body::Statements(_) => Ok(Size::none()),
        Body::Chart(elements) => chart_size(alloc, elements.as_slice()),
    }
}
