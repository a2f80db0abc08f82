//! The graph of references.
ghost use Rattle.std.specs.List.{flat_map, list_any};
ghost use Rattle.std.specs.Prelude.{◌≡◌, ◌<◌, ◌++◌, [], length, slice_index_or, All, IfOk, OnOk};
ghost use Rattle.st_types.specs.Inside.{declared_by};
ghost use Rattle.st_types.specs.Names.{units_of};
ghost use Rattle.st_references.specs.Callers.{called_by, has_functions, is_function};
ghost use Rattle.st_references.specs.Calls.{unit_calls};
ghost use Rattle.st_references.specs.References.{graph_of};

use crate::caller::Caller;
use crate::contained::add_contained;
use crate::unit::add_unit;
use st_scopes::Tables;
use st_tree::List;
use st_types::{NamedUnit, UnitKind};
use std::alloc::{AllocError, Global};

/// For each unit of the text, by its number, the numbers of the units that it contains or calls (IEC 61131-3:2003, 2.5).
///
/// A unit contains the types and function blocks that its declarations name, and calls functions of the text. A unit
/// stands in a row as often as it is named. The time is linear in the text.
pub fn references(alloc: Global, tables: &Tables<'_>) -> Result<Vec<List<usize>>, AllocError>
    ensures graph { IfOk result (λ graph. graph.items ≡ graph_of (units_of tables.now)) }
    ensures closed { IfOk result (λ graph. All (All (λ a. a < length graph.items)) graph.items) }
{
    let with_functions = has_functions(tables);
    let mut graph = Vec::new(alloc);
    'rows: for unit in 0..tables.len() {
        graph.push(row(alloc, tables, unit, with_functions)?)?;
    }
    Ok(graph)
}

/// The numbers of the units that a unit contains or calls, in a text that has functions or none.
fn row(
    alloc: Global,
    tables: &Tables<'_>,
    unit: usize,
    with_functions: bool,
) -> Result<List<usize>, AllocError>
    requires unit { unit < length (units_of tables.now) }
    requires functions { with_functions ≡ has_functions (units_of tables.now) }
    ensures { IfOk result (λ row. row ≡ slice_index_or (graph_of (units_of tables.now)) unit []) }
{
    let kind = tables.unit(unit).kind;
    let caller = Caller {
        tables,
        scope: tables.scope(unit),
    };
    let mut row = List::new(alloc);
    add_contained(tables, &kind, &mut row)?;
    add_calls(&caller, &kind, with_functions, &mut row)?;
    Ok(row)
}

/// Adds the functions that are called in a unit. A text that has no functions calls none, so its statements aren't read.
#[tactic(auto, using(crate::proofs::Callers::none_called))]
fn add_calls(
    caller: &Caller<'_>,
    kind: &UnitKind<'_>,
    with_functions: bool,
    row: &mut List<usize>,
) -> Result<(), AllocError>
    requires scope { caller.now.scope.0 ≡ caller.now.tables.now }
    requires functions { with_functions ≡ has_functions (units_of caller.now.tables.now) }
    ensures { OnOk result (row.new ≡ row.old ++ flat_map (called_by caller.now)
        (unit_calls (declared_by kind.now))) }
{
    if with_functions {
        add_unit(caller, kind, row)
    } else {
        Ok(())
    }
}

/// Whether the text has functions of its own.
#[tactic(auto, using(crate::proofs::Callers::functions_seen))]
fn has_functions(tables: &Tables<'_>) -> bool
    ensures { result ≡ has_functions (units_of tables.now) }
{
    any_function(tables.units())
}

/// Whether one of these units is a function.
fn any_function(units: &[NamedUnit<'_>]) -> bool
    ensures { result ≡ list_any (λ unit. is_function (declared_by unit.kind)) units.now }
{
    units
        .iter()
        .any(|unit| matches!(unit.kind, UnitKind::Function(_)))
}
