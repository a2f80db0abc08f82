//! Units (2.5).
ghost use Rattle.std.specs.Prelude.{◌≡◌, ◌++◌, ◌∷◌, [], OnOk};
ghost use Rattle.st_faults.specs.Faults.{offer_all};
ghost use Rattle.st_types.specs.Names.{chart_of, units_of};
ghost use Rattle.st_types.specs.Scopes.{scope_at};
ghost use Rattle.st_types.specs.Inside.{declared_by};
ghost use Rattle.st_check_units.specs.Units.{body_of_faults, function_faults, name_faults, names_faults, node_faults, pou_faults, unit_faults, units_faults};

use crate::charts::check_chart;
use crate::declarations::{check_blocks, check_type};
use crate::repeats::{check_chart_names, check_variable_names, is_there};
use crate::sizes::TextTypes;
use st_check_statements::check_body;
use st_faults::{FirstFault, Rule};
use st_scopes::{Scope, Tables};
use st_tree::MAX_NAME_BYTES;
use st_tree::tree::{Body, ChartElement, Function, Identifier, Pou};
use st_types::{NameTable, NamedUnit, UnitKind, standard_of};
use std::alloc::{AllocError, Global};

/// The most units that a text may have.
pub const MAX_UNITS: usize = 1000;

/// The elements of the chart of a body. Without a chart there are none.
fn chart_of(body: &Body) -> &[ChartElement]
    ensures { result.now ≡ chart_of body.now }
{
    match body {
        Body::Statements(_) => &[],
        Body::Chart(elements) => elements.as_slice(),
    }
}

/// Offers the faults of the body of the unit of this name.
fn check_body_of(
    alloc: Global,
    scope: &Scope<'_>,
    unit: &Identifier,
    body: &Body,
    first: &mut FirstFault,
) -> Result<(), AllocError>
    ensures { OnOk result (first.new ≡ offer_all first.old
        (body_of_faults (scope_at scope.now) unit.now body.now)) }
{
    match body {
        Body::Statements(statements) => check_body(alloc, scope, statements.as_slice(), first),
        Body::Chart(elements) => check_chart(alloc, scope, unit, elements.as_slice(), first),
    }
}

/// Offers the faults of a function.
#[tactic(auto, using(st_faults::proofs::Least::offer_append))]
fn check_function(
    alloc: Global,
    types: &TextTypes<'_, '_>,
    scope: &Scope<'_>,
    function: &Function,
    first: &mut FirstFault,
) -> Result<(), AllocError>
    ensures { OnOk result (first.new ≡ offer_all first.old
        (function_faults (units_of types.now) (scope_at scope.now) function.now)) }
{
    let variables = function.variables.as_slice();
    let mut seen = NameTable::new(alloc);
    seen.push(function.name.spelling.as_slice())?;
    check_variable_names(&mut seen, variables, first)?;
    check_blocks(types, UnitKind::Function(function), variables, first);
    check_body(alloc, scope, function.statements.as_slice(), first)
}

/// Offers the faults of a function block or program, which is declared so.
#[tactic(auto, using(st_faults::proofs::Least::offer_append))]
fn check_pou(
    alloc: Global,
    types: &TextTypes<'_, '_>,
    scope: &Scope<'_>,
    unit: UnitKind<'_>,
    pou: &Pou,
    first: &mut FirstFault,
) -> Result<(), AllocError>
    ensures { OnOk result (first.new ≡ offer_all first.old
        (pou_faults (units_of types.now) (scope_at scope.now) (declared_by unit.entry) pou.now)) }
{
    let variables = pou.variables.as_slice();
    let mut seen = NameTable::new(alloc);
    check_variable_names(&mut seen, variables, first)?;
    check_chart_names(&mut seen, chart_of(&pou.body), first)?;
    check_blocks(types, unit, variables, first);
    check_body_of(alloc, scope, &pou.name, &pou.body, first)
}

/// Offers the faults of a unit, in whose statements names stand for what the scope says.
fn check_unit(
    alloc: Global,
    types: &TextTypes<'_, '_>,
    scope: &Scope<'_>,
    unit: &NamedUnit<'_>,
    first: &mut FirstFault,
) -> Result<(), AllocError>
    ensures { OnOk result (first.new ≡ offer_all first.old
        (unit_faults (units_of types.now) (scope_at scope.now)
        unit.now.name.now (declared_by unit.now.kind))) }
{
    match unit.kind {
        UnitKind::Type(declared) => check_type(alloc, types, unit.name, declared, first),
        UnitKind::Function(function) => check_function(alloc, types, scope, function, first),
        UnitKind::Block(pou) => check_pou(alloc, types, scope, unit.kind, pou, first),
        UnitKind::Program(pou) => check_pou(alloc, types, scope, unit.kind, pou, first),
    }
}

/// Offers the faults of the name of a unit, where those before it stand in the table, and adds it to the table.
#[tactic(auto, using(st_faults::proofs::Least::offer_append))]
fn check_unit_name<'a>(
    seen: &mut NameTable<'a>,
    name: &'a Identifier,
    first: &mut FirstFault,
) -> Result<(), AllocError>
    ensures first { first.new ≡ offer_all first.old (name_faults seen.old name.now) }
    ensures seen { OnOk result (seen.new ≡ seen.old ++ name.now.spelling ∷ []) }
{
    let spelling = name.spelling.as_slice();
    let is_taken = is_there(seen, spelling) || standard_of(spelling).is_some();
    // Typing rests on this rule in its case `own_block`: an instance is found by the name of its function block.
    first.offer_when(is_taken, name.position, Rule::NameTwice);
    let is_past_limit = seen.len() == MAX_UNITS || spelling.len() > MAX_NAME_BYTES;
    // No case of typing rests on this rule.
    first.offer_when(is_past_limit, name.position, Rule::LimitPassed);
    seen.push(spelling)
}

/// Offers the faults of the names of units.
#[tactic(auto, unfolding(st_faults::specs::Faults::offer_all))]
fn check_unit_names(
    alloc: Global,
    tables: &Tables<'_>,
    first: &mut FirstFault,
) -> Result<(), AllocError>
    ensures { OnOk result (first.new ≡ offer_all first.old
        (names_faults [] (units_of tables.now))) }
{
    let units = tables.units();
    let mut seen = NameTable::new(alloc);
    for unit in units {
        check_unit_name(&mut seen, unit.name, first)?;
    }
    Ok(())
}

/// Offers the faults of what the units declare and do.
#[tactic(auto, unfolding(st_faults::specs::Faults::offer_all))]
fn check_each_unit(
    alloc: Global,
    types: &TextTypes<'_, '_>,
    first: &mut FirstFault,
) -> Result<(), AllocError>
    ensures { OnOk result (first.new ≡ offer_all first.old (units_faults (units_of types.now))) }
{
    let tables = types.tables();
    let units = tables.units();
    for (number, unit) in units.iter().enumerate() {
        let scope = tables.scope(number);
        check_unit(alloc, types, &scope, unit, first)?;
    }
    Ok(())
}

/// Offers what the rules say of the units of a text, one by one: C1 to C5, C7, C8, and C9 of their number and names. It takes
/// memory for names and for the sizes of array types.
#[tactic(auto, using(st_faults::proofs::Least::offer_append))]
pub fn check_units(
    alloc: Global,
    tables: &Tables<'_>,
    first: &mut FirstFault,
) -> Result<(), AllocError>
    ensures { OnOk result (first.new ≡ offer_all first.old (node_faults (units_of tables.now))) }
{
    check_unit_names(alloc, tables, first)?;
    let types = TextTypes::new(alloc, tables)?;
    check_each_unit(alloc, &types, first)
}
