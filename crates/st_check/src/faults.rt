//! The faults of the units of a text, before its program is looked for.
ghost use Rattle.std.specs.Prelude.{◌≡◌, ◌<◌, All, IfErr, IfOk, MatchOption, OnOk, length};
ghost use Rattle.st_check.specs.Programs.{IsOrdered};
ghost use Rattle.st_check.specs.Recursions.{HasNoneFrom, HasUnitFault, IsFirstOfUnitsFrom, IsOfUnits, OffersUnitFaults, recursions};
ghost use Rattle.st_check.specs.declared.faults.Unordered.TheVariants.{Memory};
ghost use Rattle.st_faults.specs.Faults.{offer_all};
ghost use Rattle.st_references.specs.Graphs.{IsOrder};
ghost use Rattle.st_references.specs.References.{graph_of};
ghost use Rattle.st_types.specs.Names.{units_of};

use st_check_units::check_units;
use st_faults::{Fault, FirstFault, Rule};
use st_references::{OrderFault, order, references};
use st_scopes::Tables;
use std::alloc::{AllocError, Global};

/// Why units have no order.
#[derive(Clone, Copy)]
pub enum Unordered {
    /// Memory ran out.
    Memory,
    /// A rule is broken at a token, and this is the first fault.
    Fault(Fault),
}

impl From<AllocError> for Unordered {
    ghost from_gives = { λ _ unordered. unordered ≡ Memory };

    fn from(_: AllocError) -> Unordered {
        Unordered::Memory
    }
}

/// The units in an order in which each stands after all that it contains and calls, where none of them has a fault.
pub fn ordered(alloc: Global, tables: &Tables<'_>) -> Result<Vec<usize>, Unordered>
    ensures order { IfOk result (λ order. IsOrdered tables.now order.items) }
    ensures fault { IfErr result (IsOfUnits tables.now) }
{
    let mut first = FirstFault::new();
    let order = offer_unit_faults(alloc, tables, &mut first)?;
    match first.get() {
        None => Ok(order.unwrap()),
        Some(fault) => Err(Unordered::Fault(fault)),
    }
}

/// The first fault of the units at a token from the one of this number on, where there is one. The size of a program is not asked.
pub fn fault_from(
    alloc: Global,
    tables: &Tables<'_>,
    start: u64,
) -> Result<Option<Fault>, AllocError>
    ensures { IfOk result (λ found. MatchOption found
        (HasNoneFrom start tables.now) (IsFirstOfUnitsFrom start tables.now)) }
{
    let mut first = FirstFault::from(start);
    offer_unit_faults(alloc, tables, &mut first)?;
    Ok(first.get())
}

/// Offers all faults of the units, and gives an order of them, as `ordered` does, where no unit contains or calls itself.
fn offer_unit_faults(
    alloc: Global,
    tables: &Tables<'_>,
    first: &mut FirstFault,
) -> Result<Option<Vec<usize>>, AllocError>
    ensures offered { OnOk result (OffersUnitFaults tables.now first.old first.new) }
    ensures order { IfOk result (λ found. MatchOption found (HasUnitFault tables.now)
        (λ order. IsOrder (graph_of (units_of tables.now)) order.items)) }
{
    check_units(alloc, tables, first)?;
    let graph = references(alloc, tables)?;
    match order(alloc, &graph) {
        Ok(order) => Ok(Some(order)),
        Err(OrderFault::Cyclic(numbers)) => {
            offer_recursions(tables, &numbers, first);
            Ok(None)
        }
        Err(OrderFault::Memory) => Err(AllocError),
    }
}

/// Offers that each of the units of these numbers contains or calls itself.
#[tactic(auto, unfolding(st_faults::specs::Faults::offer_all))]
fn offer_recursions(tables: &Tables<'_>, numbers: &[usize], first: &mut FirstFault)
    requires { All (λ number. number < length (units_of tables.now)) numbers.now }
    ensures { first.new ≡ offer_all first.old (recursions (units_of tables.now) numbers.now) }
{
    for number in numbers {
        let position = tables.unit(*number).name.position;
        // Typing rests on this rule wherever a place is due, as in its case `place`, and in `own_block`: what a type is made
        // of is found step by step.
        first.offer(position, Rule::Recursion);
    }
}
