//! The faults of a text that is in the grammar, one behind the other.
ghost use Rattle.std.specs.Prelude.{◌≡◌, ◌∷◌, ◌+◌, ◌≤◌, IfOk, List, MatchOption};
ghost use Rattle.st_check.specs.Recursions.{HasNoneFrom, IsFirstOfUnitsFrom};
ghost use Rattle.st_explain.specs.Collections.{AreLater};
ghost use Rattle.st_faults.specs.declared.fault.Fault.{Fault as Found};

use st_check::fault_from;
use st_faults::Fault;
use st_scopes::Tables;
use std::alloc::{AllocError, Global};

/// The most faults of a text that are told.
pub const MAX_FAULTS: usize = 100;

/// The faults of units from the first one on: of each token at which a rule is broken the first rule, in the order of the text, and no
/// more than `most`.
pub fn faults_from(
    alloc: Global,
    tables: &Tables<'_>,
    first: Fault,
    most: usize,
) -> Result<Vec<Fault>, AllocError>
    requires { 1 ≤ most }
    ensures { IfOk result (λ faults. (later : List Found) × (faults.items ≡ first ∷ later)
        × AreLater tables.now most first later) }
{
    let mut faults = Vec::new(alloc);
    faults.push(first)?;
    let mut last = first;
    'later: while faults.len() < most {
        let Some(fault) = fault_behind(alloc, tables, last.position.number)? else {
            return Ok(faults);
        };
        faults.push(fault)?;
        last = fault;
    }
    Ok(faults)
}

/// The first fault of the units behind the token of this number.
fn fault_behind(
    alloc: Global,
    tables: &Tables<'_>,
    number: u32,
) -> Result<Option<Fault>, AllocError>
    ensures { IfOk result (λ behind. MatchOption behind
        (HasNoneFrom (number + 1) tables.now) (IsFirstOfUnitsFrom (number + 1) tables.now)) }
{
    let start = u64::from(number) + 1;
    fault_from(alloc, tables, start)
}
