//! What gives the values and forces back that a memory of cells had before an online change.
ghost use Rattle.std.specs.Prelude.{◌≡◌, IfOk, length};
ghost use Rattle.st_memory.specs.Moves.{HoldsValues, unmoved_forced, unmoved_values};
ghost use Rattle.st_layout.specs.Pairs.{AreBelow};

use crate::bytes::{first_value, width};
use crate::cells::carrying::moved_forces;
use crate::pairs::names_dropped;
use st_layout::{Layout, Plan};
use st_values::Value;
use std::alloc::{AllocError, Global};

/// The values of the old leaves: of those that were kept what stands in their places, and of those that were dropped what was
/// saved.
pub fn returned_values(
    alloc: Global,
    plan: &Plan,
    old: &Layout,
    values: &[Value],
    bytes: &[u8],
) -> Result<Vec<Value>, AllocError>
    requires count { length plan.now.targets ≡ length old.now }
    requires below { AreBelow plan.now.targets (length values.now) }
    requires holds { HoldsValues old.now plan.now.targets bytes.now }
    ensures { IfOk result (λ returned. returned.items
        ≡ unmoved_values values.now old.now plan.now.targets bytes.now) }
{
    let mut returned = Vec::with_capacity(alloc, old.len() as usize)?;
    let mut start = 0;
    for leaf in 0..old.len() {
        let value = match plan.target(leaf) {
            Some(target) => values[target as usize],
            None => {
                let elem = old.at(leaf).elem;
                let value = first_value(elem, &bytes[start..]);
                start += width(elem);
                value
            }
        };
        returned.push(value)?;
    }
    Ok(returned)
}

/// Whether each old leaf is forced: those that were kept as they are in their places, and those that were dropped where their
/// numbers were saved.
pub fn returned_forces(
    alloc: Global,
    plan: &Plan,
    old: &Layout,
    forced: &[bool],
    numbers: &[u32],
) -> Result<Vec<bool>, AllocError>
    requires count { length plan.now.targets ≡ length old.now }
    requires below { AreBelow plan.now.targets (length forced.now) }
    ensures { IfOk result (λ returned. returned.items
        ≡ unmoved_forced forced.now 0 plan.now.targets numbers.now) }
{
    let mut returned = moved_forces(alloc, plan.targets(), forced)?;
    for number in numbers {
        if names_dropped(plan, old, *number) {
            returned[*number as usize] = true;
        }
    }
    Ok(returned)
}
