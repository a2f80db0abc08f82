//! What gives the bytes and marks back that a packed memory had before an online change.
ghost use Rattle.std.specs.Prelude.{◌≡◌, IfOk, length};
ghost use Rattle.st_memory.specs.Moves.{HoldsValues, unmoved_forced, unmoved_values};
ghost use Rattle.st_layout.specs.Pairs.{AreBelow};
ghost use Rattle.st_memory.specs.Packed.{IsHeld, decoded, encoded, mark_bytes, marked};

use crate::bytes::{first_value, push_value, width};
use crate::packed::marks::{moved_marks, put_mark};
use crate::packed::places::push_kept;
use crate::pairs::names_dropped;
use st_layout::{Layout, Plan};
use std::alloc::{AllocError, Global};

/// The bytes of the old leaves: of those that were kept what stands in their places, and of those that were dropped what was
/// saved.
pub fn returned_bytes(
    alloc: Global,
    plan: &Plan,
    old: &Layout,
    new: &Layout,
    bytes: &[u8],
    saved: &[u8],
) -> Result<Vec<u8>, AllocError>
    requires count { length plan.now.targets ≡ length old.now }
    requires below { AreBelow plan.now.targets (length new.now) }
    requires held { IsHeld new.now bytes.now }
    requires holds { HoldsValues old.now plan.now.targets saved.now }
    ensures { IfOk result (λ returned. returned.items
        ≡ encoded (unmoved_values (decoded new.now bytes.now) old.now plan.now.targets saved.now)) }
{
    let mut returned = Vec::with_capacity(alloc, old.bytes() as usize)?;
    let count = old.len();
    let mut start = 0;
    let mut place = 0;
    while place < count {
        let run = plan.next_target(place);
        for leaf in place..run.first {
            let elem = old.at(leaf).elem;
            push_value(&mut returned, first_value(elem, &saved[start..]))?;
            start += width(elem);
        }
        push_kept(&mut returned, bytes, new, run)?;
        place = run.first + run.count;
    }
    Ok(returned)
}

/// Which old leaves are forced: those that were kept as they are in their places, and those that were dropped where their
/// numbers were saved.
pub fn returned_marks(
    alloc: Global,
    plan: &Plan,
    old: &Layout,
    new: &Layout,
    marks: &[u8],
    numbers: &[u32],
) -> Result<Vec<u8>, AllocError>
    requires targets { length plan.now.targets ≡ length old.now }
    requires below { AreBelow plan.now.targets (length new.now) }
    requires count { length marks.now ≡ mark_bytes (length new.now) }
    ensures marks { IfOk result
        (λ returned. marked (length old.now) returned.items
        ≡ unmoved_forced (marked (length new.now) marks.now) 0 plan.now.targets numbers.now) }
    ensures count { IfOk result (λ returned. length returned.items ≡ mark_bytes (length old.now)) }
{
    let mut returned = moved_marks(alloc, plan.targets(), new, marks)?;
    for number in numbers {
        if names_dropped(plan, old, *number) {
            put_mark(&mut returned, *number, true);
        }
    }
    Ok(returned)
}
