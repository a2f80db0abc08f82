//! What an online change makes of the bytes and marks of a packed memory, and what it saves of them.
ghost use Rattle.std.specs.Prelude.{◌≡◌, ◌<◌, ◌&&◌, IfOk, OnOk, length, map};
ghost use Rattle.std.specs.List.{zip};
ghost use Rattle.std.specs.Option.{is_none};
ghost use Rattle.st_leaves.specs.Sound.{IsSound};
ghost use Rattle.st_memory.specs.Memory.{forced_at};
ghost use Rattle.st_memory.specs.Moves.{moved_pair, saved_bytes, saved_forced};
ghost use Rattle.st_memory.specs.Packed.{IsHeld, decoded, encoded, mark_bytes, marked};
ghost use Rattle.st_layout.specs.Pairs.{AreBelow, number_at};

use crate::bytes::push_value;
use crate::fresh::{OldValues, fresh_value};
use crate::packed::marks::is_marked;
use crate::packed::places::{push_kept, push_run, value_at};
use crate::pairs::is_dropped;
use st_layout::{Layout, Plan};
use st_values::Value;
use std::alloc::{AllocError, Global};

/// The values of the old leaves, in bytes.
#[derive(Clone, Copy)]
struct OfBytes<'a> {
    bytes: &'a [u8],
}

impl OldValues for OfBytes<'_> {
    ghost use Rattle.st_memory.specs.Packed.{IsHeld, decoded};

    ghost values = { λ leaves packed. decoded leaves packed.bytes.now };

    ghost AreOver = { λ leaves packed. IsHeld leaves packed.bytes.now };

    fn at(&self, old: &Layout, leaf: u32) -> Value {
        value_at(self.bytes, old, leaf)
    }
}

/// The bytes of the new leaves. Those of kept leaves that follow one another move as they are.
pub fn carried_bytes(
    alloc: Global,
    plan: &Plan,
    old: &Layout,
    new: &Layout,
    bytes: &[u8],
) -> Result<Vec<u8>, AllocError>
    requires count { length plan.now.sources ≡ length new.now }
    requires below { AreBelow plan.now.sources (length old.now) }
    requires held { IsHeld old.now bytes.now }
    ensures bytes { IfOk result
        (λ carried. carried.items
        ≡ encoded (map (moved_pair plan.now.sources (decoded old.now bytes.now))
        (zip new.now plan.now.sources))) }
    ensures sound { OnOk result (IsSound new.now) }
{
    let mut carried = Vec::with_capacity(alloc, new.bytes() as usize)?;
    let count = new.len();
    let mut place = 0;
    while place < count {
        let run = plan.next_source(place);
        for leaf in place..run.first {
            let value = fresh_value(plan, old, new, &OfBytes { bytes }, new.at(leaf));
            push_value(&mut carried, value)?;
        }
        push_kept(&mut carried, bytes, old, run)?;
        place = run.first + run.count;
    }
    Ok(carried)
}

/// The bytes of the dropped leaves, one after another, as they are.
pub fn dropped_bytes(
    alloc: Global,
    plan: &Plan,
    old: &Layout,
    bytes: &[u8],
) -> Result<Vec<u8>, AllocError>
    requires count { length plan.now.targets ≡ length old.now }
    requires held { IsHeld old.now bytes.now }
    ensures { IfOk result (λ dropped. dropped.items
        ≡ saved_bytes plan.now.targets (decoded old.now bytes.now)) }
{
    let mut dropped = Vec::new(alloc);
    let count = old.len();
    let mut place = 0;
    while place < count {
        let run = plan.next_target(place);
        push_run(&mut dropped, bytes, old, place, run.first)?;
        place = run.first + run.count;
    }
    dropped.shrink_to_fit();
    Ok(dropped)
}

/// The numbers of the dropped leaves that are forced, ascending.
pub fn dropped_marks(
    alloc: Global,
    plan: &Plan,
    old: &Layout,
    marks: &[u8],
) -> Result<Vec<u32>, AllocError>
    requires targets { length plan.now.targets ≡ length old.now }
    requires count { length marks.now ≡ mark_bytes (length old.now) }
    ensures { IfOk result (λ numbers. numbers.items
        ≡ saved_forced 0 plan.now.targets (marked (length old.now) marks.now)) }
{
    let mut numbers = Vec::new(alloc);
    for leaf in 0..old.len() {
        if drops_mark(plan, old, marks, leaf) {
            numbers.push(leaf)?;
        }
    }
    numbers.shrink_to_fit();
    Ok(numbers)
}

/// Tests whether a leaf is marked and dropped.
fn drops_mark(plan: &Plan, old: &Layout, marks: &[u8], leaf: u32) -> bool
    requires target { leaf < length plan.now.targets }
    requires leaf { leaf < length old.now }
    requires count { length marks.now ≡ mark_bytes (length old.now) }
    ensures { result ≡ (forced_at (marked (length old.now) marks.now) leaf
        && is_none (number_at plan.now.targets leaf)) }
{
    is_marked(marks, leaf) && is_dropped(plan, leaf)
}
