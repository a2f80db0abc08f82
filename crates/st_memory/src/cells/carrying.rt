//! What an online change makes of the values and forces of a memory of cells, and what it saves of them.
ghost use Rattle.std.specs.Prelude.{◌≡◌, ◌<◌, ◌&&◌, IfOk, OnOk, length, map};
ghost use Rattle.std.specs.List.{zip};
ghost use Rattle.std.specs.Option.{is_none};
ghost use Rattle.st_leaves.specs.Sound.{IsSound};
ghost use Rattle.st_layout.specs.Layout.{leaf_at};
ghost use Rattle.st_memory.specs.Memory.{AreValues, forced_at};
ghost use Rattle.st_memory.specs.Moves.{moved_force, moved_pair, moved_value, saved_bytes, saved_forced};
ghost use Rattle.st_layout.specs.Pairs.{AreBelow, number_at};

use crate::bytes::push_value;
use crate::fresh::{OldValues, fresh_value};
use crate::pairs::is_dropped;
use st_layout::{Layout, Plan, Runs};
use st_values::Value;
use std::alloc::{AllocError, Global};

/// The values of the old leaves, in cells.
#[derive(Clone, Copy)]
struct OfCells<'a> {
    values: &'a [Value],
}

impl OldValues for OfCells<'_> {
    ghost use Rattle.std.specs.Prelude.{◌≡◌, length};

    ghost values = { λ leaves cells. cells.values.now };

    ghost AreOver = { λ leaves cells. length cells.values.now ≡ length leaves };

    fn at(&self, old: &Layout, leaf: u32) -> Value {
        self.values[leaf as usize]
    }
}

/// The values of the new leaves.
pub fn carried_values(
    alloc: Global,
    plan: &Plan,
    old: &Layout,
    new: &Layout,
    values: &[Value],
) -> Result<Vec<Value>, AllocError>
    requires count { length plan.now.sources ≡ length new.now }
    requires below { AreBelow plan.now.sources (length old.now) }
    requires values { length values.now ≡ length old.now }
    ensures values { IfOk result
        (λ carried. carried.items
        ≡ map (moved_pair plan.now.sources values.now) (zip new.now plan.now.sources)) }
    ensures sound { OnOk result (IsSound new.now) }
{
    let mut carried = Vec::with_capacity(alloc, new.len() as usize)?;
    for leaf in 0..new.len() {
        carried.push(carried_value(plan, old, new, values, leaf))?;
    }
    Ok(carried)
}

/// The value of a new leaf: that of the leaf whose place it takes.
fn carried_value(plan: &Plan, old: &Layout, new: &Layout, values: &[Value], leaf: u32) -> Value
    requires count { length plan.now.sources ≡ length new.now }
    requires below { AreBelow plan.now.sources (length old.now) }
    requires values { length values.now ≡ length old.now }
    requires leaf { leaf < length new.now }
    ensures { result ≡ moved_value plan.now.sources values.now (leaf_at new.now leaf)
        (number_at plan.now.sources leaf) }
{
    match plan.source(leaf) {
        Some(source) => values[source as usize],
        None => fresh_value(plan, old, new, &OfCells { values }, new.at(leaf)),
    }
}

/// Whether each of some leaves is forced: where the leaf is with the number that it has, and not where it has none.
pub fn moved_forces(alloc: Global, numbers: &Runs, forced: &[bool]) -> Result<Vec<bool>, AllocError>
    requires { AreBelow numbers.now (length forced.now) }
    ensures { IfOk result (λ moved. moved.items ≡ map (moved_force forced.now) numbers.now) }
{
    let mut moved = Vec::with_capacity(alloc, numbers.len() as usize)?;
    for leaf in 0..numbers.len() {
        moved.push(moved_force(numbers, forced, leaf))?;
    }
    Ok(moved)
}

/// Whether one of them is forced.
fn moved_force(numbers: &Runs, forced: &[bool], leaf: u32) -> bool
    requires leaf { leaf < length numbers.now }
    requires below { AreBelow numbers.now (length forced.now) }
    ensures { result ≡ moved_force forced.now (number_at numbers.now leaf) }
{
    match numbers.at(leaf) {
        Some(number) => forced[number as usize],
        None => false,
    }
}

/// The values of the dropped leaves as bytes, one after another.
pub fn dropped_bytes(
    alloc: Global,
    plan: &Plan,
    old: &Layout,
    values: &[Value],
) -> Result<Vec<u8>, AllocError>
    requires count { length plan.now.targets ≡ length old.now }
    requires types { AreValues old.now values.now }
    requires values { length values.now ≡ length old.now }
    ensures { IfOk result (λ bytes. bytes.items ≡ saved_bytes plan.now.targets values.now) }
{
    let mut bytes = Vec::new(alloc);
    for leaf in 0..old.len() {
        if is_dropped(plan, leaf) {
            push_value(&mut bytes, values[leaf as usize])?;
        }
    }
    bytes.shrink_to_fit();
    Ok(bytes)
}

/// The numbers of the dropped leaves that are forced, ascending.
pub fn dropped_forces(
    alloc: Global,
    plan: &Plan,
    old: &Layout,
    forced: &[bool],
) -> Result<Vec<u32>, AllocError>
    requires count { length plan.now.targets ≡ length old.now }
    requires forced { length forced.now ≡ length old.now }
    ensures { IfOk result (λ numbers. numbers.items ≡ saved_forced 0 plan.now.targets forced.now) }
{
    let mut numbers = Vec::new(alloc);
    for leaf in 0..old.len() {
        if drops_force(plan, forced, leaf) {
            numbers.push(leaf)?;
        }
    }
    numbers.shrink_to_fit();
    Ok(numbers)
}

/// Tests whether a leaf is forced and dropped.
fn drops_force(plan: &Plan, forced: &[bool], leaf: u32) -> bool
    requires target { leaf < length plan.now.targets }
    requires forced { leaf < length forced.now }
    ensures { result ≡ (forced_at forced.now leaf && is_none (number_at plan.now.targets leaf)) }
{
    forced[leaf as usize] && is_dropped(plan, leaf)
}
