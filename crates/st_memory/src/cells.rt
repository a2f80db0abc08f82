//! A memory of one cell a leaf.
ghost use Rattle.std.specs.Prelude.{◌≡◌, IfOk, false, length, map, replicate};
ghost use Rattle.st_memory.specs.Memory.{AreValues};

mod apart;
mod carrying;
mod returning;

use crate::cells::carrying::{carried_values, dropped_bytes, dropped_forces, moved_forces};
use crate::cells::returning::{returned_forces, returned_values};
use crate::memory::Memory;
use crate::saved::Saved;
use st_layout::{Layout, Plan};
use st_tree::List;
use st_values::{Elem, Value};
use std::alloc::{AllocError, Global};

/// A memory of one value and one mark a leaf.
#[derive(Drop)]
pub struct Cells {
    values: Vec<Value>,
    /// Whether each leaf is forced.
    forced: Vec<bool>,
}

impl Memory for Cells {
    ghost use Rattle.st_memory.specs.Memory.{Fits};

    ghost content = { λ leaves cells. record { values = cells.values.items; forced = cells.forced.items } };

    ghost IsOver = { λ leaves cells. Fits leaves (record { values = cells.values.items; forced = cells.forced.items }) };

    ghost fits = { λ leaves cells over. over };

    fn fresh(alloc: Global, layout: &Layout) -> Result<Self, AllocError> {
        let values = initial_values(alloc, layout)?;
        let forced = no_forces(alloc, layout)?;
        Ok(Cells { values, forced })
    }

    fn elem(&self, layout: &Layout, leaf: u32) -> Elem {
        layout.elem(leaf)
    }

    fn get(&self, layout: &Layout, leaf: u32) -> Value {
        self.values[leaf as usize]
    }

    fn set(&mut self, layout: &Layout, leaf: u32, value: Value) {
        self.values[leaf as usize] = value;
    }

    fn forced(&self, layout: &Layout, leaf: u32) -> bool {
        self.forced[leaf as usize]
    }

    fn mark(&mut self, layout: &Layout, leaf: u32, on: bool) {
        self.forced[leaf as usize] = on;
    }

    fn take_from(&mut self, layout: &Layout, other: &Self) {
        self.values.copy_from_slice(&other.values);
        self.forced.copy_from_slice(&other.forced);
    }

    fn carry(
        &mut self,
        alloc: Global,
        plan: &Plan,
        old: &Layout,
        new: &Layout,
    ) -> Result<Saved, AllocError> {
        let values = carried_values(alloc, plan, old, new, &self.values)?;
        let forced = moved_forces(alloc, plan.sources(), &self.forced)?;
        let bytes = dropped_bytes(alloc, plan, old, &self.values)?;
        let numbers = dropped_forces(alloc, plan, old, &self.forced)?;
        self.values = values;
        self.forced = forced;
        Ok(Saved {
            bytes: List { items: bytes },
            forced: List { items: numbers },
        })
    }

    fn back(
        &mut self,
        alloc: Global,
        plan: &Plan,
        old: &Layout,
        new: &Layout,
        dropped: &Saved,
    ) -> Result<(), AllocError> {
        let values = returned_values(alloc, plan, old, &self.values, dropped.bytes.as_slice())?;
        let forced = returned_forces(alloc, plan, old, &self.forced, dropped.forced.as_slice())?;
        self.values = values;
        self.forced = forced;
        Ok(())
    }
}

/// The initial values of the leaves.
fn initial_values(alloc: Global, layout: &Layout) -> Result<Vec<Value>, AllocError>
    ensures values { IfOk result (λ values. values.items ≡ map (λ leaf. leaf.initial) layout.now) }
    ensures fitting { IfOk result (λ values. AreValues layout.now values.items) }
{
    let mut values = Vec::new(alloc);
    for leaf in 0..layout.len() {
        values.push(layout.at(leaf).initial)?;
    }
    Ok(values)
}

/// One mark a leaf, none of them set.
fn no_forces(alloc: Global, layout: &Layout) -> Result<Vec<bool>, AllocError>
    ensures { IfOk result (λ forced. forced.items ≡ replicate (length layout.now) false) }
{
    let mut forced = Vec::new(alloc);
    for _leaf in 0..layout.len() {
        forced.push(false)?;
    }
    Ok(forced)
}
