//! A memory of bytes.
ghost use Rattle.std.specs.Prelude.{◌≡◌, IfOk, OnOk, map};
ghost use Rattle.st_memory.specs.Memory.{AreValues};
ghost use Rattle.st_memory.specs.Packed.{encoded, has_mark};

mod apart;
mod carrying;
mod marks;
mod places;
mod returning;
mod rows;

use crate::bytes::push_value;
use crate::memory::Memory;
use crate::packed::carrying::{carried_bytes, dropped_bytes, dropped_marks};
use crate::packed::marks::{has_mark, is_marked, moved_marks, no_marks, put_mark};
use crate::packed::places::{set_value_of, value_of};
use crate::packed::returning::{returned_bytes, returned_marks};
use crate::packed::rows::{Row, elem_at, offset_at, rows_of};
use crate::saved::Saved;
use st_layout::{Layout, Plan};
use st_tree::List;
use st_values::{Elem, Value};
use std::alloc::{AllocError, Global};

/// A memory of the bytes of the leaves' values, each at its place in the layout, and one bit a leaf.
#[derive(Drop)]
pub struct Packed {
    bytes: Vec<u8>,
    /// Whether each leaf is forced.
    marks: Vec<u8>,
    /// Where the value of each leaf lies, and its type.
    rows: Vec<Row>,
    /// Whether any leaf is forced: a store looks for a mark only then.
    is_forced: bool,
}

impl Packed {
    /// A memory of these bytes and marks.
    fn with(bytes: Vec<u8>, marks: Vec<u8>, rows: Vec<Row>) -> Packed
        ensures bytes { result.bytes ≡ bytes }
        ensures marks { result.marks ≡ marks }
        ensures rows { result.rows ≡ rows }
        ensures forced { result.is_forced ≡ has_mark marks.items }
    {
        let is_forced = has_mark(&marks);
        Packed {
            bytes,
            marks,
            rows,
            is_forced,
        }
    }
}

impl Memory for Packed {
    ghost use Rattle.st_memory.specs.Packed.{IsWhole, content_in, packed_fits};

    ghost content = { λ leaves packed. content_in leaves packed.bytes.items packed.marks.items };

    ghost IsOver = { λ leaves packed. IsWhole leaves packed.bytes.items packed.marks.items packed.rows.items packed.is_forced };

    ghost fits = { λ leaves packed over. packed_fits leaves packed.bytes.items packed.marks.items over.packed };

    fn fresh(alloc: Global, layout: &Layout) -> Result<Self, AllocError> {
        let bytes = initial_bytes(alloc, layout)?;
        let marks = no_marks(alloc, layout.len())?;
        let rows = rows_of(alloc, layout)?;
        Ok(Packed::with(bytes, marks, rows))
    }

    #[inline(always)]
    fn elem(&self, layout: &Layout, leaf: u32) -> Elem {
        elem_at(&self.rows, layout, leaf)
    }

    #[inline(always)]
    fn get(&self, layout: &Layout, leaf: u32) -> Value {
        let offset = offset_at(&self.rows, layout, leaf);
        let elem = elem_at(&self.rows, layout, leaf);
        value_of(&self.bytes, layout, leaf, offset, elem)
    }

    #[inline(always)]
    fn set(&mut self, layout: &Layout, leaf: u32, value: Value) {
        let offset = offset_at(&self.rows, layout, leaf);
        set_value_of(&mut self.bytes, layout, leaf, offset, value);
    }

    #[inline(always)]
    fn forced(&self, layout: &Layout, leaf: u32) -> bool {
        self.is_forced && is_marked(&self.marks, leaf)
    }

    fn mark(&mut self, layout: &Layout, leaf: u32, on: bool) {
        put_mark(&mut self.marks, leaf, on);
        self.is_forced = has_mark(&self.marks);
    }

    fn take_from(&mut self, layout: &Layout, other: &Self) {
        self.bytes.copy_from_slice(&other.bytes);
        self.marks.copy_from_slice(&other.marks);
        self.is_forced = other.is_forced;
    }

    fn carry(
        &mut self,
        alloc: Global,
        plan: &Plan,
        old: &Layout,
        new: &Layout,
    ) -> Result<Saved, AllocError> {
        let bytes = carried_bytes(alloc, plan, old, new, &self.bytes)?;
        let marks = moved_marks(alloc, plan.sources(), old, &self.marks)?;
        let dropped = dropped_bytes(alloc, plan, old, &self.bytes)?;
        let numbers = dropped_marks(alloc, plan, old, &self.marks)?;
        let rows = rows_of(alloc, new)?;
        *self = Packed::with(bytes, marks, rows);
        Ok(Saved {
            bytes: List { items: dropped },
            forced: List { items: numbers },
        })
    }

    fn back(
        &mut self,
        alloc: Global,
        plan: &Plan,
        old: &Layout,
        new: &Layout,
        dropped: &Saved,
    ) -> Result<(), AllocError> {
        let bytes = returned_bytes(alloc, plan, old, new, &self.bytes, dropped.bytes.as_slice())?;
        let marks = returned_marks(
            alloc,
            plan,
            old,
            new,
            &self.marks,
            dropped.forced.as_slice(),
        )?;
        let rows = rows_of(alloc, old)?;
        *self = Packed::with(bytes, marks, rows);
        Ok(())
    }
}

/// The bytes of the leaves' initial values.
fn initial_bytes(alloc: Global, layout: &Layout) -> Result<Vec<u8>, AllocError>
    ensures bytes { IfOk result
        (λ bytes. bytes.items ≡ encoded (map (λ leaf. leaf.initial) layout.now)) }
    ensures fitting { OnOk result (AreValues layout.now (map (λ leaf. leaf.initial) layout.now)) }
{
    let mut bytes = Vec::with_capacity(alloc, layout.bytes() as usize)?;
    for leaf in 0..layout.len() {
        push_value(&mut bytes, layout.at(leaf).initial)?;
    }
    Ok(bytes)
}
