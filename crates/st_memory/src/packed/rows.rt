//! Where the values of leaves lie, and of which types they are.
ghost use Rattle.std.specs.Prelude.{◌≡◌, ◌<◌, IfOk, length};
ghost use Rattle.st_layout.specs.Layout.{leaf_at, offset_of};
ghost use Rattle.st_memory.specs.Packed.{rows_of};

use st_layout::Layout;
use st_values::Elem;
use std::alloc::{AllocError, Global};

/// Where the value of a leaf lies in the bytes of all leaves, and its type.
#[derive(Clone, Copy)]
pub struct Row {
    /// The place of its first byte.
    pub offset: u32,
    /// Its type.
    pub elem: Elem,
}

/// The rows of a layout's leaves, in order.
pub fn rows_of(alloc: Global, layout: &Layout) -> Result<Vec<Row>, AllocError>
    ensures { IfOk result (λ rows. rows.items ≡ rows_of layout.now) }
{
    let mut rows = Vec::with_capacity(alloc, layout.len() as usize)?;
    for leaf in 0..layout.len() {
        let offset = layout.offset(leaf);
        let elem = layout.elem(leaf);
        rows.push(Row { offset, elem })?;
    }
    Ok(rows)
}

/// Where the value of a leaf lies.
#[inline(always)]
pub fn offset_at(rows: &[Row], layout: &Layout, leaf: u32) -> u32
    requires rows { rows.now ≡ rows_of layout.now }
    requires below { leaf < length layout.now }
    ensures { result ≡ offset_of layout.now leaf }
{
    rows[leaf as usize].offset
}

/// The type of a leaf.
#[inline(always)]
pub fn elem_at(rows: &[Row], layout: &Layout, leaf: u32) -> Elem
    requires rows { rows.now ≡ rows_of layout.now }
    requires below { leaf < length layout.now }
    ensures { result ≡ (leaf_at layout.now leaf).elem }
{
    rows[leaf as usize].elem
}
