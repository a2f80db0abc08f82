//! Layouts: the leaves of a program by number and by path.
ghost use Rattle.std.specs.Prelude.{◌≡◌, ◌≤◌, ◌<◌, ◌+◌, ◌↔◌, EachIndex, IfOk, IfSome, IsSome, Some, length, map, slice_index};
ghost use Rattle.std.specs.List.{Contains};
ghost use Rattle.st_leaves.specs.Sound.{IsSound, IsValueOf};
ghost use Rattle.st_layout.specs.Layout.{leaf_at, number_of, offset_of, paths_of, total_width};
ghost use Rattle.st_values.specs.Words.{raised};

use crate::table::{Entry, place_of, table_of};
use indexmap::IndexSet;
use st_tree::Leaf;
use st_values::Elem;
use std::alloc::{AllocError, Global};
use std::marker::Model;

/// The leaves of a program, which are numbered from 0 in order and looked up by their paths.
#[derive(Drop)]
pub struct Layout {
    /// The leaves, in order.
    leaves: IndexSet<Entry>,
    /// The place of each leaf in bytes, and the end of the last one.
    offsets: Vec<u32>,
    /// The type of each leaf.
    elems: Vec<Elem>,
}

impl Model for Layout {
    ghost use Rattle.std.specs.Prelude.{List as Items};
    ghost use Rattle.st_layout.specs.Inside.{IsLayout, leaves_of};
    ghost use Rattle.st_tree.specs.declared.leaf.Leaf.{Leaf as LeafSeen};

    ghost Value = { Items LeafSeen };

    ghost view = { leaves_of };

    ghost invariant = { IsLayout };
}

impl Layout {
    /// The layout of leaves that a program can have. It is refused for want of memory alone.
    pub fn new(alloc: Global, leaves: Vec<Leaf>) -> Result<Layout, AllocError>
        requires { IsSound leaves.items }
        ensures { IfOk result (λ layout. layout ≡ leaves.items) }
    {
        let offsets = offsets_of(alloc, &leaves)?;
        let elems = elems_of(alloc, &leaves)?;
        let leaves = table_of(alloc, leaves)?;
        Ok(Layout {
            leaves,
            offsets,
            elems,
        })
    }

    /// How many leaves there are.
    pub fn len(&self) -> u32
        ensures value { result ≡ length self.now }
        ensures sound { IsSound self.now }
    {
        self.leaves.len() as u32
    }

    /// How many bytes the values of all leaves take, each in the width of its type.
    pub fn bytes(&self) -> u32
        ensures { result ≡ total_width self.now }
    {
        self.offsets[self.leaves.len()]
    }

    /// The place of a leaf's value in bytes: the values lie in order, with no gaps.
    #[inline]
    pub fn offset(&self, leaf: u32) -> u32
        requires { leaf < length self.now }
        ensures { result ≡ offset_of self.now leaf }
    {
        self.offsets[leaf as usize]
    }

    /// The type of a leaf, from a table that is smaller than that of the leaves.
    #[inline]
    pub fn elem(&self, leaf: u32) -> Elem
        requires { leaf < length self.now }
        ensures { result ≡ (leaf_at self.now leaf).elem }
    {
        self.elems[leaf as usize]
    }

    /// The leaf of this number.
    pub fn at(&self, leaf: u32) -> &Leaf
        requires { leaf < length self.now }
        ensures value { result.now ≡ leaf_at self.now leaf }
        ensures found { number_of self.now result.now.path ≡ Some leaf }
        ensures short { length result.now.shown ≤ 255 }
        ensures initial { IsValueOf result.now result.now.initial }
    {
        let entry = &self.leaves.as_slice()[leaf as usize];
        &entry.leaf
    }

    /// The number of the leaf with this path, ignoring case. There is none exactly where no leaf has the path.
    pub fn leaf(&self, path: &[u8]) -> Option<u32>
        ensures value { result ≡ number_of self.now path.now }
        ensures below { IfSome result (λ i. i < length self.now) }
        ensures found { IfSome result (λ i. (leaf_at self.now i).path ≡ raised path.now) }
        ensures listed { IsSome result ↔ Contains (paths_of self.now) (raised path.now) }
    {
        match place_of(&self.leaves, path) {
            Some(place) => Some(place as u32),
            None => None,
        }
    }
}

/// The place of each leaf, and the end of the last one.
fn offsets_of(alloc: Global, leaves: &[Leaf]) -> Result<Vec<u32>, AllocError>
    requires { length leaves.now ≤ 65536 }
    ensures count { IfOk result (λ offsets. length offsets.items ≡ length leaves.now + 1) }
    ensures offsets { IfOk result
        (λ offsets. EachIndex offsets.items
        (λ i. slice_index offsets.items i ≡ offset_of leaves.now i)) }
{
    let mut offsets = Vec::with_capacity(alloc, leaves.len() + 1)?;
    let mut end = 0;
    offsets.push(end)?;
    for leaf in leaves {
        end += leaf.elem.width();
        offsets.push(end)?;
    }
    Ok(offsets)
}

/// The type of each leaf.
fn elems_of(alloc: Global, leaves: &[Leaf]) -> Result<Vec<Elem>, AllocError>
    ensures { IfOk result (λ elems. elems.items ≡ map (λ leaf. leaf.elem) leaves.now) }
{
    let mut elems = Vec::with_capacity(alloc, leaves.len())?;
    for leaf in leaves {
        elems.push(leaf.elem)?;
    }
    Ok(elems)
}
