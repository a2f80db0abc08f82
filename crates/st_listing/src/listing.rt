//! Leaves, listed one after the other, and where the next one stands.
ghost use Rattle.std.specs.Option.{option_copied};
ghost use Rattle.std.specs.Prelude.{◌≡◌, ◌+◌, ◌≤◌, [], ◌∷◌, IfOk, List as Items, OnOk, false, length, map};
ghost use Rattle.st_values.specs.Words.{raised};
ghost use Rattle.st_leaves.specs.LeavesIn.{LeafIn, one, starting};
ghost use Rattle.st_leaves.specs.Paths.{field, kept};
ghost use Rattle.st_listing.specs.Listings.{ListingView, as_inputs, behind, inside, listed, outside};
ghost use Rattle.st_listing.specs.Uses.{meant};
ghost use Rattle.st_listing.specs.Walks.{begins_with};

use crate::leaf_use::LeafUse;
use st_references::value_written;
use st_tree::tree::Constant;
use st_tree::{Leaf, List};
use st_values::Value;
use std::alloc::{AllocError, Global};
use std::marker::Model;

/// The leaves so far, and the way to the part that is being listed.
#[derive(Drop)]
pub(crate) struct Listing<'a> {
    leaves: Vec<Leaf>,
    /// The way, as it is written.
    text: Vec<u8>,
    /// What each front of the way is.
    spine: Vec<&'a [u8]>,
    /// Whether the part is one of an input of the program.
    is_input: bool,
}

impl<'a> Model for Listing<'a> {
    ghost use Rattle.std.specs.Prelude.{map};
    ghost use Rattle.st_listing.specs.Listings.{ListingView};

    ghost Value = { ListingView };

    ghost view = { λ l. record { leaves = l.leaves.items; text = l.text.items; spine = map (λ name. name.now) l.spine.items; is_input = l.is_input } };
}

impl<'a> Listing<'a> {
    /// No leaves. The way is that to the program, which has this name.
    pub fn new(alloc: Global, main: &[u8]) -> Result<Listing<'a>, AllocError>
        ensures { IfOk result (λ listing. listing ≡ record {
          leaves = [];
          text = main.now;
          spine = [];
          is_input = false;
        }) }
    {
        Ok(Listing {
            leaves: Vec::new(alloc),
            text: Vec::from_slice(alloc, main)?,
            spine: Vec::new(alloc),
            is_input: false,
        })
    }

    /// The leaves that were listed, in order.
    pub fn into_leaves(self) -> Vec<Leaf>
        ensures { result.items ≡ self.entry.leaves }
    {
        self.leaves
    }

    /// How many leaves there are.
    pub fn count(&self) -> usize
        ensures { result ≡ length self.now.leaves }
    {
        self.leaves.len()
    }

    /// How many bytes the way has.
    pub fn mark(&self) -> usize
        ensures { result ≡ length self.now.text }
    {
        self.text.len()
    }

    /// Goes back to the way with so many bytes, of one part less.
    pub fn leave(&mut self, mark: usize)
        ensures { self.new ≡ outside self.old mark }
    {
        self.text.truncate(mark);
        self.spine.pop();
    }

    /// Says whether the part is one of an input of the program.
    pub fn set_input(&mut self, is_input: bool)
        ensures { self.new ≡ as_inputs self.old is_input }
    {
        self.is_input = is_input;
    }

    /// Goes to a part that is written so, of a whole of this name.
    pub fn enter_text(&mut self, text: &[u8], of: &'a [u8]) -> Result<(), AllocError>
        ensures { OnOk result (self.new ≡ behind self.old text.now of.now) }
    {
        self.text.extend_from_slice(text)?;
        self.spine.push(of)?;
        Ok(())
    }

    /// Goes to the part of this declared name, of a whole of that name.
    pub fn enter(&mut self, name: &[u8], of: &'a [u8]) -> Result<(), AllocError>
        ensures { OnOk result (self.new ≡ inside self.old (field name.now) of.now) }
    {
        self.text.push(b'.')?;
        self.enter_text(name, of)
    }

    /// Goes to what a whole of that name keeps under this name.
    pub fn enter_kept(&mut self, name: &[u8], of: &'a [u8]) -> Result<(), AllocError>
        ensures { OnOk result (self.new ≡ inside self.old (kept name.now) of.now) }
    {
        self.text.extend_from_slice(b".$")?;
        self.enter_text(name, of)
    }

    /// Lists the part as a leaf that begins with this value.
    pub fn push(
        &mut self,
        alloc: Global,
        initial: Value,
        leaf_use: LeafUse,
    ) -> Result<(), AllocError>
        requires room { length self.old.leaves + 1 ≤ 65536 }
        ensures { OnOk result (self.new ≡ listed self.old
            (record { path = []; spine = []; initial = initial; use' = meant leaf_use } ∷ [])) }
    {
        let number = self.count() as u32;
        let leaf = Leaf {
            path: upper_case(alloc, self.text.as_slice())?,
            shown: List::from_slice(alloc, self.text.as_slice())?,
            spine: copied(alloc, self.spine.as_slice())?,
            elem: initial.elem,
            initial,
            role: leaf_use.role(number, self.is_input),
        };
        self.leaves.push(leaf)?;
        Ok(())
    }

    /// The leaves from this number on begin with this value, where one is written.
    pub fn start(&mut self, from: usize, first: Option<&Constant>)
        requires { from ≤ length self.old.leaves }
        ensures { (s : ListingView) (leaves : Items LeafIn) → self.old ≡ listed s leaves → length s.leaves ≡ from
            → self.new ≡ listed s (starting (option_copied first.entry) leaves) }
    {
        if let Some(constant) = first {
            start_all(&mut self.leaves[from..], constant);
        }
    }

    /// Lists a leaf of a whole of that name, which is declared by this name.
    pub fn put(
        &mut self,
        alloc: Global,
        name: &[u8],
        of: &'a [u8],
        initial: Value,
        leaf_use: LeafUse,
    ) -> Result<(), AllocError>
        requires room { length self.old.leaves + 1 ≤ 65536 }
        ensures { OnOk result (self.new ≡ listed self.old
            (one (field name.now) of.now initial (meant leaf_use))) }
    {
        let mark = self.mark();
        self.enter(name, of)?;
        self.push(alloc, initial, leaf_use)?;
        self.leave(mark);
        Ok(())
    }

    /// Lists a leaf that a whole of that name keeps under this name.
    pub fn put_kept(
        &mut self,
        alloc: Global,
        name: &[u8],
        of: &'a [u8],
        initial: Value,
        leaf_use: LeafUse,
    ) -> Result<(), AllocError>
        requires room { length self.old.leaves + 1 ≤ 65536 }
        ensures { OnOk result (self.new ≡ listed self.old
            (one (kept name.now) of.now initial (meant leaf_use))) }
    {
        let mark = self.mark();
        self.enter_kept(name, of)?;
        self.push(alloc, initial, leaf_use)?;
        self.leave(mark);
        Ok(())
    }
}

/// These leaves begin with this value.
fn start_all(leaves: &mut [Leaf], constant: &Constant)
    ensures { leaves.new ≡ map (begins_with constant.now) leaves.old }
{
    'leaves: for leaf in leaves {
        let initial = value_written(leaf.elem, constant);
        leaf.initial = initial;
    }
}

/// A text in upper case.
pub(crate) fn upper_case(alloc: Global, text: &[u8]) -> Result<List<u8>, AllocError>
    ensures { IfOk result (λ upper. upper ≡ raised text.now) }
{
    let mut items = Vec::from_slice(alloc, text)?;
    items.make_ascii_uppercase();
    Ok(List { items })
}

/// Copies of these names.
fn copied(alloc: Global, names: &[&[u8]]) -> Result<List<List<u8>>, AllocError>
    ensures { IfOk result (λ copies. copies ≡ map (λ name. name.now) names.now) }
{
    let mut items = Vec::with_capacity(alloc, names.len())?;
    'names: for name in names {
        items.push(List::from_slice(alloc, name)?)?;
    }
    Ok(List { items })
}
