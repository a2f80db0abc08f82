//! The leaves of standard function blocks (2.5.2.3).
ghost use Rattle.std.specs.List.{flat_map};
ghost use Rattle.std.specs.Prelude.{◌≡◌, ◌+◌, ◌≤◌, OnOk, length, map};
ghost use Rattle.st_types.specs.Pins.{seen, seen_kept};
ghost use Rattle.st_leaves.specs.LeavesIn.{block_leaves, kept_leaf, pin_leaf};
ghost use Rattle.st_listing.specs.Listings.{AreWays, listed};

use crate::leaf_use::LeafUse;
use crate::listing::Listing;
use crate::values::zero_of;
use st_types::{Kept, Pin, StandardBlock};
use std::alloc::{AllocError, Global};

impl<'a> Listing<'a> {
    /// Lists an instance of a standard function block.
    pub fn list_block(&mut self, alloc: Global, block: StandardBlock) -> Result<(), AllocError>
        requires room { length self.old.leaves + length (block_leaves block) ≤ 65536 }
        ensures listed { OnOk result (self.new ≡ listed self.old (block_leaves block)) }
        ensures ways { AreWays (block_leaves block) }
    {
        let of = block.name();
        self.list_pins(alloc, of, block.pins())?;
        self.list_kept(alloc, of, block.kept())
    }

    /// Lists these inputs and outputs of a block of that name.
    fn list_pins(&mut self, alloc: Global, of: &'a [u8], pins: &[Pin]) -> Result<(), AllocError>
        requires room { length self.old.leaves + length pins.now ≤ 65536 }
        ensures { OnOk result (self.new ≡ listed self.old
            (flat_map (pin_leaf of.now) (map seen pins.now))) }
    {
        'pins: for pin in pins {
            self.put(alloc, pin.name, of, zero_of(pin.elem), LeafUse::Plain)?;
        }
        Ok(())
    }

    /// Lists what a block of that name keeps behind them.
    fn list_kept(&mut self, alloc: Global, of: &'a [u8], kept: &[Kept]) -> Result<(), AllocError>
        requires room { length self.old.leaves + length kept.now ≤ 65536 }
        ensures { OnOk result (self.new ≡ listed self.old
            (flat_map (kept_leaf of.now) (map seen_kept kept.now))) }
    {
        'kept: for leaf in kept {
            self.put_kept(alloc, leaf.name, of, zero_of(leaf.elem), LeafUse::Hidden)?;
        }
        Ok(())
    }
}
