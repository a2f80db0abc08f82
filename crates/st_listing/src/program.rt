//! The leaves of a program's variables and of its chart.
ghost use Rattle.std.specs.List.{All};
ghost use Rattle.std.specs.Prelude.{◌≡◌, ◌+◌, ◌≤◌, ◌<◌, ◌∷◌, [], OnOk, Some, codes, false, length, suc};
ghost use Rattle.st_leaves.specs.LeavesIn.{leaves_of_whole};
ghost use Rattle.st_listing.specs.Listings.{AreWays, listed};
ghost use Rattle.st_listing.specs.Members.{IsMember, declared_of};
ghost use Rattle.st_listing.specs.Walks.{IsWalk, units_in, variable_leaves};
ghost use Rattle.st_types.specs.Compositions.{composition_of};
ghost use Rattle.st_types.specs.Names.{Named, unit_at};

use crate::listing::Listing;
use crate::members::Member;
use crate::walk::Walk;
use st_tree::tree::VarKind;
use std::alloc::AllocError;

impl<'a, 't> Walk<'a, 't> {
    /// Lists a program, which is the unit of this number: its variables, and then its chart.
    pub fn list_program(self, unit: usize, listing: &mut Listing<'t>) -> Result<(), AllocError>
        requires walk { IsWalk self }
        requires unit { unit < length (units_in self) }
        requires input { listing.old.is_input ≡ false }
        requires room { (u : Named) → unit_at (units_in self) unit ≡ Some u
            → length listing.old.leaves
            + length (leaves_of_whole (composition_of (units_in self) u.declares)) ≤ 65536 }
        ensures listed { (u : Named) → unit_at (units_in self.entry) unit ≡ Some u
            → OnOk result (listing.new ≡ listed listing.old
            (leaves_of_whole (composition_of (units_in self.entry) u.declares))) }
        ensures ways { (u : Named) → unit_at (units_in self.entry) unit ≡ Some u
            → OnOk result (AreWays (leaves_of_whole (composition_of (units_in self.entry)
            u.declares))) }
    {
        let depth = self.tables.len() + 1;
        self.list_variables(depth, self.members[unit].as_slice(), listing)?;
        listing.list_chart(self.alloc, b"PROGRAM", &self.charts[unit])
    }

    /// Lists variables of the program, in order.
    fn list_variables(
        self,
        depth: usize,
        variables: &'t [Member<'a, 't>],
        listing: &mut Listing<'t>,
    ) -> Result<(), AllocError>
        requires walk { IsWalk self }
        requires input { listing.old.is_input ≡ false }
        requires depth { depth ≤ suc (length (units_in self)) }
        requires known { All (IsMember (units_in self)) variables.now }
        requires room { length listing.old.leaves
            + length (variable_leaves (units_in self) depth (codes "PROGRAM")
            (declared_of variables.now)) ≤ 65536 }
        ensures listed { OnOk result
            (listing.new ≡ listed listing.old (variable_leaves (units_in self.entry)
            depth (codes "PROGRAM") (declared_of variables.now))) }
        ensures ways { OnOk result (AreWays (variable_leaves (units_in self.entry)
            depth (codes "PROGRAM") (declared_of variables.now))) }
    {
        'each: for variable in variables {
            self.list_variable(depth, variable, listing)?;
        }
        Ok(())
    }

    /// Lists a variable of the program. The leaves of an input may be set from outside.
    fn list_variable(
        self,
        depth: usize,
        variable: &'t Member<'a, 't>,
        listing: &mut Listing<'t>,
    ) -> Result<(), AllocError>
        requires walk { IsWalk self }
        requires input { listing.old.is_input ≡ false }
        requires depth { depth ≤ suc (length (units_in self)) }
        requires known { IsMember (units_in self) variable.now }
        requires room { length listing.old.leaves
            + length (variable_leaves (units_in self) depth (codes "PROGRAM")
            (variable.now.declared ∷ [])) ≤ 65536 }
        ensures listed { OnOk result
            (listing.new ≡ listed listing.old (variable_leaves (units_in self.entry)
            depth (codes "PROGRAM") (variable.now.declared ∷ []))) }
        ensures ways { OnOk result (AreWays (variable_leaves (units_in self.entry)
            depth (codes "PROGRAM") (variable.now.declared ∷ []))) }
    {
        let mark = listing.mark();
        let row = variable.row();
        listing.enter(row.name().spelling.letters(), b"PROGRAM")?;
        listing.set_input(row.kind().is_input());
        self.list_declared(depth, variable, listing)?;
        listing.set_input(false);
        listing.leave(mark);
        Ok(())
    }
}
