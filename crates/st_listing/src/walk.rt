//! The walk through what variables consist of: each function lists the leaves of one kind of part.
//!
//! Only what has leaves is walked through.
//! A part is walked through with a depth, as its composition is defined: at most so many units stand inside one another. In a
//! checked program no part is deeper.
ghost use Rattle.std.specs.List.{All};
ghost use Rattle.std.specs.Option.{option_copied};
ghost use Rattle.std.specs.Prelude.{◌≡◌, ◌+◌, ◌≤◌, ◌<◌, ◌∷◌, [], ℤ, List, Some, OnOk, codes, length, suc};
ghost use Rattle.st_leaves.specs.LeavesIn.{elements_in, starting, subscript_lists, within};
ghost use Rattle.st_leaves.specs.Paths.{index, selector_text};
ghost use Rattle.st_listing.specs.Listings.{AreWays, listed};
ghost use Rattle.st_listing.specs.Members.{IsMember, declared_of};
ghost use Rattle.st_listing.specs.Walks.{IsWalk, array_leaves, declared_leaves, member_leaves, part_leaves, unit_leaves, units_in};

use crate::leaf_use::LeafUse;
use crate::listing::Listing;
use crate::members::Member;
use crate::subscripts::Subscripts;
use crate::values::started_value;
use st_chart_parts::ChartParts;
use st_references::{FirstValues, Initials, Written};
use st_scopes::Tables;
use st_tree::List;
use st_tree::tree::{Constant, Subrange};
use st_types::Base;
use std::alloc::{AllocError, Global};

/// What has a base, and begins so.
#[derive(Clone, Copy)]
pub(crate) struct Part<'a> {
    /// At most so many units are walked through.
    pub depth: usize,
    pub base: Base,
    /// With what it begins, where a value is written.
    pub initial: Option<&'a Written<'a>>,
}

/// The tables of a text whose parts are listed.
#[derive(Clone, Copy)]
pub(crate) struct Walk<'a, 't> {
    pub alloc: Global,
    pub tables: &'t Tables<'a>,
    pub initials: &'t Initials<'t>,
    /// The names of the units, in upper case.
    pub names: &'t [List<u8>],
    /// The declared names that are listed, by the numbers of the units.
    pub members: &'t [List<Member<'a, 't>>],
    /// The parts of the charts of the units that have leaves.
    pub charts: &'t [ChartParts<'a>],
}

impl<'a, 't> Walk<'a, 't> {
    /// Lists what has a base.
    #[cycle(walk)]
    fn list_part(self, part: Part<'t>, listing: &mut Listing<'t>) -> Result<(), AllocError>
        requires walk { IsWalk self }
        requires depth { part.depth ≤ suc (length (units_in self)) }
        requires room { length listing.old.leaves + length (part_leaves (units_in self) part)
            ≤ 65536 }
        ensures listed { OnOk result
            (listing.new ≡ listed listing.old (part_leaves (units_in self.entry) part.entry)) }
        ensures ways { OnOk result (AreWays (part_leaves (units_in self.entry) part.entry)) }
    {
        if part.depth == 0 {
            return Ok(());
        }
        let depth = part.depth - 1;
        match part.base {
            Base::Unknown => Ok(()),
            Base::Elementary(elem) => {
                let initial = started_value(elem, part.initial);
                listing.push(self.alloc, initial, LeafUse::Plain)
            }
            Base::Array(unit) => self.list_array(depth, unit, part.initial, listing),
            Base::Structure(unit) | Base::Block(unit) => self.list_unit(depth, unit, listing),
            Base::Standard(block) => listing.list_block(self.alloc, block),
        }
    }

    /// Lists what has the array type of this unit.
    #[cycle(walk)]
    fn list_array(
        self,
        depth: usize,
        unit: usize,
        initial: Option<&'t Written<'t>>,
        listing: &mut Listing<'t>,
    ) -> Result<(), AllocError>
        requires walk { IsWalk self }
        requires depth { depth ≤ suc (length (units_in self)) }
        requires room { length listing.old.leaves
            + length (array_leaves (units_in self) depth unit (option_copied initial)) ≤ 65536 }
        ensures listed { OnOk result
            (listing.new ≡ listed listing.old (array_leaves (units_in self.entry)
            depth unit (option_copied initial.entry))) }
        ensures ways { OnOk result (AreWays (array_leaves (units_in self.entry)
            depth unit (option_copied initial.entry))) }
    {
        let Some(elements) = self.tables.elements(Base::Array(unit)) else {
            return Ok(());
        };
        let element = Part {
            depth,
            base: elements.element,
            initial: self.initials.of_array(self.tables, unit),
        };
        let firsts = FirstValues::of(initial);
        self.list_elements(elements.subscripts, firsts, element, listing)
    }

    /// Lists elements, one after the other. The first of them begin with these values.
    #[cycle(walk)]
    fn list_elements(
        self,
        ranges: &[Subrange],
        mut firsts: FirstValues<'t>,
        element: Part<'t>,
        listing: &mut Listing<'t>,
    ) -> Result<(), AllocError>
        requires walk { IsWalk self }
        requires depth { element.depth ≤ suc (length (units_in self)) }
        requires room { length listing.old.leaves
            + length (elements_in (subscript_lists ranges.now)
            firsts (part_leaves (units_in self) element)) ≤ 65536 }
        ensures listed { OnOk result
            (listing.new ≡ listed listing.old (elements_in (subscript_lists ranges.now)
            firsts.entry (part_leaves (units_in self.entry) element.entry))) }
        ensures ways { OnOk result (AreWays (elements_in (subscript_lists ranges.now)
            firsts.entry (part_leaves (units_in self.entry) element.entry))) }
    {
        let mut choices = Subscripts::of(self.alloc, ranges)?;
        'elements: while !choices.is_done() {
            let first = firsts.next();
            let text = choices.text(self.alloc)?;
            self.list_element(text.as_bytes(), first, element, listing)?;
            choices.advance();
        }
        Ok(())
    }

    /// Lists an element. Its leaves begin with this value, where one is written.
    #[cycle(walk)]
    fn list_element(
        self,
        subscripts: &[u8],
        first: Option<&'t Constant>,
        element: Part<'t>,
        listing: &mut Listing<'t>,
    ) -> Result<(), AllocError>
        requires walk { IsWalk self }
        requires depth { element.depth ≤ suc (length (units_in self)) }
        requires room { length listing.old.leaves + length (part_leaves (units_in self) element)
            ≤ 65536 }
        ensures listed { OnOk result ((is : List ℤ) → subscripts.now ≡ selector_text (index is)
            → listing.new ≡ listed listing.old (within (index is) (codes "array") (starting (option_copied first.entry) (part_leaves (units_in self.entry) element.entry)))) }
        ensures ways { OnOk result (AreWays (part_leaves (units_in self.entry) element.entry)) }
    {
        let mark = listing.mark();
        let from = listing.count();
        listing.enter_text(subscripts, b"array")?;
        self.list_part(element, listing)?;
        listing.start(from, first);
        listing.leave(mark);
        Ok(())
    }

    /// Lists what has a structure or a function block as its type, by the number of the unit: its members, and then its chart.
    #[cycle(walk)]
    fn list_unit(
        self,
        depth: usize,
        unit: usize,
        listing: &mut Listing<'t>,
    ) -> Result<(), AllocError>
        requires walk { IsWalk self }
        requires depth { depth ≤ suc (length (units_in self)) }
        requires room { length listing.old.leaves + length (unit_leaves (units_in self) depth unit)
            ≤ 65536 }
        ensures listed { OnOk result
            (listing.new ≡ listed listing.old (unit_leaves (units_in self.entry) depth unit)) }
        ensures ways { OnOk result (AreWays (unit_leaves (units_in self.entry) depth unit)) }
    {
        if unit >= self.tables.len() {
            return Ok(());
        }
        let name = self.names[unit].as_slice();
        self.list_members(depth, name, self.members[unit].as_slice(), listing)?;
        listing.list_chart(self.alloc, name, &self.charts[unit])
    }

    /// Lists members of a whole of that name, in order.
    #[cycle(walk)]
    fn list_members(
        self,
        depth: usize,
        of: &'t [u8],
        members: &'t [Member<'a, 't>],
        listing: &mut Listing<'t>,
    ) -> Result<(), AllocError>
        requires walk { IsWalk self }
        requires depth { depth ≤ suc (length (units_in self)) }
        requires known { All (IsMember (units_in self)) members.now }
        requires room { length listing.old.leaves
            + length (member_leaves (units_in self) depth of.now (declared_of members.now))
            ≤ 65536 }
        ensures listed { OnOk result
            (listing.new ≡ listed listing.old (member_leaves (units_in self.entry)
            depth of.now (declared_of members.now))) }
        ensures ways { OnOk result (AreWays (member_leaves (units_in self.entry)
            depth of.now (declared_of members.now))) }
    {
        'members: for member in members {
            self.list_member(depth, of, member, listing)?;
        }
        Ok(())
    }

    /// Lists a member of a whole of that name.
    #[cycle(walk)]
    fn list_member(
        self,
        depth: usize,
        of: &'t [u8],
        member: &'t Member<'a, 't>,
        listing: &mut Listing<'t>,
    ) -> Result<(), AllocError>
        requires walk { IsWalk self }
        requires depth { depth ≤ suc (length (units_in self)) }
        requires known { IsMember (units_in self) member.now }
        requires room { length listing.old.leaves
            + length (member_leaves (units_in self) depth of.now (member.now.declared ∷ []))
            ≤ 65536 }
        ensures listed { OnOk result
            (listing.new ≡ listed listing.old (member_leaves (units_in self.entry)
            depth of.now (member.now.declared ∷ []))) }
        ensures ways { OnOk result (AreWays (member_leaves (units_in self.entry)
            depth of.now (member.now.declared ∷ []))) }
    {
        let mark = listing.mark();
        listing.enter(member.row().name().spelling.letters(), of)?;
        self.list_declared(depth, member, listing)?;
        listing.leave(mark);
        Ok(())
    }

    /// Lists what is declared under a name.
    #[cycle(walk)]
    pub fn list_declared(
        self,
        depth: usize,
        member: &'t Member<'a, 't>,
        listing: &mut Listing<'t>,
    ) -> Result<(), AllocError>
        requires walk { IsWalk self }
        requires depth { depth ≤ suc (length (units_in self)) }
        requires known { IsMember (units_in self) member.now }
        requires room { length listing.old.leaves
            + length (declared_leaves (units_in self) depth member.now.declared) ≤ 65536 }
        ensures listed { OnOk result
            (listing.new ≡ listed listing.old (declared_leaves (units_in self.entry)
            depth member.now.declared)) }
        ensures ways { OnOk result (AreWays (declared_leaves (units_in self.entry)
            depth member.now.declared)) }
    {
        let base = member.base();
        let initial = member.initial();
        let Some(ranges) = member.subscripts() else {
            let part = Part {
                depth,
                base,
                initial,
            };
            return self.list_part(part, listing);
        };
        let element = Part {
            depth,
            base,
            initial: member.of_elements(),
        };
        self.list_elements(ranges, FirstValues::of(initial), element, listing)
    }
}
