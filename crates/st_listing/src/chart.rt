//! The leaves of charts (2.6).
ghost use Rattle.std.specs.List.{flat_map};
ghost use Rattle.std.specs.Prelude.{◌≡◌, ◌+◌, ◌≤◌, OnOk, length};
ghost use Rattle.st_chart_parts.specs.Charts.{leaves_of_parts};
ghost use Rattle.st_leaves.specs.Charts.{spelled};
ghost use Rattle.st_leaves.specs.LeavesIn.{all_steps_in, state_in, step_in, stored_in};
ghost use Rattle.st_listing.specs.Listings.{AreWays, listed};

use crate::leaf_use::LeafUse;
use crate::listing::Listing;
use crate::values::zero_of;
use st_chart_parts::{ChartParts, StepPart};
use st_tree::Word;
use st_values::{Elem, truth};
use std::alloc::{AllocError, Global};

impl<'a> Listing<'a> {
    /// Lists the chart of a unit of that name, if it has one: whether it has begun, its steps, and the names that it stores.
    pub fn list_chart(
        &mut self,
        alloc: Global,
        of: &'a [u8],
        chart: &ChartParts<'_>,
    ) -> Result<(), AllocError>
        requires room { length self.old.leaves + length (leaves_of_parts of.now chart.now) ≤ 65536 }
        ensures listed { OnOk result
            (self.new ≡ listed self.old (leaves_of_parts of.now chart.now)) }
        ensures ways { OnOk result (AreWays (leaves_of_parts of.now chart.now)) }
    {
        if !chart.is_there() {
            return Ok(());
        }
        self.put_kept(alloc, b"CHART", of, truth(false), LeafUse::Begun)?;
        self.list_steps(alloc, of, chart.steps())?;
        self.list_stored(alloc, of, chart.stored())?;
        Ok(())
    }

    /// Lists these steps. The leaf before the first tells whether the chart has begun.
    fn list_steps(
        &mut self,
        alloc: Global,
        of: &'a [u8],
        steps: &[StepPart<'_>],
    ) -> Result<(), AllocError>
        requires room { length self.old.leaves + length (all_steps_in of.now 1 steps.now) ≤ 65536 }
        requires begun { 1 ≤ length self.old.leaves }
        ensures listed { OnOk result
            (self.new ≡ listed self.old (all_steps_in of.now 1 steps.now)) }
        ensures ways { OnOk result (AreWays (all_steps_in of.now 1 steps.now)) }
    {
        let first = self.count();
        'steps: for step in steps {
            let back = (self.count() - first + 1) as u32;
            self.list_step(alloc, of, back, step)?;
        }
        Ok(())
    }

    /// Lists a step. The leaf that tells whether its chart has begun stands so many leaves before its first one.
    fn list_step(
        &mut self,
        alloc: Global,
        of: &'a [u8],
        back: u32,
        step: &StepPart<'_>,
    ) -> Result<(), AllocError>
        requires room { length self.old.leaves + length (step_in of.now back step.now) ≤ 65536 }
        requires back { back ≤ length self.old.leaves }
        ensures listed { OnOk result (self.new ≡ listed self.old (step_in of.now back step.now)) }
        ensures ways { OnOk result (AreWays (step_in of.now back step.now)) }
    {
        let mark = self.mark();
        self.enter(step.name().letters(), of)?;
        self.list_state(alloc, back, step.is_initial(), step.has_pulse())?;
        self.leave(mark);
        Ok(())
    }

    /// Lists whether a step is active, for how long, since when, and, where it has pulses, whether it has given them.
    fn list_state(
        &mut self,
        alloc: Global,
        back: u32,
        is_initial: bool,
        has_pulse: bool,
    ) -> Result<(), AllocError>
        requires room { length self.old.leaves + length (state_in back is_initial has_pulse)
            ≤ 65536 }
        requires back { back ≤ length self.old.leaves }
        ensures { OnOk result (self.new ≡ listed self.old (state_in back is_initial has_pulse)) }
    {
        let step = b"step";
        self.put(alloc, b"X", step, truth(is_initial), LeafUse::Active(back))?;
        self.put(alloc, b"T", step, zero_of(Elem::Time), LeafUse::Elapsed)?;
        self.put_kept(alloc, b"M", step, zero_of(Elem::Time), LeafUse::Hidden)?;
        if has_pulse {
            let pulsed = LeafUse::Pulsed(3, back + 3);
            self.put_kept(alloc, b"P", step, truth(false), pulsed)?;
        }
        Ok(())
    }

    /// Lists whether what has these names is stored, one after the other.
    fn list_stored(
        &mut self,
        alloc: Global,
        of: &'a [u8],
        stored: &[&Word],
    ) -> Result<(), AllocError>
        requires room { length self.old.leaves + length stored.now ≤ 65536 }
        ensures listed { OnOk result
            (self.new ≡ listed self.old (flat_map (stored_in of.now) (spelled stored.now))) }
        ensures ways { OnOk result (AreWays (flat_map (stored_in of.now) (spelled stored.now))) }
    {
        'stored: for name in stored {
            self.list_action(alloc, of, name)?;
        }
        Ok(())
    }

    /// Lists whether what has this name is stored.
    fn list_action(&mut self, alloc: Global, of: &'a [u8], name: &Word) -> Result<(), AllocError>
        requires room { length self.old.leaves + 1 ≤ 65536 }
        ensures listed { OnOk result (self.new ≡ listed self.old (stored_in of.now name.now)) }
        ensures ways { AreWays (stored_in of.now name.now) }
    {
        let mark = self.mark();
        self.enter(name.letters(), of)?;
        self.put_kept(alloc, b"S", b"action", truth(false), LeafUse::Hidden)?;
        self.leave(mark);
        Ok(())
    }
}
