//! Plans of online changes: which leaf of a new program takes the place of which leaf of an old one.
ghost use Rattle.std.specs.Prelude.{◌≡◌, ◌<◌, ◌≤◌, All, false, IfOk, IfSome, OnOk, length, true};
ghost use Rattle.st_layout.specs.Pairs.{IsPairing, dropped_count, fresh_count, is_pairable, kept_count, names_wrongly, number_at, pairs_between, range_count, shares_target, sources_of, targets_of};
ghost use Rattle.st_layout.specs.Runs.{IsNextRun};

use crate::layout::Layout;
use crate::pairing::{some_leaves_chart, sources_of, targets_of};
use crate::plan_fault::PlanFault;
use crate::rename_table::RenameTable;
use crate::renames::Rename;
use crate::runs::{Run, Runs};
use std::alloc::Global;
use std::marker::Model;

/// The pairs of an online change: of each old leaf the number of the new one that takes its place, and of each new leaf the
/// number of the old one. Both lists are kept as ranges, one in the order of the old leaves and one in that of the new ones.
#[derive(Drop)]
pub struct Plan {
    targets: Runs,
    sources: Runs,
}

impl Model for Plan {
    ghost use Rattle.st_layout.specs.Pairs.{Pairs};

    ghost Value = { Pairs };

    ghost view = { λ plan. record { targets = plan.targets; sources = plan.sources } };
}

impl Plan {
    /// The plan of a change from an old program to a new one. It is refused for want of memory, or where the renames give no
    /// pairs.
    pub fn between(
        alloc: Global,
        old: &Layout,
        new: &Layout,
        renames: &[Rename],
    ) -> Result<Plan, PlanFault>
        ensures ok { IfOk result (λ plan. plan ≡ pairs_between old.now new.now renames.now) }
        ensures pairable { OnOk result (is_pairable old.now new.now renames.now ≡ true) }
        ensures not_paired { result ≡ Err PlanFault.NotPaired
            → is_pairable old.now new.now renames.now ≡ false }
        ensures pairing { IfOk result (λ plan. IsPairing old.now new.now plan) }
    {
        let targets = renamed_targets(alloc, old, new, renames)?;
        if some_leaves_chart(old, new, &targets) {
            return Err(PlanFault::NotPaired);
        }
        Plan::of(alloc, &targets, new.len())
    }

    /// The plan by which the old leaves go to these of so many new ones. It is refused for want of memory, or where two go to one.
    fn of(alloc: Global, targets: &[Option<u32>], count: u32) -> Result<Plan, PlanFault>
        requires few { length targets.now ≤ 65536 }
        requires few_new { count ≤ 65536 }
        requires below { All (λ target. IfSome target (λ number. number < count)) targets.now }
        ensures ok { IfOk result (λ plan. plan
            ≡ record { targets = targets.now; sources = sources_of targets.now count }) }
        ensures apart { OnOk result (shares_target targets.now ≡ false) }
        ensures shared { result ≡ Err PlanFault.NotPaired → shares_target targets.now ≡ true }
    {
        let sources = sources_of(alloc, targets, count)?;
        Ok(Plan {
            targets: Runs::of(alloc, targets)?,
            sources: Runs::of(alloc, &sources)?,
        })
    }

    /// The number of the new leaf that takes the place of this old one.
    pub fn target(&self, leaf: u32) -> Option<u32>
        requires { leaf < length self.now.targets }
        ensures { result ≡ number_at self.now.targets leaf }
    {
        self.targets.at(leaf)
    }

    /// The number of the old leaf whose place this new one takes.
    pub fn source(&self, leaf: u32) -> Option<u32>
        requires { leaf < length self.now.sources }
        ensures { result ≡ number_at self.now.sources leaf }
    {
        self.sources.at(leaf)
    }

    /// Of each old leaf the number of the new one that takes its place.
    pub fn targets(&self) -> &Runs
        ensures { result.now ≡ self.now.targets }
    {
        &self.targets
    }

    /// Of each new leaf the number of the old one whose place it takes.
    pub fn sources(&self) -> &Runs
        ensures { result.now ≡ self.now.sources }
    {
        &self.sources
    }

    /// The first kept range of old leaves from one on, or an empty one behind the last leaf.
    pub fn next_target(&self, leaf: u32) -> Run
        requires { leaf ≤ length self.now.targets }
        ensures { IsNextRun self.now.targets leaf result }
    {
        self.targets.next(leaf)
    }

    /// The first kept range of new leaves from one on, or an empty one behind the last leaf.
    pub fn next_source(&self, leaf: u32) -> Run
        requires { leaf ≤ length self.now.sources }
        ensures { IsNextRun self.now.sources leaf result }
    {
        self.sources.next(leaf)
    }

    /// How many leaves are kept.
    pub fn kept(&self) -> u32
        ensures { result ≡ kept_count self.now }
    {
        self.targets.kept()
    }

    /// How many old leaves are dropped.
    pub fn dropped(&self) -> u32
        ensures { result ≡ dropped_count self.now }
    {
        self.targets.len() - self.targets.kept()
    }

    /// How many new leaves take no other's place.
    pub fn fresh(&self) -> u32
        ensures { result ≡ fresh_count self.now }
    {
        self.sources.len() - self.sources.kept()
    }

    /// How many ranges of leaves that follow one another are kept.
    pub fn ranges(&self) -> u32
        ensures { result ≡ range_count self.now }
    {
        self.targets.runs()
    }
}

/// Of each old leaf the number of the new one that takes its place. It is refused for want of memory, or where the renames name parts
/// wrongly.
fn renamed_targets(
    alloc: Global,
    old: &Layout,
    new: &Layout,
    renames: &[Rename],
) -> Result<Vec<Option<u32>>, PlanFault>
    ensures ok { IfOk result
        (λ targets. targets.items ≡ targets_of old.now new.now renames.now) }
    ensures accepted { OnOk result (names_wrongly old.now new.now renames.now ≡ false) }
    ensures refused { result ≡ Err PlanFault.NotPaired
        → names_wrongly old.now new.now renames.now ≡ true }
    ensures count { IfOk result (λ targets. length targets.items ≡ length old.now) }
    ensures few { IfOk result (λ targets. length targets.items ≤ 65536) }
    ensures below { IfOk result
        (λ targets. All (λ target. IfSome target (λ number. number < length new.now))
        targets.items) }
{
    let renames = RenameTable::of(alloc, old, new, renames)?;
    Ok(targets_of(alloc, old, new, &renames)?)
}
