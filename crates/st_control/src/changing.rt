//! Online changes: their renames in upper case, their counts, the charts that they would stop, and what they make of a state.
ghost use Rattle.std.specs.Prelude.{◌≡◌, ◌<◌, ◌&&◌, ◌||◌, ℕ, [], IfOk, OnErr, OnOk, false, length, not, replicate, true};
ghost use Rattle.st_check.specs.Programs.{leaves_of_program};
ghost use Rattle.st_control.specs.Changes.{AreMarks, active_chart, changed, counts_of_pairs, gives_pairs, is_chart, is_kept, loses_active_step, mark_at, pairs_of, raised_renames};
ghost use Rattle.st_control.specs.Controllers.{is_of_change};
ghost use Rattle.st_control.specs.Machine.{Heeds, change_causes};
ghost use Rattle.st_control.specs.States.{FitsRecord, leaves_of, undone};
ghost use Rattle.st_layout.specs.Layout.{leaf_at};
ghost use Rattle.st_memory.specs.Moves.{saved};
ghost use Rattle.st_layout.specs.Pairs.{IsPairing, is_number};
ghost use Rattle.st_values.specs.Words.{raised};

use crate::record::Record;
use crate::refusal::{NO_ACTIVE_STEP, Refusal, UNDO_FULL};
use crate::scanning::room_for;
use crate::state::State;
use st_compile::Image;
use st_layout::{Layout, Plan, Rename};
use st_listing::changes_without_renames_pair;
use st_memory::{Memory, carry_over};
use st_tree::{List, Role};
use std::alloc::{AllocError, Global};
use std::mem;

/// What an online change kept, dropped and added.
#[derive(Clone, Copy, Debug, PartialEq, Eq)]
pub struct Counts {
    /// How many leaves of the new program took the place of old ones.
    pub kept: u32,
    /// How many leaves of the old program were dropped.
    pub dropped: u32,
    /// How many leaves of the new program took no other's place.
    pub fresh: u32,
}

impl Counts {
    /// The counts of a plan.
    pub(crate) fn of(plan: &Plan) -> Counts
        ensures { result ≡ counts_of_pairs plan.now }
    {
        Counts {
            kept: plan.kept(),
            dropped: plan.dropped(),
            fresh: plan.fresh(),
        }
    }
}

impl<M: Memory> State<M> {
    /// Tells that without renames the leaves of the state and those of a program give pairs.
    pub(crate) fn tell_pairs(&self, image: &Image)
        ensures { gives_pairs self.entry.now [] image.now ≡ true }
    {
        changes_without_renames_pair();
        self.image.tell_worded();
        image.tell_worded();
    }

    /// The plan of an online change to a program, or why it is refused.
    pub(crate) fn plan_of_change(
        &self,
        alloc: Global,
        full: bool,
        image: &Image,
        renames: &[Rename],
    ) -> Result<Plan, Refusal>
        ensures plan { IfOk result (λ plan. plan ≡ pairs_of self.entry.now renames.now image.now) }
        ensures pairable { OnOk result (gives_pairs self.entry.now renames.now image.now ≡ true) }
        ensures pairing { IfOk result
            (λ plan. IsPairing (leaves_of self.entry.now) (leaves_of_program image.now) plan) }
        ensures not_full { OnOk result (full ≡ false) }
        ensures causes { Heeds (change_causes self.entry.now full renames.now image.now) result }
    {
        if full {
            return Err(Refusal::O(UNDO_FULL));
        }
        let plan = Plan::between(alloc, self.image.layout(), image.layout(), renames)?;
        if loses_active_step(alloc, &self.memory, self.image.layout(), &plan)? {
            return Err(Refusal::O(NO_ACTIVE_STEP));
        }
        Ok(plan)
    }

    /// Goes over to another program by a plan, and answers what undoes it. It is refused for want of memory alone, and then
    /// all is as before.
    pub(crate) fn change(
        &mut self,
        alloc: Global,
        plan: &Plan,
        image: Image,
        renames: List<Rename>,
    ) -> Result<Record, AllocError>
        requires plan { plan.now ≡ pairs_of self.old renames image }
        requires pairable { gives_pairs self.old renames image ≡ true }
        requires pairing { IsPairing (leaves_of self.old) (leaves_of_program image) plan.now }
        ensures record { IfOk result
            (λ newest. newest ≡ Record.Change self.old.program
            (saved (pairs_of self.old renames image) self.old.content) renames) }
        ensures new { OnOk result (self.new ≡ changed self.old renames image) }
        ensures back { IfOk result (λ newest. undone self.new newest ≡ self.old) }
        ensures fitting { IfOk result (λ newest. FitsRecord self.new newest) }
        ensures kind { IfOk result (λ newest. is_of_change newest ≡ true) }
        ensures err { OnErr result (self.new ≡ self.old) }
    {
        let (second, stacks) = room_for(alloc, &image)?;
        let saved = carry_over(
            alloc,
            &mut self.memory,
            plan,
            self.image.layout(),
            image.layout(),
        )?;
        let old = mem::replace(&mut self.image, image);
        self.second = second;
        self.stacks = stacks;
        Ok(Record::Change {
            old,
            saved,
            renames,
        })
    }
}

/// The renames, with their paths in upper case.
pub(crate) fn raised(renames: Vec<Rename>) -> List<Rename>
    ensures { result ≡ raised_renames renames.items }
{
    let mut items = renames;
    raise_renames(items.as_mut_slice());
    List { items }
}

/// Puts the paths of renames in upper case.
fn raise_renames(renames: &mut [Rename])
    ensures { renames.new ≡ raised_renames renames.old }
{
    for rename in renames.iter_mut() {
        raise(&mut rename.old);
        raise(&mut rename.new);
    }
}

/// Puts a text in upper case.
fn raise(text: &mut List<u8>)
    ensures { text.new ≡ raised text.old }
{
    text.items.as_mut_slice().make_ascii_uppercase();
}

/// Tests whether a chart is kept that would keep no active step.
pub(crate) fn loses_active_step<M: Memory>(
    alloc: Global,
    memory: &M,
    old: &Layout,
    plan: &Plan,
) -> Result<bool, AllocError>
    requires over { M.IsOver old.now memory.now }
    requires targets { length plan.now.targets ≡ length old.now }
    ensures { IfOk result (λ loses. loses
        ≡ loses_active_step old.now plan.now.targets (M.content old.now memory.now).values) }
{
    let keeps = charts_with_steps(alloc, memory, old, plan)?;
    for leaf in 0..old.len() {
        if stops(old, plan, &keeps, leaf) {
            return Ok(true);
        }
    }
    Ok(false)
}

/// Tests whether this old leaf is the `$CHART` of a chart that is kept and isn't marked.
fn stops(old: &Layout, plan: &Plan, keeps: &[bool], leaf: u32) -> bool
    requires below { leaf < length old.now }
    requires targets { length plan.now.targets ≡ length old.now }
    requires marks { length keeps.now ≡ length old.now }
    ensures { result ≡ (is_kept plan.now.targets leaf
        && (is_chart (leaf_at old.now leaf).role && not (mark_at keeps.now leaf))) }
{
    plan.target(leaf).is_some() && is_chart(old.at(leaf).role) && !keeps[leaf as usize]
}

/// A mark for each old leaf: whether it is the `$CHART` of a chart that keeps an active step.
fn charts_with_steps<M: Memory>(
    alloc: Global,
    memory: &M,
    old: &Layout,
    plan: &Plan,
) -> Result<Vec<bool>, AllocError>
    requires over { M.IsOver old.now memory.now }
    requires targets { length plan.now.targets ≡ length old.now }
    ensures { IfOk result (λ keeps.
        AreMarks old.now plan.now.targets (M.content old.now memory.now).values
        (length old.now) keeps.items) }
{
    let mut keeps = no_marks(alloc, old.len())?;
    for leaf in 0..old.len() {
        let chart = active_chart(memory, old, plan, leaf);
        set_mark(&mut keeps, chart);
    }
    Ok(keeps)
}

/// So many marks, none of them set.
fn no_marks(alloc: Global, count: u32) -> Result<Vec<bool>, AllocError>
    ensures { IfOk result (λ marks. marks.items ≡ replicate count false) }
{
    let mut marks = Vec::new(alloc);
    for _mark in 0..count {
        marks.push(false)?;
    }
    Ok(marks)
}

/// Sets the mark of this number, if there is one.
fn set_mark(marks: &mut Vec<bool>, number: Option<u32>)
    ensures long { length marks.new.items ≡ length marks.old.items }
    ensures marks { (k : ℕ) → k < length marks.old.items
        → mark_at marks.new.items k ≡ (mark_at marks.old.items k || is_number k number) }
{
    if let Some(number) = number {
        let place = number as usize;
        if place < marks.len() {
            marks[place] = true;
        }
    }
}

/// The number of the `$CHART` of the chart of this step, where the step is kept and active.
fn active_chart<M: Memory>(memory: &M, old: &Layout, plan: &Plan, leaf: u32) -> Option<u32>
    requires over { M.IsOver old.now memory.now }
    requires below { leaf < length old.now }
    requires targets { length plan.now.targets ≡ length old.now }
    ensures { result ≡ active_chart old.now plan.now.targets
        (M.content old.now memory.now).values leaf }
{
    if plan.target(leaf).is_none() {
        return None;
    }
    match old.at(leaf).role {
        Role::StepActive { begun } if memory.get(old, leaf).bits == 1 => Some(begun),
        _ => None,
    }
}

/// Tests whether a leaf of this role tells whether a chart has begun.
fn is_chart(role: Role) -> bool
    ensures { result ≡ is_chart role }
{
    matches!(role, Role::ChartBegun)
}
