//! The state of a controller.
ghost use Rattle.std.specs.Prelude.{◌≡◌, ◌<◌, IfOk, IsTrue, OnOk, count_by, false, true, length};
ghost use Rattle.st_control.specs.Machine.{is_value_of};
ghost use Rattle.st_leaves.specs.Sound.{IsValueOf};
ghost use Rattle.st_layout.specs.Layout.{IsOpenAt, IsValueAt, is_open};
ghost use Rattle.st_memory.specs.Memory.{forced_at, value_at};

mod apart;

use crate::record::Record;
use crate::refusal::{
    IS_FORCED, NO_SUCH_PATH, NOT_FORCED, NOT_OF_TYPE, NOT_OPEN, Refusal, UNDO_FULL,
};
use st_compile::{Image, Stacks};
use st_meaning::RunFault;
use st_memory::Memory;
use st_tree::{Leaf, Role};
use st_values::{Value, is_value};
use std::marker::Model;

/// Whether the program runs.
#[derive(Clone, Copy)]
pub enum Status {
    /// It runs from scan to scan.
    Running,
    /// The last scan stopped with a fault.
    Halted(RunFault),
}

/// The state of a controller: its program, the values of the leaves, which of them are forced, the moment and the status.
#[derive(Drop)]
pub struct State<M: Memory> {
    /// The program that runs, and the layout of its leaves.
    pub image: Image,
    /// The values of the leaves, and which of them are forced.
    pub memory: M,
    /// The moment of the last scan, in milliseconds.
    pub now: i64,
    /// Whether the program runs.
    pub status: Status,
    /// Where a scan runs, so that a fault leaves the values as they were. What it holds between scans is nothing to anybody.
    pub(crate) second: M,
    /// The operands of a scan.
    pub(crate) stacks: Stacks,
}

impl<M: Memory> Model for State<M> {
    ghost use Rattle.std.specs.Coded.{codes};
    ghost use Rattle.st_check.specs.Programs.{leaves_of_program};
    ghost use Rattle.st_control.specs.States.{IsMoment, StateView};
    ghost use Rattle.st_compile.specs.Programs.{HasRoom};
    ghost use Rattle.st_memory.specs.Memory.{ForcesAreOpen};
    ghost use Rattle.st_tree.specs.contracts.tree.expression.Expression as expression;
    ghost use Rattle.st_tree.specs.contracts.tree.statement.Statement as statement;

    ghost Value = { StateView };

    ghost coded = { Prim.hlevel (codes, statement.the_row.coded, expression.the_row.coded) };

    ghost view = { λ s. record {
      program = s.image;
      content = M.content (leaves_of_program s.image) s.memory;
      now = s.now;
      status = s.status;
    } };

    ghost invariant = { λ s. M.IsOver (leaves_of_program s.image) s.memory
        × ForcesAreOpen (leaves_of_program s.image)
        (M.content (leaves_of_program s.image) s.memory).forced × IsMoment s.now
        × M.IsOver (leaves_of_program s.image) s.second × HasRoom s.image s.stacks };
}

impl<M: Memory> State<M> {
    ghost use Rattle.st_control.specs.States.{FitsRecord, IsWhole, forced, leaf_of, leaves_of, released, undone, written};
    ghost use Rattle.st_control.specs.Controllers.{is_of_change};
    ghost use Rattle.st_control.specs.Machine.{leaf_to_force, leaf_to_release, leaf_to_write};

    /// The leaf that a write would set, or its refusal: that of a force for which there is room, where the leaf isn't forced.
    #[tactic(auto, using(crate::proofs::Writes::write_as_force))]
    pub(crate) fn leaf_to_write(
        &self,
        full: bool,
        path: &[u8],
        value: Value,
    ) -> Result<u32, Refusal>
        ensures value { result ≡ leaf_to_write self.entry.now full path.now value }
        ensures below { IfOk result (λ leaf. leaf < length (leaves_of self.entry.now)) }
        ensures opens { IfOk result (λ leaf. IsOpenAt (leaves_of self.entry.now) leaf) }
        ensures fits { IfOk result (λ leaf. IsValueAt (leaves_of self.entry.now) leaf value) }
        ensures not_full { OnOk result (full ≡ false) }
    {
        let leaf = self.leaf_to_force(false, path, value)?;
        if self.memory.forced(self.image.layout(), leaf) {
            return Err(Refusal::O(IS_FORCED));
        }
        if full {
            Err(Refusal::O(UNDO_FULL))
        } else {
            Ok(leaf)
        }
    }

    /// The leaf that a force would set, or its refusal.
    pub(crate) fn leaf_to_force(
        &self,
        full: bool,
        path: &[u8],
        value: Value,
    ) -> Result<u32, Refusal>
        ensures value { result ≡ leaf_to_force self.entry.now full path.now value }
        ensures below { IfOk result (λ leaf. leaf < length (leaves_of self.entry.now)) }
        ensures opens { IfOk result (λ leaf. IsOpenAt (leaves_of self.entry.now) leaf) }
        ensures fits { IfOk result (λ leaf. IsValueAt (leaves_of self.entry.now) leaf value) }
        ensures not_full { OnOk result (full ≡ false) }
    {
        let Some(leaf) = self.image.layout().leaf(path) else {
            return Err(Refusal::O(NO_SUCH_PATH));
        };
        let declared = self.image.layout().at(leaf);
        if !is_open(declared.role) {
            return Err(Refusal::O(NOT_OPEN));
        }
        if !is_value_of(declared, value) {
            return Err(Refusal::O(NOT_OF_TYPE));
        }
        if full {
            Err(Refusal::O(UNDO_FULL))
        } else {
            Ok(leaf)
        }
    }

    /// The leaf that a release would let go, or its refusal.
    pub(crate) fn leaf_to_release(&self, full: bool, path: &[u8]) -> Result<u32, Refusal>
        ensures value { result ≡ leaf_to_release self.entry.now full path.now }
        ensures below { IfOk result (λ leaf. leaf < length (leaves_of self.entry.now)) }
        ensures forced { IfOk result (λ leaf. forced_at self.entry.now.content.forced leaf ≡ true) }
        ensures not_full { OnOk result (full ≡ false) }
    {
        let Some(leaf) = self.image.layout().leaf(path) else {
            return Err(Refusal::O(NO_SUCH_PATH));
        };
        if !self.memory.forced(self.image.layout(), leaf) {
            return Err(Refusal::O(NOT_FORCED));
        }
        if full {
            Err(Refusal::O(UNDO_FULL))
        } else {
            Ok(leaf)
        }
    }

    /// Sets the value of a leaf, and answers what undoes it.
    #[tactic(auto, using(crate::proofs::Undone::undone_written))]
    pub(crate) fn write(&mut self, leaf: u32, value: Value) -> Record
        requires below { leaf < length (leaves_of self.old) }
        requires opens { IsOpenAt (leaves_of self.old) leaf }
        requires fits { IsValueAt (leaves_of self.old) leaf value }
        ensures record { result ≡ Record.Write leaf (value_at self.old.content.values leaf) }
        ensures new { self.new ≡ written self.old leaf value }
        ensures back { undone self.new result ≡ self.old }
        ensures fitting { FitsRecord self.new result }
        ensures kind { is_of_change result ≡ false }
    {
        let old = self.memory.get(self.image.layout(), leaf);
        self.memory.set(self.image.layout(), leaf, value);
        Record::Write { leaf, old }
    }

    /// Sets the value of a leaf and forces it, and answers what undoes it.
    #[tactic(auto, using(crate::proofs::Undone::undone_forced))]
    pub(crate) fn force(&mut self, leaf: u32, value: Value) -> Record
        requires below { leaf < length (leaves_of self.old) }
        requires opens { IsOpenAt (leaves_of self.old) leaf }
        requires fits { IsValueAt (leaves_of self.old) leaf value }
        ensures record { result ≡ Record.Force leaf (value_at self.old.content.values leaf)
            (forced_at self.old.content.forced leaf) }
        ensures new { self.new ≡ forced self.old leaf value }
        ensures back { undone self.new result ≡ self.old }
        ensures fitting { FitsRecord self.new result }
        ensures kind { is_of_change result ≡ false }
    {
        let old = self.memory.get(self.image.layout(), leaf);
        let was = self.memory.forced(self.image.layout(), leaf);
        self.memory.set(self.image.layout(), leaf, value);
        self.memory.mark(self.image.layout(), leaf, true);
        Record::Force { leaf, old, was }
    }

    /// Lets go of a leaf that is forced, and answers what undoes it.
    #[tactic(auto, using(crate::proofs::Undone::undone_released))]
    pub(crate) fn release(&mut self, leaf: u32) -> Record
        requires below { leaf < length (leaves_of self.old) }
        requires forced { forced_at self.old.content.forced leaf ≡ true }
        ensures record { result ≡ Record.Release leaf }
        ensures new { self.new ≡ released self.old leaf }
        ensures back { undone self.new result ≡ self.old }
        ensures fitting { FitsRecord self.new result }
        ensures kind { is_of_change result ≡ false }
    {
        self.memory.mark(self.image.layout(), leaf, false);
        Record::Release { leaf }
    }

    /// Tells that the state is whole, as each is.
    pub(crate) fn tell_whole(&self)
        ensures { IsWhole self.entry.now }
    {
        let _checked = self.image.program().main();
        let _sound = self.image.layout().len();
    }

    /// How many leaves are forced.
    pub(crate) fn force_count(&self) -> u32
        ensures count { result ≡ count_by (λ forced. forced) self.entry.now.content.forced }
        ensures whole { IsWhole self.entry.now }
    {
        let _checked = self.image.program().main();
        let mut count = 0;
        for leaf in 0..self.image.layout().len() {
            if self.memory.forced(self.image.layout(), leaf) {
                count += 1;
            }
        }
        count
    }
}

/// Tests whether an operator may write and force a leaf of this role.
fn is_open(role: Role) -> bool
    ensures { result ≡ is_open role }
{
    matches!(role, Role::Plain | Role::ProcessInput)
}

/// Tests whether a leaf takes the value.
pub(crate) fn is_value_of(leaf: &Leaf, value: Value) -> bool
    ensures value { result ≡ is_value_of leaf.now value }
    ensures fits { IsTrue result → IsValueOf leaf.now value }
{
    value.elem.is(leaf.elem) && is_value(value)
}
