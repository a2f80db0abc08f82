//! The controller.
ghost use Rattle.std.specs.Prelude.{◌≡◌, ◌≢◌, ◌+◌, ◌<◌, ◌≤◌, ◌^◌, ◌++◌, ◌∷◌, [], Err, IfErr, IfOk, IfSome, List, MatchResult, Ok, OnOk, length, vec_capacity, vec_len};
ghost use Rattle.st_control.specs.Causes.{not_paired};
ghost use Rattle.st_control.specs.Changes.{counts_of};
ghost use Rattle.st_control.specs.Controllers.{DropsNewest, GoesOver, Keeps, Takes, TakesChange, TakesUndo, change_record, first_controller, force_count, machine_of, record_of, shown_to, value_and_force};
ghost use Rattle.st_control.specs.Loads.{IsLoaded};
ghost use Rattle.st_control.specs.Machine.{step};
ghost use Rattle.st_control.specs.Machine.Command.{change, force, release, write};
ghost use Rattle.st_control.specs.Scans.{TakesScan, reset_step, scan_step, scanned_as};
ghost use Rattle.st_control.specs.States.{IsWhole, leaf_of, leaves_of};
ghost use Rattle.st_control.specs.Texts.{IsCheckedAs};
ghost use Rattle.st_layout.specs.Layout.{leaf_at};
ghost use Rattle.st_check.specs.Programs.{text_of};
ghost use Rattle.st_tree.specs.declared.tree.unit.Unit.{Unit as ProgramUnit};
ghost use Rattle.st_values.specs.Values.{IsValue};

mod apart;
mod before;

use crate::changing::{Counts, raised};
use crate::image::load_image;
use crate::record::Record;
use crate::refusal::{NO_SUCH_PATH, NOTHING_TO_UNDO, Refusal};
use crate::scanning::{Scanned, room_for};
use crate::state::{State, Status};
use crate::undoing::revert;
use st_compile::Image;
use st_layout::Rename;
use st_memory::Memory;
use st_tree::{List, Name};
use st_values::{Elem, Value};
use std::alloc::{AllocError, Global};
use std::marker::Model;

/// How many commands can be undone.
pub const MAX_RECORDS: usize = 256;

/// What an operator is told of a controller as a whole.
#[derive(Clone, Copy)]
pub struct Report {
    /// Whether the program runs.
    pub status: Status,
    /// The moment of the last scan, in milliseconds.
    pub now: i64,
    /// How many leaves are forced.
    pub forces: u32,
    /// How many commands can be undone.
    pub undo: u32,
}

/// A controller: a program's state, and the records of the commands that can be undone.
///
/// Room for all its 256 records is made at its load, so that no command is refused for want of memory. So is what a scan needs,
/// and by each online change and its undo.
#[derive(Drop)]
pub struct Controller<M: Memory> {
    state: State<M>,
    /// The oldest first.
    records: Vec<Record>,
    main: Name,
    limit: u32,
}

impl<M: Memory> Model for Controller<M> {
    ghost use Rattle.std.specs.Prelude.{◌≤◌, vec_capacity, vec_len};
    ghost use Rattle.std.specs.Coded.{codes};
    ghost use Rattle.st_control.specs.Controllers.{ControllerView, IsCoherent};
    ghost use Rattle.st_tree.specs.contracts.tree.expression.Expression as expression;
    ghost use Rattle.st_tree.specs.contracts.tree.statement.Statement as statement;

    ghost Value = { ControllerView };

    ghost coded = { Prim.hlevel (codes, statement.the_row.coded, expression.the_row.coded) };

    ghost view = { λ c. record {
      state = c.state;
      records = c.records.items;
      main = c.main;
      limit = c.limit;
    } };

    ghost invariant = { λ c. (256 ≤ vec_capacity c.records) × (vec_len c.records ≤ 256)
        × IsCoherent c.state c.records.items };
}

impl<M: Memory> Controller<M> {
    /// Loads the program of the name `main`, ignoring case, from a text: initial values, no force, moment 0, running, and
    /// nothing to undo. `limit` is the step limit of a scan, which is kept.
    ///
    /// Refused as `check_program` refuses it, and else for want of memory alone.
    pub fn load(alloc: Global, text: &[u8], main: &[u8], limit: u32) -> Result<Self, Refusal>
        ensures ok { IfOk result (λ controller. IsLoaded text.now main.now limit controller) }
        ensures refused { IfErr result (λ refusal. IsCheckedAs text.now main.now (Err refusal)) }
        ensures long { 2 ^ 20 < length text.now → result ≡ Err (Refusal.S 4 1) }
        ensures whole { IfOk result (λ controller. IsWhole controller.state) }

        // A text that is accepted is loaded with its units, unless memory runs out.
        ensures only { (units : List ProgramUnit) → IsCheckedAs text.now main.now (Ok units)
            → MatchResult result (λ controller. text_of controller.state.program ≡ units)
            (λ refusal. refusal ≡ Refusal.M) }
    {
        let image = load_image(alloc, text, main)?;
        let name = Name::of(main).unwrap();
        Ok(Controller::start(alloc, image, name, limit)?)
    }

    /// A controller of a program: initial values, no force, moment 0, running, and nothing to undo.
    ///
    /// Room for all its records is made here. It is refused for want of memory alone.
    fn start(alloc: Global, image: Image, main: Name, limit: u32) -> Result<Self, AllocError>
        ensures first { IfOk result (λ controller. controller ≡ first_controller image main limit) }
        ensures whole { IfOk result (λ controller. IsWhole controller.state) }
    {
        let memory = M::fresh(alloc, image.layout())?;
        let (second, stacks) = room_for(alloc, &image)?;
        let records = Vec::with_capacity(alloc, MAX_RECORDS)?;
        let state = State {
            image,
            memory,
            now: 0,
            status: Status::Running,
            second,
            stacks,
        };
        state.tell_whole();
        Ok(Controller {
            state,
            records,
            main,
            limit,
        })
    }

    /// The number of the leaf with this path, ignoring case.
    pub fn find(&self, path: &[u8]) -> Option<u32>
        ensures value { result ≡ leaf_of self.now.state path.now }
        ensures below { IfSome result (λ leaf. leaf < length (leaves_of self.now.state)) }
    {
        self.state.image.layout().leaf(path)
    }

    /// The path of a leaf, spelled as the program declares it.
    pub fn shown(&self, leaf: u32) -> &[u8]
        requires { leaf < length (leaves_of self.now.state) }
        ensures value { result.now ≡ (leaf_at (leaves_of self.now.state) leaf).shown }
        ensures short { length result.now ≤ 255 }
    {
        self.state.image.layout().at(leaf).shown.items.as_slice()
    }

    /// The type of a leaf.
    pub fn elem(&self, leaf: u32) -> Elem
        requires { leaf < length (leaves_of self.now.state) }
        ensures { result ≡ (leaf_at (leaves_of self.now.state) leaf).elem }
    {
        self.state.image.layout().at(leaf).elem
    }

    /// The value of the leaf with this path, and whether it is forced. Refused as O1 where there is no such path.
    pub fn get(&self, path: &[u8]) -> Result<(Value, bool), Refusal>
        ensures value { result ≡ shown_to self.now.state (leaf_of self.now.state path.now) }
        ensures in_range { IfOk result (λ shown. IsValue shown.0) }
    {
        match self.find(path) {
            Some(leaf) => Ok(self.held(leaf)),
            None => Err(Refusal::O(NO_SUCH_PATH)),
        }
    }

    /// The value of a leaf, and whether it is forced.
    pub fn held(&self, leaf: u32) -> (Value, bool)
        requires { leaf < length (leaves_of self.now.state) }
        ensures value { result ≡ value_and_force self.now.state leaf }
        ensures in_range { IsValue result.0 }
    {
        let layout = self.state.image.layout();
        let value = self.state.memory.get(layout, leaf);
        (value, self.state.memory.forced(layout, leaf))
    }

    /// Sets the value of the leaf with this path.
    ///
    /// Refused as O1 where there is no such path, O2 where the leaf isn't open, O3 where the value isn't one of its type,
    /// O4 where it is forced, O6 where the undo list is full.
    pub fn write(&mut self, path: &[u8], value: Value) -> Result<(), Refusal>
        ensures step { Takes (step (write path.now value) (machine_of self.old))
            self.old result self.new }
        ensures record { OnOk result
            (Keeps self.old self.new (record_of (write path.now value) self.old.state)) }
    {
        let full = self.records.len() >= MAX_RECORDS;
        match self.state.leaf_to_write(full, path, value) {
            Err(refusal) => Err(refusal),
            Ok(leaf) => {
                let newest = self.state.write(leaf, value);
                keep(&mut self.records, newest);
                Ok(())
            }
        }
    }

    /// Sets the value of the leaf with this path and forces it. A leaf that is forced may be forced again.
    ///
    /// Refused as O1 where there is no such path, O2 where the leaf isn't open, O3 where the value isn't one of its type,
    /// O6 where the undo list is full.
    pub fn force(&mut self, path: &[u8], value: Value) -> Result<(), Refusal>
        ensures step { Takes (step (force path.now value) (machine_of self.old))
            self.old result self.new }
        ensures record { OnOk result
            (Keeps self.old self.new (record_of (force path.now value) self.old.state)) }
    {
        let full = self.records.len() >= MAX_RECORDS;
        match self.state.leaf_to_force(full, path, value) {
            Err(refusal) => Err(refusal),
            Ok(leaf) => {
                let newest = self.state.force(leaf, value);
                keep(&mut self.records, newest);
                Ok(())
            }
        }
    }

    /// Lets go of the leaf with this path, which keeps its value.
    ///
    /// Refused as O1 where there is no such path, O5 where the leaf isn't forced, O6 where the undo list is full.
    pub fn release(&mut self, path: &[u8]) -> Result<(), Refusal>
        ensures step { Takes (step (release path.now) (machine_of self.old))
            self.old result self.new }
        ensures record { OnOk result
            (Keeps self.old self.new (record_of (release path.now) self.old.state)) }
    {
        let full = self.records.len() >= MAX_RECORDS;
        match self.state.leaf_to_release(full, path) {
            Err(refusal) => Err(refusal),
            Ok(leaf) => {
                let newest = self.state.release(leaf);
                keep(&mut self.records, newest);
                Ok(())
            }
        }
    }

    /// Goes over to the program that another text is, as `change_named` with no renames does. It isn't refused as O13: without
    /// renames two programs always have pairs.
    pub fn change(&mut self, alloc: Global, text: &[u8]) -> Result<Counts, Refusal>
        ensures step { TakesChange text.now [] self.old result self.new }
        ensures counts { IfOk result
            (λ counts. counts ≡ counts_of self.old.state [] self.new.state.program) }
        ensures whole { OnOk result (IsWhole self.new.state) }
        ensures paired { IfErr result (λ refusal. refusal ≢ not_paired) }
        ensures record { OnOk result
            (Keeps self.old self.new
            (record_of (change [] (Ok self.new.state.program)) self.old.state)) }
    {
        self.change_named(alloc, text, Vec::new(alloc))
    }

    /// Goes over to the program of the same name that another text is, without a stop. A leaf that both programs have keeps
    /// its value and its force; `renames` says which parts of the old program have other paths in the new one. The moment and
    /// the status stay. The answer counts the leaves.
    ///
    /// Refused as `check_program` refuses the text, O6 where the undo list is full, O13 where the renames give no pairs, O8
    /// where a chart that both programs have would keep no active step, and for want of memory. What is refused keeps nothing
    /// that it made.
    pub fn change_named(
        &mut self,
        alloc: Global,
        text: &[u8],
        renames: Vec<Rename>,
    ) -> Result<Counts, Refusal>
        ensures step { TakesChange text.now renames.items self.old result self.new }
        ensures counts { IfOk result
            (λ counts. counts ≡ counts_of self.old.state renames.items self.new.state.program) }
        ensures whole { OnOk result (IsWhole self.new.state) }
        ensures paired { renames.items ≡ [] → IfErr result (λ refusal. refusal ≢ not_paired) }
        ensures record { OnOk result
            (Keeps self.old self.new
            (record_of (change renames.items (Ok self.new.state.program)) self.old.state)) }
    {
        let image = load_image(alloc, text, self.main.bytes())?;
        self.go_over(alloc, image, raised(renames))
    }

    /// Goes over to a program that was read. The renames are in upper case.
    ///
    /// Every growth comes before anything is replaced.
    fn go_over(
        &mut self,
        alloc: Global,
        image: Image,
        renames: List<Rename>,
    ) -> Result<Counts, Refusal>
        ensures step { GoesOver image renames self.old result self.new }
        ensures counts { IfOk result
            (λ counts. counts ≡ counts_of self.old.state renames self.new.state.program) }
        ensures whole { OnOk result (IsWhole self.new.state) }
        ensures paired { renames ≡ [] → IfErr result (λ refusal. refusal ≢ not_paired) }
        ensures record { OnOk result
            (Keeps self.old self.new
            (change_record self.old.state renames self.new.state.program)) }
    {
        self.state.tell_pairs(&image);
        let full = self.records.len() >= MAX_RECORDS;
        let plan = self
            .state
            .plan_of_change(alloc, full, &image, renames.as_slice())?;
        let counts = Counts::of(&plan);
        let newest = self.state.change(alloc, &plan, image, renames)?;
        keep(&mut self.records, newest);
        self.state.tell_whole();
        Ok(counts)
    }

    /// Takes back the newest command that isn't undone. It leaves no record itself.
    ///
    /// Refused as O7 where there is nothing to undo, and for want of memory where the command is an online change; then a
    /// later undo can succeed.
    pub fn undo(&mut self, alloc: Global) -> Result<(), Refusal>
        ensures step { TakesUndo self.old result self.new }
        ensures record { OnOk result (DropsNewest self.old self.new) }
    {
        let Some(newest) = self.records.pop() else {
            return Err(Refusal::O(NOTHING_TO_UNDO));
        };
        match revert(alloc, &mut self.state, newest) {
            Ok(()) => Ok(()),
            Err(newest) => {
                keep(&mut self.records, newest);
                Err(Refusal::M)
            }
        }
    }

    /// Stores the inputs, which are pairs of the number of a leaf and its value, and runs the program once at this moment. An input
    /// of a forced leaf is dropped. Where the program stops with a fault, all values and the moment are as before, the inputs too,
    /// and it is halted. In both cases nothing is left to undo. It takes no memory.
    ///
    /// Refused as O1 where an input is for a leaf that isn't there, O3 where its value isn't one of the leaf's type, O9 where the
    /// moment is before the last one or above `MAX_MOMENT`, O10 where the program is halted, O12 where an input is for a leaf that
    /// isn't a process input. The undo list is then as it was.
    pub fn scan(&mut self, now: i64, inputs: &[(u32, Value)]) -> Result<Scanned, Refusal>
        ensures step { TakesScan (scan_step now inputs.now (machine_of self.old))
            self.old result self.new }
    {
        self.run_scan(now, inputs)?;
        match self.state.status {
            Status::Running => Ok(Scanned::Done),
            Status::Halted(fault) => Ok(Scanned::Faulted(fault)),
        }
    }

    /// Scans as `scan` does it. How the scan ended is told by the status alone.
    #[tactic(auto, using(crate::proofs::ScanEnds::scan_end_after))]
    pub fn run_scan(&mut self, now: i64, inputs: &[(u32, Value)]) -> Result<(), Refusal>
        ensures step { TakesScan (scan_step now inputs.now (machine_of self.old)) self.old
            (scanned_as result self.new.state.status) self.new }
    {
        self.state.may_scan(now, inputs)?;
        self.state.scan(now, inputs, self.limit);
        if !self.records.is_empty() {
            self.records.clear();
        }
        Ok(())
    }

    /// Whether the program runs.
    pub fn run_status(&self) -> &Status
        ensures { result.now ≡ self.now.state.status }
    {
        &self.state.status
    }

    /// Gives each leaf that isn't forced its initial value, and lets the program run again. The forces and the moment stay, and
    /// nothing is left to undo.
    pub fn reset(&mut self)
        ensures step { machine_of self.new ≡ reset_step (machine_of self.old) }
        ensures records { self.new.records ≡ [] }
    {
        self.state.reset();
        self.records.clear();
    }

    /// How the controller stands as a whole.
    pub fn status(&self) -> Report
        ensures status { result.status ≡ self.now.state.status }
        ensures now { result.now ≡ self.now.state.now }
        ensures forces { result.forces ≡ force_count self.now.state }
        ensures undo { result.undo ≡ length self.now.records }
        ensures whole { IsWhole self.now.state }
    {
        Report {
            status: self.state.status,
            now: self.state.now,
            forces: self.state.force_count(),
            undo: self.records.len() as u32,
        }
    }
}

/// Puts a record after the others, for which there is room.
fn keep(records: &mut Vec<Record>, newest: Record)
    requires { vec_len records.old < vec_capacity records.old }
    ensures items { records.new.items ≡ records.old.items ++ newest ∷ [] }
    ensures len { vec_len records.new ≡ vec_len records.old + 1 }
    ensures capacity { vec_capacity records.old ≤ vec_capacity records.new }
{
    let _ = records.push(newest);
}
