//! Scans and resets.
ghost use Rattle.std.specs.Prelude.{◌≡◌, Err, IfOk, MatchResult, Ok, false};
ghost use Rattle.std.specs.List.{list_any};
ghost use Rattle.st_check.specs.Programs.{leaves_of_program};
ghost use Rattle.st_control.specs.Scans.{can_follow, has_no_input, has_no_leaf, has_other_type, is_halted, is_process_input, may_scan, reset_state, reset_values, run_of, run_with, state_after, with_inputs};
ghost use Rattle.st_compile.specs.Programs.{HasRoom};

use crate::refusal::{HALTED, MOMENT_PAST, NO_SUCH_PATH, NOT_AN_INPUT, NOT_OF_TYPE, Refusal};
use crate::state::{State, Status, is_value_of};
use st_compile::{Image, Stacks, run};
use st_layout::Layout;
use st_meaning::RunFault;
use st_memory::Memory;
use st_tree::Role;
use st_values::Value;
use std::alloc::{AllocError, Global};
use std::mem;

/// The greatest moment of a scan, in milliseconds.
pub const MAX_MOMENT: i64 = 1_000_000_000_000_000;

/// How a scan ended.
#[derive(Clone, Copy)]
pub enum Scanned {
    /// The program ran to its end.
    Done,
    /// It stopped with a fault.
    Faulted(RunFault),
}

impl<M: Memory> State<M> {
    /// Whether a scan may begin, or why it is refused.
    pub(crate) fn may_scan(&self, now: i64, inputs: &[(u32, Value)]) -> Result<(), Refusal>
        ensures { result ≡ may_scan now inputs.now self.entry.now }
    {
        let layout = self.image.layout();
        if names_no_leaf(layout, inputs) {
            return Err(Refusal::O(NO_SUCH_PATH));
        }
        if names_other_type(layout, inputs) {
            return Err(Refusal::O(NOT_OF_TYPE));
        }
        if !can_follow(self.now, now) {
            return Err(Refusal::O(MOMENT_PAST));
        }
        if is_halted(self.status) {
            return Err(Refusal::O(HALTED));
        }
        if names_no_input(layout, inputs) {
            Err(Refusal::O(NOT_AN_INPUT))
        } else {
            Ok(())
        }
    }

    /// Stores the inputs and runs the program once, in the second memory. A fault leaves all values as they were, and is told by the
    /// status.
    #[tactic(auto, using(crate::proofs::ScanEnds::runs_before))]
    pub(crate) fn scan(&mut self, now: i64, inputs: &[(u32, Value)], limit: u32)
        requires { may_scan now inputs.now self.old ≡ Ok tt }
        ensures { self.new ≡ state_after now self.old (run_of now inputs.now limit self.old) }
    {
        match run_aside(
            &self.image,
            &self.memory,
            &mut self.second,
            &mut self.stacks,
            now,
            inputs,
            limit,
        ) {
            Ok(()) => {
                mem::swap(&mut self.memory, &mut self.second);
                self.now = now;
            }
            Err(fault) => self.status = Status::Halted(fault),
        }
    }

    /// Gives each leaf that isn't forced its initial value, and lets the program run again.
    pub(crate) fn reset(&mut self)
        ensures { self.new ≡ reset_state self.old }
    {
        reset_values(&mut self.memory, self.image.layout());
        self.status = Status::Running;
    }
}

/// What a scan of a program needs: a second memory, and stacks. It is refused for want of memory alone.
pub(crate) fn room_for<M: Memory>(alloc: Global, image: &Image) -> Result<(M, Stacks), AllocError>
    ensures second { IfOk result (λ room. M.IsOver (leaves_of_program image.now) room.0) }
    ensures stacks { IfOk result (λ room. HasRoom image.now room.1) }
{
    let second = M::fresh(alloc, image.layout())?;
    let stacks = image.stacks(alloc)?;
    Ok((second, stacks))
}

/// Copies a memory to the second one, stores the inputs there, and runs the program once over it at a moment.
fn run_aside<M: Memory>(
    image: &Image,
    memory: &M,
    second: &mut M,
    stacks: &mut Stacks,
    now: i64,
    inputs: &[(u32, Value)],
    limit: u32,
) -> Result<(), RunFault>
    requires over { M.IsOver (leaves_of_program image.now) memory.now }
    requires second { M.IsOver (leaves_of_program image.now) second.old }
    requires room { HasRoom image.now stacks.old }
    requires leaves { list_any (has_no_leaf (leaves_of_program image.now)) inputs.now ≡ false }
    requires types { list_any (has_other_type (leaves_of_program image.now)) inputs.now ≡ false }
    ensures second { M.IsOver (leaves_of_program image.now) second.new }
    ensures room { HasRoom image.now stacks.new }
    ensures forced { (M.content (leaves_of_program image.now) second.new).forced
        ≡ (M.content (leaves_of_program image.now) memory.now).forced }
    ensures result { MatchResult result
        (λ done. run_with now inputs.now limit image.now
        (M.content (leaves_of_program image.now) memory.now)
        ≡ Ok (M.content (leaves_of_program image.now) second.new).values)
        (λ fault. run_with now inputs.now limit image.now
        (M.content (leaves_of_program image.now) memory.now) ≡ Err fault) }
{
    second.take_from(image.layout(), memory);
    store_inputs(second, image.layout(), inputs);
    run(image, second, stacks, now, limit)
}

/// Tests whether an input is for a leaf that isn't there.
fn names_no_leaf(layout: &Layout, inputs: &[(u32, Value)]) -> bool
    ensures { result ≡ list_any (has_no_leaf layout.now) inputs.now }
{
    inputs.iter().any(|input| input.0 >= layout.len())
}

/// Tests whether an input has a value that isn't one of its leaf's type.
fn names_other_type(layout: &Layout, inputs: &[(u32, Value)]) -> bool
    requires { list_any (has_no_leaf layout.now) inputs.now ≡ false }
    ensures { result ≡ list_any (has_other_type layout.now) inputs.now }
{
    for input in inputs {
        if !is_value_of(layout.at(input.0), input.1) {
            return true;
        }
    }
    false
}

/// Tests whether an input is for a leaf that isn't a process input.
fn names_no_input(layout: &Layout, inputs: &[(u32, Value)]) -> bool
    requires { list_any (has_no_leaf layout.now) inputs.now ≡ false }
    ensures { result ≡ list_any (has_no_input layout.now) inputs.now }
{
    for input in inputs {
        if !is_process_input(layout.at(input.0).role) {
            return true;
        }
    }
    false
}

/// Tests whether a leaf of this role is a process input.
fn is_process_input(role: Role) -> bool
    ensures { result ≡ is_process_input role }
{
    matches!(role, Role::ProcessInput)
}

/// Tests whether the program was halted.
fn is_halted(status: Status) -> bool
    ensures { result ≡ is_halted status }
{
    matches!(status, Status::Halted(_))
}

/// Tests whether a scan may have this moment after that one.
fn can_follow(last: i64, now: i64) -> bool
    ensures { result ≡ can_follow last now }
{
    last <= now && now <= MAX_MOMENT
}

/// Stores the inputs, one after another. Those of forced leaves are dropped.
fn store_inputs<M: Memory>(memory: &mut M, layout: &Layout, inputs: &[(u32, Value)])
    requires over { M.IsOver layout.now memory.old }
    requires leaves { list_any (has_no_leaf layout.now) inputs.now ≡ false }
    requires types { list_any (has_other_type layout.now) inputs.now ≡ false }
    ensures over { M.IsOver layout.now memory.new }
    ensures values { (M.content layout.now memory.new).values
        ≡ with_inputs (M.content layout.now memory.old).forced
        (M.content layout.now memory.old).values inputs.now }
    ensures forced { (M.content layout.now memory.new).forced
        ≡ (M.content layout.now memory.old).forced }
{
    for input in inputs {
        if !memory.forced(layout, input.0) {
            memory.set(layout, input.0, input.1);
        }
    }
}

/// Gives each leaf that isn't forced its initial value.
fn reset_values<M: Memory>(memory: &mut M, layout: &Layout)
    requires over { M.IsOver layout.now memory.old }
    ensures over { M.IsOver layout.now memory.new }
    ensures values { (M.content layout.now memory.new).values
        ≡ reset_values layout.now (M.content layout.now memory.old).forced
        (M.content layout.now memory.old).values }
    ensures forced { (M.content layout.now memory.new).forced
        ≡ (M.content layout.now memory.old).forced }
{
    for leaf in 0..layout.len() {
        if !memory.forced(layout, leaf) {
            memory.set(layout, leaf, layout.at(leaf).initial);
        }
    }
}
