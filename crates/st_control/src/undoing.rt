//! Undoing one record.
ghost use Rattle.std.specs.Prelude.{◌≡◌, IfErr, IfOk, IsOk, OnErr, OnOk, false};
ghost use Rattle.st_check.specs.Programs.{leaves_of_program};
ghost use Rattle.st_control.specs.Controllers.{is_of_change};
ghost use Rattle.st_control.specs.States.{FitsRecord, FitsSaved, undone};
ghost use Rattle.st_compile.specs.Programs.{HasRoom};
ghost use Rattle.st_memory.specs.Memory.{ForcesAreOpen};
ghost use Rattle.st_memory.specs.Moves.{unmoved};
ghost use Rattle.st_layout.specs.Pairs.{pairs_between};

use crate::record::Record;
use crate::scanning::room_for;
use crate::state::State;
use st_compile::{Image, Stacks};
use st_layout::{Layout, Plan, PlanFault, Rename};
use st_memory::{Memory, Saved};
use std::alloc::{AllocError, Global};

/// Gives back the state before the command that left this record. Only where that is an online change it may be refused, for
/// want of memory; then the record is handed back, and the state is as before.
pub fn revert<M: Memory>(alloc: Global, state: &mut State<M>, newest: Record) -> Result<(), Record>
    requires { FitsRecord state.old newest }
    ensures ok { OnOk result (state.new ≡ undone state.old newest) }
    ensures always { is_of_change newest ≡ false → IsOk result }
    ensures err { IfErr result (λ record'. (record' ≡ newest) × (state.new ≡ state.old)) }
{
    match newest {
        Record::Write { leaf, old } => {
            state.memory.set(state.image.layout(), leaf, old);
        }
        Record::Force { leaf, old, was } => {
            state.memory.set(state.image.layout(), leaf, old);
            state.memory.mark(state.image.layout(), leaf, was);
        }
        Record::Release { leaf } => {
            state.memory.mark(state.image.layout(), leaf, true);
        }
        Record::Change {
            old,
            saved,
            renames,
        } => {
            let memory = &mut state.memory;
            match go_back(
                alloc,
                memory,
                &old,
                state.image.layout(),
                &saved,
                renames.as_slice(),
            ) {
                Ok((second, stacks)) => {
                    state.image = old;
                    state.second = second;
                    state.stacks = stacks;
                }
                Err(_) => return Err(Record::Change {
                    old,
                    saved,
                    renames,
                }),
            }
        }
    }
    Ok(())
}

/// Moves a memory back to the layout of the program before an online change, as `move_back` does, and makes what a scan of that
/// program needs.
fn go_back<M: Memory>(
    alloc: Global,
    memory: &mut M,
    old: &Image,
    new: &Layout,
    saved: &Saved,
    renames: &[Rename],
) -> Result<(M, Stacks), AllocError>
    requires over { M.IsOver new.now memory.old }
    requires fits { FitsSaved (leaves_of_program old.now) new.now saved.now renames.now }
    ensures over { OnOk result (M.IsOver (leaves_of_program old.now) memory.new) }
    ensures unmoved { OnOk result
        (M.content (leaves_of_program old.now) memory.new
        ≡ unmoved (leaves_of_program old.now)
        (pairs_between (leaves_of_program old.now) new.now renames.now)
        (M.content new.now memory.old) saved.now) }
    ensures open { ForcesAreOpen new.now (M.content new.now memory.old).forced
        → OnOk result (ForcesAreOpen (leaves_of_program old.now)
        (M.content (leaves_of_program old.now) memory.new).forced) }
    ensures second { IfOk result (λ room. M.IsOver (leaves_of_program old.now) room.0) }
    ensures stacks { IfOk result (λ room. HasRoom old.now room.1) }
    ensures err { OnErr result (memory.new ≡ memory.old) }
{
    let room = room_for(alloc, old)?;
    move_back(alloc, memory, old.layout(), new, saved, renames)?;
    Ok(room)
}

/// Moves a memory back to the layout before an online change, by the plan that its renames give again. It is refused for want
/// of memory alone, and then all is as before.
pub(crate) fn move_back<M: Memory>(
    alloc: Global,
    memory: &mut M,
    old: &Layout,
    new: &Layout,
    saved: &Saved,
    renames: &[Rename],
) -> Result<(), AllocError>
    requires over { M.IsOver new.now memory.old }
    requires fits { FitsSaved old.now new.now saved.now renames.now }
    ensures over { OnOk result (M.IsOver old.now memory.new) }
    ensures unmoved { OnOk result
        (M.content old.now memory.new
        ≡ unmoved old.now (pairs_between old.now new.now renames.now)
        (M.content new.now memory.old) saved.now) }
    ensures open { ForcesAreOpen new.now (M.content new.now memory.old).forced
        → OnOk result (ForcesAreOpen old.now (M.content old.now memory.new).forced) }
    ensures err { OnErr result (memory.new ≡ memory.old) }
{
    match Plan::between(alloc, old, new, renames) {
        Ok(plan) => memory.back(alloc, &plan, old, new, saved),
        Err(PlanFault::Memory) => Err(AllocError),
        Err(PlanFault::NotPaired) => unreachable!(),
    }
}
