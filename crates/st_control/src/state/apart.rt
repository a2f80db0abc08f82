//! What a state holds: the fields that are named here and no others.
ghost use Rattle.std.specs.Prelude.{◌≡◌};
ghost use Rattle.st_control.specs.States.{leaves_of};

use crate::state::{State, Status};
use st_compile::{Image, Stacks};
use st_memory::Memory;

/// Takes a state apart. The pattern names all its fields.
fn state_apart<M: Memory>(state: &State<M>) -> (&Image, &M, i64, Status, &M, &Stacks)
    ensures program { result.0.now ≡ state.entry.now.program }
    ensures content { M.content (leaves_of state.entry.now) result.1.now ≡ state.entry.now.content }
    ensures now { result.2 ≡ state.entry.now.now }
    ensures status { result.3 ≡ state.entry.now.status }
{
    let State {
        image,
        memory,
        now,
        status,
        second,
        stacks,
    } = state;
    (image, memory, *now, *status, second, stacks)
}
