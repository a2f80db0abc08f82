//! What a controller holds: the fields that are named here and no others.
ghost use Rattle.std.specs.Prelude.{◌≡◌};

use crate::controller::Controller;
use crate::record::Record;
use crate::state::State;
use st_memory::Memory;
use st_tree::Name;

/// Takes a controller apart. The pattern names all its fields.
fn controller_apart<M: Memory>(controller: &Controller<M>) -> (&State<M>, &[Record], Name, u32)
    ensures state { result.0.now ≡ controller.now.state }
    ensures records { result.1.now ≡ controller.now.records }
    ensures main { result.2 ≡ controller.now.main }
    ensures limit { result.3 ≡ controller.now.limit }
{
    let Controller {
        state,
        records,
        main,
        limit,
    } = controller;
    (state, records.as_slice(), *main, *limit)
}
