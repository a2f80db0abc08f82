//! The levels of units: their places in an order in which each unit stands after those that it contains and calls.
ghost use Rattle.std.specs.Prelude.{◌++◌, ◌≡◌, ◌<◌, IfOk, length, map, slice_index_or, ℕ};
ghost use Rattle.std.specs.List.{All};
ghost use Rattle.st_check.specs.Programs.{level_in};
ghost use Rattle.st_machine.specs.Levels.{no_room};

use st_machine::Room;
use std::alloc::{AllocError, Global};

/// The place of each of so many units in the order.
pub(crate) fn levels_of(
    alloc: Global,
    order: &[usize],
    units: usize,
) -> Result<Vec<usize>, AllocError>
    requires { All (λ number. number < units) order.now }
    ensures len { IfOk result (λ levels. length levels.items ≡ units) }
    ensures places { IfOk result
        (λ levels. (number : ℕ) → number < units
        → slice_index_or levels.items number 0 ≡ level_in order.now number) }
{
    let mut levels = vec![in alloc; order.len(); units]?;
    let mut place = order.len();
    while place > 0 {
        place -= 1;
        levels[order[place]] = place;
    }
    Ok(levels)
}

/// The room of the unit at each place in the order, as a function and then as a function block, of what is given for each unit.
pub(crate) fn in_order(
    alloc: Global,
    order: &[usize],
    functions: &[Room],
    blocks: &[Room],
) -> Result<Vec<Room>, AllocError>
    requires functions { All (λ number. number < length functions.now) order.now }
    requires blocks { All (λ number. number < length blocks.now) order.now }
    ensures { IfOk result (λ placed. placed.items
        ≡ map (λ number. slice_index_or functions.now number no_room) order.now
        ++ map (λ number. slice_index_or blocks.now number no_room) order.now) }
{
    let mut placed = Vec::with_capacity(alloc, order.len())?;
    'functions: for number in order {
        placed.push(functions[*number])?;
    }
    'blocks: for number in order {
        placed.push(blocks[*number])?;
    }
    Ok(placed)
}
