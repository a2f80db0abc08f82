//! The operand stacks of a program and the variables of its functions, whose room is made before a run.
ghost use Rattle.std.specs.Prelude.{◌≡◌, [], ◌∷◌, IfOk};
ghost use Rattle.st_machine.specs.Levels.{rooms_of};

use st_chart_runs::{ChartRoom, Workspace};
use st_instructions::{NO_VALUE, Stack};
use st_values::Value;
use std::alloc::{AllocError, Global};
use std::marker::Model;

/// The room of a level.
#[derive(Clone, Copy)]
pub struct Room {
    /// For how many numbers there is room on its stack.
    pub stack: usize,
    /// How many variables the function of the level has.
    pub variables: usize,
}

/// What the code of a block or a function runs on.
#[derive(Drop)]
pub(crate) struct Level {
    pub(crate) stack: Stack,
    /// The variables of a function.
    pub(crate) variables: Vec<Value>,
}

impl Model for Level {
    ghost use Rattle.st_machine.specs.Levels.{LevelView};

    ghost Value = { LevelView };

    ghost view = { λ level. record { stack = level.stack; variables = level.variables.items } };
}

/// A stack for the program's own code, a level for each of its blocks and functions, and what charts are worked out on.
#[derive(Drop)]
pub struct Stacks {
    pub(crate) own: Stack,
    pub(crate) levels: Vec<Level>,
    pub(crate) workspace: Workspace,
}

impl Model for Stacks {
    ghost use Rattle.st_chart_runs.specs.Views.{room_of};
    ghost use Rattle.st_machine.specs.Levels.{Rooms, rooms_of};

    ghost Value = { Rooms };

    ghost view = { λ stacks. record {
      own = stacks.own.1;
      levels = rooms_of stacks.levels.items;
      charts = room_of stacks.workspace;
    } };
}

impl Stacks {
    /// Stacks and levels with so much room each, and with room for charts.
    pub fn with_room(
        alloc: Global,
        own: usize,
        levels: &[Room],
        charts: ChartRoom,
    ) -> Result<Stacks, AllocError>
        ensures { IfOk result
            (λ stacks. stacks ≡ record { own = own; levels = levels.now; charts = charts }) }
    {
        let own = Stack::with_room(alloc, own)?;
        let levels = levels_of(alloc, levels)?;
        let workspace = Workspace::with_room(alloc, charts)?;
        Ok(Stacks {
            own,
            levels,
            workspace,
        })
    }
}

/// A level for each of these rooms.
fn levels_of(alloc: Global, rooms: &[Room]) -> Result<Vec<Level>, AllocError>
    ensures { IfOk result (λ levels. rooms_of levels.items ≡ rooms.now) }
{
    let mut levels = Vec::with_capacity(alloc, rooms.len())?;
    'rooms: for room in rooms {
        levels.push(level_of(alloc, *room)?)?;
    }
    Ok(levels)
}

/// A level with this room.
fn level_of(alloc: Global, room: Room) -> Result<Level, AllocError>
    ensures { IfOk result (λ level. rooms_of (level ∷ []) ≡ room ∷ []) }
{
    let stack = Stack::with_room(alloc, room.stack)?;
    let mut variables = Vec::new(alloc);
    variables.resize(room.variables, NO_VALUE)?;
    Ok(Level { stack, variables })
}
