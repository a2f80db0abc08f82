//! What an invocation of a chart is worked out on.
ghost use Rattle.std.specs.Prelude.{◌≡◌, All, IfOk, false};
ghost use Rattle.st_chart_runs.specs.Views.{room_of};

use st_charts::StepCell;
use st_values::{Elem, Value};
use std::alloc::{AllocError, Global};
use std::marker::Model;

/// A step that isn't active.
const NO_STEP: StepCell = StepCell {
    active: false,
    elapsed: 0,
    since: 0,
    pulsed: false,
};

/// What stands where no value has been put yet.
const NO_VALUE: Value = Value {
    elem: Elem::Bool,
    bits: 0,
};

/// How large the charts are for which there is room.
#[derive(Clone, Copy)]
pub struct ChartRoom {
    /// How many steps they have at most.
    pub steps: usize,
    /// How many names these are associated with.
    pub names: usize,
    /// How many transitions they have.
    pub transitions: usize,
    /// How many leaves they have.
    pub leaves: usize,
}

/// The parts of a chart, made before a run.
#[derive(Drop)]
pub struct Workspace {
    pub(crate) steps: Vec<StepCell>,
    /// The flags of the names.
    pub(crate) flags: Vec<bool>,
    /// Whether the conditions of the transitions are TRUE.
    pub(crate) conditions: Vec<bool>,
    /// Whether the names are on.
    pub(crate) on: Vec<bool>,
    /// The values of the leaves.
    pub(crate) cells: Vec<Value>,
}

impl Model for Workspace {
    ghost use Rattle.std.specs.Prelude.{◌≡◌, length};
    ghost use Rattle.st_chart_runs.specs.Views.{WorkspaceView};

    ghost Value = { WorkspaceView };

    ghost view = { λ w. record { steps = length w.steps.items; transitions = length w.conditions.items; leaves = length w.cells.items; on = w.on.items } };

    ghost invariant = { λ w. length w.flags.items ≡ length w.on.items };
}

impl Workspace {
    /// One with this room, in which no name is on.
    pub fn with_room(alloc: Global, room: ChartRoom) -> Result<Workspace, AllocError>
        ensures room { IfOk result (λ workspace. room_of workspace ≡ room) }
        ensures off { IfOk result (λ workspace. All (λ is_on. is_on ≡ false) workspace.on) }
    {
        let mut steps = Vec::new(alloc);
        steps.resize(room.steps, NO_STEP)?;
        let mut flags = Vec::new(alloc);
        flags.resize(room.names, false)?;
        let mut conditions = Vec::new(alloc);
        conditions.resize(room.transitions, false)?;
        let mut on = Vec::new(alloc);
        on.resize(room.names, false)?;
        let mut cells = Vec::new(alloc);
        cells.resize(room.leaves, NO_VALUE)?;
        Ok(Workspace {
            steps,
            flags,
            conditions,
            on,
            cells,
        })
    }

    /// Whether the names of the last chart that was invoked are on.
    pub fn on(&self) -> &[bool]
        ensures { result.now ≡ self.now.on }
    {
        self.on.as_slice()
    }
}
