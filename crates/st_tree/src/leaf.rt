//! The leaves of a program: what has a value while it runs. They are variables, and no part of the syntax.
use crate::list::List;
use st_values::{Elem, Value};

/// What a variable of a running program is for. It is no part of the syntax.
#[derive(Clone, Copy)]
pub enum Role {
    /// A variable that an operator may write and force.
    Plain,
    /// A variable that a scan may set from outside. An operator may write and force it.
    ProcessInput,
    /// What a block or an action keeps for itself.
    Hidden,
    /// Whether a chart has begun.
    ChartBegun,
    /// Whether a step is active. `begun` is the number of the leaf that tells whether its chart has begun.
    StepActive { begun: u32 },
    /// For how long a step has been active.
    StepTime,
    /// Whether a step has given its pulses. `active` is the number of the leaf that tells whether the step is active, `begun`
    /// of the one that tells whether its chart has begun.
    StepPulsed { active: u32, begun: u32 },
}

/// A leaf: a variable of the main program, or a part of one, that holds one value of an elementary type.
///
/// It is no part of the syntax: the tree of a program has declarations, and its layout the leaves.
#[derive(Drop)]
pub struct Leaf {
    /// Its name from the program on, in upper case, as `MAIN.A`.
    pub path: List<u8>,
    /// The same name, spelled as the program declares it.
    pub shown: List<u8>,
    /// What each proper prefix of the path names, as `PROGRAM`.
    pub spine: List<List<u8>>,
    /// Its elementary type.
    pub elem: Elem,
    /// The value that it begins with.
    pub initial: Value,
    /// What it is for.
    pub role: Role,
}
