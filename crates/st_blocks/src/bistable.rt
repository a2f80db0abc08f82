//! Bistable function blocks (2.5.2.3.1, table 34).
ghost use Rattle.std.specs.Prelude.{◌≡◌};
ghost use Rattle.st_types.specs.declared.standard.StandardBlock.TheVariants as blocks;
ghost use Rattle.st_blocks.specs.Blocks.{reset_dominant, set_dominant};
ghost use Rattle.st_blocks.specs.Cells.{AreLeavesOf, bistable_cells, bistable_in};

use crate::cells::flag;
use st_values::{Value, truth};

/// The leaves of SR and RS.
#[derive(Clone, Copy, Debug, PartialEq, Eq)]
pub struct Bistable {
    /// S1 of SR, S of RS.
    pub set: bool,
    /// R of SR, R1 of RS.
    pub reset: bool,
    /// Q1: what the block holds.
    pub q: bool,
}

impl Bistable {
    /// The block with these leaves.
    pub fn read(cells: &[Value]) -> Bistable
        requires { AreLeavesOf blocks.Sr cells.now }
        ensures { result ≡ bistable_in cells.now }
    {
        Bistable {
            set: flag(cells, 0),
            reset: flag(cells, 1),
            q: flag(cells, 2),
        }
    }

    /// The values of its leaves.
    pub fn cells(self) -> [Value; 3]
        ensures value { result ≡ bistable_cells self }
        ensures typed { AreLeavesOf blocks.Sr result }
    {
        [truth(self.set), truth(self.reset), truth(self.q)]
    }

    /// SR: where both inputs are TRUE it is set.
    pub fn set_dominant(self) -> Bistable
        ensures { result ≡ set_dominant self }
    {
        Bistable {
            q: self.set || (!self.reset && self.q),
            ..self
        }
    }

    /// RS: where both inputs are TRUE it is reset.
    pub fn reset_dominant(self) -> Bistable
        ensures { result ≡ reset_dominant self }
    {
        Bistable {
            q: !self.reset && (self.set || self.q),
            ..self
        }
    }
}
