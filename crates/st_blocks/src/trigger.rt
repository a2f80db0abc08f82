//! Edge detectors (2.5.2.3.2, table 35).
ghost use Rattle.std.specs.Prelude.{◌≡◌};
ghost use Rattle.st_types.specs.declared.standard.StandardBlock.TheVariants as blocks;
ghost use Rattle.st_blocks.specs.Blocks.{fallen, risen};
ghost use Rattle.st_blocks.specs.Cells.{AreLeavesOf, trigger_cells, trigger_in};

use crate::cells::flag;
use st_values::{Value, truth};

/// The leaves of R_TRIG and F_TRIG.
#[derive(Clone, Copy, Debug, PartialEq, Eq)]
pub struct Trigger {
    /// CLK: the input whose edges are found.
    pub clk: bool,
    /// Q: whether this call has found one.
    pub q: bool,
    /// The input at the last call; of F_TRIG its negation.
    pub memory: bool,
}

impl Trigger {
    /// The block with these leaves.
    pub fn read(cells: &[Value]) -> Trigger
        requires { AreLeavesOf blocks.RTrig cells.now }
        ensures { result ≡ trigger_in cells.now }
    {
        Trigger {
            clk: flag(cells, 0),
            q: flag(cells, 1),
            memory: flag(cells, 2),
        }
    }

    /// The values of its leaves.
    pub fn cells(self) -> [Value; 3]
        ensures value { result ≡ trigger_cells self }
        ensures typed { AreLeavesOf blocks.RTrig result }
    {
        [truth(self.clk), truth(self.q), truth(self.memory)]
    }

    /// R_TRIG: the output is TRUE where the input has turned TRUE.
    pub fn risen(self) -> Trigger
        ensures { result ≡ risen self }
    {
        Trigger {
            q: self.clk && !self.memory,
            memory: self.clk,
            ..self
        }
    }

    /// F_TRIG: the output is TRUE where the input has turned FALSE.
    pub fn fallen(self) -> Trigger
        ensures { result ≡ fallen self }
    {
        Trigger {
            q: !self.clk && !self.memory,
            memory: !self.clk,
            ..self
        }
    }
}
