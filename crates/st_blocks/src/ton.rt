//! The on-delay timer TON (2.5.2.3.4, table 37 and figure 15).
ghost use Rattle.std.specs.Prelude.{◌≡◌};
ghost use Rattle.st_types.specs.declared.standard.StandardBlock.TheVariants as blocks;
ghost use Rattle.st_blocks.specs.Blocks.{on_delay};
ghost use Rattle.st_blocks.specs.Cells.{AreLeavesOf, ton_cells, ton_in};

use crate::cells::{duration, flag, of_duration};
use crate::time::{is_over, shown};
use st_values::{Value, truth};

/// The leaves of TON.
#[derive(Clone, Copy, Debug, PartialEq, Eq)]
pub struct Ton {
    /// IN.
    pub input: bool,
    /// PT: how long the input has to be TRUE, in milliseconds.
    pub pt: i64,
    /// Q: whether it has been for so long.
    pub q: bool,
    /// ET: for how long it has been, at most PT.
    pub et: i64,
    /// Whether the input was TRUE at the last call.
    pub running: bool,
    /// The moment of the first call with this input.
    pub start: i64,
}

impl Ton {
    /// The block with these leaves.
    pub fn read(cells: &[Value]) -> Ton
        requires { AreLeavesOf blocks.Ton cells.now }
        ensures { result ≡ ton_in cells.now }
    {
        Ton {
            input: flag(cells, 0),
            pt: duration(cells, 1),
            q: flag(cells, 2),
            et: duration(cells, 3),
            running: flag(cells, 4),
            start: duration(cells, 5),
        }
    }

    /// The values of its leaves.
    pub fn cells(self) -> [Value; 6]
        ensures value { result ≡ ton_cells self }
        ensures typed { AreLeavesOf blocks.Ton result }
    {
        [
            truth(self.input),
            of_duration(self.pt),
            truth(self.q),
            of_duration(self.et),
            truth(self.running),
            of_duration(self.start),
        ]
    }

    /// TON at a moment: the output is TRUE where the input has been for PT.
    pub fn on_delay(self, now: i64) -> Ton
        ensures { result ≡ on_delay self now }
    {
        if !self.input {
            return Ton {
                q: false,
                et: 0,
                running: false,
                start: 0,
                ..self
            };
        }
        let start = if self.running { self.start } else { now };
        Ton {
            q: is_over(self.pt, start, now),
            et: shown(self.pt, start, now),
            running: true,
            start,
            ..self
        }
    }
}
