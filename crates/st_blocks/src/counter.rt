//! Counters (2.5.2.3.3, table 36).
ghost use Rattle.std.specs.Prelude.{◌≡◌};
ghost use Rattle.st_types.specs.declared.standard.StandardBlock.TheVariants as blocks;
ghost use Rattle.st_blocks.specs.Blocks.{count_down, count_up, counted_down, counted_up, is_edge};
ghost use Rattle.st_blocks.specs.Cells.{AreLeavesOf, counter_cells, counter_in};

use crate::cells::{flag, integer, of_integer};
use st_values::{Value, truth};

/// The leaves of CTU and CTD.
#[derive(Clone, Copy, Debug, PartialEq, Eq)]
pub struct Counter {
    /// CU or CD: the input whose edges are counted.
    pub pulse: bool,
    /// R or LD: the input that has the counter begin again.
    pub restart: bool,
    /// PV: of CTU where the output turns TRUE, of CTD where the counter begins.
    pub pv: i16,
    /// Q: whether the counter has come to its end.
    pub q: bool,
    /// CV: what has been counted.
    pub cv: i16,
    /// The counted input at the last call.
    pub memory: bool,
}

impl Counter {
    /// The block with these leaves.
    pub fn read(cells: &[Value]) -> Counter
        requires { AreLeavesOf blocks.Ctu cells.now }
        ensures { result ≡ counter_in cells.now }
    {
        Counter {
            pulse: flag(cells, 0),
            restart: flag(cells, 1),
            pv: integer(cells, 2),
            q: flag(cells, 3),
            cv: integer(cells, 4),
            memory: flag(cells, 5),
        }
    }

    /// The values of its leaves.
    pub fn cells(self) -> [Value; 6]
        ensures value { result ≡ counter_cells self }
        ensures typed { AreLeavesOf blocks.Ctu result }
    {
        [
            truth(self.pulse),
            truth(self.restart),
            of_integer(self.pv),
            truth(self.q),
            of_integer(self.cv),
            truth(self.memory),
        ]
    }

    /// Whether the counted input has turned TRUE.
    fn is_edge(self) -> bool
        ensures { result ≡ is_edge self }
    {
        self.pulse && !self.memory
    }

    /// What CTU has counted at this call.
    fn count_up(self) -> i16
        ensures { result ≡ count_up self }
    {
        if self.restart {
            0
        } else if self.is_edge() && self.cv < i16::MAX {
            self.cv + 1
        } else {
            self.cv
        }
    }

    /// What CTD has counted at this call.
    fn count_down(self) -> i16
        ensures { result ≡ count_down self }
    {
        if self.restart {
            self.pv
        } else if self.is_edge() && self.cv > i16::MIN {
            self.cv - 1
        } else {
            self.cv
        }
    }

    /// CTU: the output is TRUE where PV has been counted.
    pub fn counted_up(self) -> Counter
        ensures { result ≡ counted_up self }
    {
        let cv = self.count_up();
        Counter {
            q: cv >= self.pv,
            cv,
            memory: self.pulse,
            ..self
        }
    }

    /// CTD: the output is TRUE where nothing is left to count.
    pub fn counted_down(self) -> Counter
        ensures { result ≡ counted_down self }
    {
        let cv = self.count_down();
        Counter {
            q: cv <= 0,
            cv,
            memory: self.pulse,
            ..self
        }
    }
}
