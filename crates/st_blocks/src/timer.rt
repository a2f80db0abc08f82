//! The off-delay timer TOF and the pulse timer TP (2.5.2.3.4, table 37 and figure 15).
ghost use Rattle.std.specs.Prelude.{◌≡◌};
ghost use Rattle.st_types.specs.declared.standard.StandardBlock.TheVariants as blocks;
ghost use Rattle.st_blocks.specs.Blocks.{off_delay, off_start, pulse};
ghost use Rattle.st_blocks.specs.Cells.{AreLeavesOf, timer_cells, timer_in};

use crate::cells::{duration, flag, of_duration};
use crate::time::{is_over, preset, shown};
use st_values::{Value, truth};

/// The leaves of TOF and TP.
#[derive(Clone, Copy, Debug, PartialEq, Eq)]
pub struct Timer {
    /// IN.
    pub input: bool,
    /// PT: for how long the output stays TRUE, in milliseconds.
    pub pt: i64,
    /// Q.
    pub q: bool,
    /// ET: how much of this time has gone, at most PT.
    pub et: i64,
    /// The input at the last call.
    pub memory: bool,
    /// Whether the time runs or has run out, and the output wasn't started again.
    pub running: bool,
    /// The moment from which on it runs.
    pub start: i64,
}

impl Timer {
    /// The block with these leaves.
    pub fn read(cells: &[Value]) -> Timer
        requires { AreLeavesOf blocks.Tof cells.now }
        ensures { result ≡ timer_in cells.now }
    {
        Timer {
            input: flag(cells, 0),
            pt: duration(cells, 1),
            q: flag(cells, 2),
            et: duration(cells, 3),
            memory: flag(cells, 4),
            running: flag(cells, 5),
            start: duration(cells, 6),
        }
    }

    /// The values of its leaves.
    pub fn cells(self) -> [Value; 7]
        ensures value { result ≡ timer_cells self }
        ensures typed { AreLeavesOf blocks.Tof result }
    {
        [
            truth(self.input),
            of_duration(self.pt),
            truth(self.q),
            of_duration(self.et),
            truth(self.memory),
            truth(self.running),
            of_duration(self.start),
        ]
    }

    /// The moment from which on TOF runs.
    fn off_start(self, now: i64) -> i64
        ensures { result ≡ off_start self now }
    {
        if self.memory { now } else { self.start }
    }

    /// TOF at a moment: the output is TRUE until the input has been FALSE for PT.
    pub fn off_delay(self, now: i64) -> Timer
        ensures { result ≡ off_delay self now }
    {
        if self.input {
            return Timer {
                q: true,
                et: 0,
                memory: true,
                running: false,
                start: 0,
                ..self
            };
        }
        if self.memory || self.running {
            let start = self.off_start(now);
            return Timer {
                q: !is_over(self.pt, start, now),
                et: shown(self.pt, start, now),
                memory: false,
                running: true,
                start,
                ..self
            };
        }
        Timer {
            q: false,
            et: 0,
            memory: false,
            ..self
        }
    }

    /// TP at a moment: an edge of the input makes the output TRUE for PT, whatever the input does meanwhile.
    pub fn pulse(self, now: i64) -> Timer
        ensures { result ≡ pulse self now }
    {
        if self.running && !is_over(self.pt, self.start, now) {
            return Timer {
                q: true,
                et: shown(self.pt, self.start, now),
                memory: self.input,
                ..self
            };
        }
        if self.input && !self.memory {
            return Timer {
                q: preset(self.pt) > 0,
                et: 0,
                memory: true,
                running: true,
                start: now,
                ..self
            };
        }
        if self.running && self.input {
            return Timer {
                q: false,
                et: preset(self.pt),
                memory: true,
                ..self
            };
        }
        Timer {
            q: false,
            et: 0,
            memory: self.input,
            running: false,
            start: 0,
            ..self
        }
    }
}
