//! Cases that are made by code: sessions in pieces, devices that fail, the plans of changes and what they save.
mod devices;
mod pieces;
mod plans;
mod saved;
mod stages;

use crate::tally::Tally;
use std::io;

/// Counts of the cases that are made by code, and the name of the last that fails.
#[derive(Clone, Copy, Default)]
struct Made {
    tally: Tally,
    failed: Option<&'static str>,
}

impl Made {
    /// Counts a case.
    fn count(&mut self, name: &'static str, comes_out: bool) {
        self.tally.count(comes_out);
        if !comes_out {
            self.failed = Some(name);
        }
    }
}

/// Runs all cases that are made by code, names the last that fails, and says how many there are.
pub fn run_made(rt: &HostRuntime) -> io::Result<Tally> {
    let mut made = Made::default();
    devices::run(rt.alloc(), &mut made);
    pieces::run(rt.alloc(), &mut made);
    plans::run(rt.alloc(), &mut made);
    saved::run(rt.alloc(), &mut made);
    if let Some(name) = made.failed {
        println!(rt; "{name}: does not come out")?;
    }
    made.tally.tell(rt, "made by code", "cases")?;
    Ok(made.tally)
}
