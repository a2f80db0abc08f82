//! How many cases came out, and how many failed.
ghost use Rattle.std.specs.Prelude.{◌≡◌, ◌<◌, false};

use std::io;

/// Counts of cases.
#[derive(Clone, Copy, Default)]
pub struct Tally {
    pub passed: u64,
    pub failed: u64,
}

impl Tally {
    /// Adds the counts of others.
    pub fn add(&mut self, other: Tally)
        ensures failed { 0 < other.failed → 0 < self.new.failed }
        ensures kept { 0 < self.old.failed → 0 < self.new.failed }
    {
        self.passed = self.passed.saturating_add(other.passed);
        self.failed = self.failed.saturating_add(other.failed);
    }

    /// Counts a case.
    pub fn count(&mut self, comes_out: bool)
        ensures failed { comes_out ≡ false → 0 < self.new.failed }
        ensures kept { 0 < self.old.failed → 0 < self.new.failed }
    {
        if comes_out {
            self.passed = self.passed.saturating_add(1);
        } else {
            self.failed = self.failed.saturating_add(1);
        }
    }

    /// Says how many there are of what is called so, in a place.
    pub fn tell(&self, rt: &HostRuntime, place: &str, called: &str) -> io::Result<()> {
        let count = self.passed.saturating_add(self.failed);
        println!(rt; "{place}: {count} {called}")
    }
}
