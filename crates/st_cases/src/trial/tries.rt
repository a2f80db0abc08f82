//! How often something was refused for want of memory.

/// How often a thing is tried at most.
pub const MOST_TRIES: u32 = 1000;

/// Counts refusals for want of memory.
#[derive(Clone, Copy, Default)]
pub struct Tries {
    /// How many refusals there were.
    pub refused: u32,
    in_a_row: u32,
    /// The most refusals of which each was followed by the next.
    pub most_in_a_row: u32,
}

impl Tries {
    /// Counts a refusal.
    pub fn count_refusal(&mut self) {
        self.refused = self.refused.saturating_add(1);
        self.in_a_row = self.in_a_row.saturating_add(1);
        self.most_in_a_row = self.most_in_a_row.max(self.in_a_row);
    }

    /// Something was done.
    pub fn end_row(&mut self) {
        self.in_a_row = 0;
    }
}
