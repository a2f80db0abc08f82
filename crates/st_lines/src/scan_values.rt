//! The values that a scan is given, put into room that was made before.
ghost use Rattle.std.specs.Prelude.{◌≡◌, ◌<◌, ◌++◌, ◌∷◌, [], IfOk, length};

use st_values::Value;
use std::alloc::{AllocError, Global};
use std::marker::Model;

/// The most values of a line: each is a pair of two bytes at least.
const MAX_VALUES: usize = 2048;

/// The values that a scan is given, each with its leaf. There is room for those of the longest line from the start, so that no
/// scan needs memory.
#[derive(Drop)]
pub struct ScanValues {
    values: Vec<(u32, Value)>,
}

impl Model for ScanValues {
    ghost use Rattle.std.specs.Prelude.{◌≤◌, List, ℕ, vec_capacity};
    ghost use Rattle.st_values.specs.declared.value.Value.{Value as LeafValue};

    ghost Value = { List (ℕ × LeafValue) };

    ghost view = { λ given. given.values.items };

    ghost invariant = { λ given. 2048 ≤ vec_capacity given.values };
}

impl ScanValues {
    /// No values.
    pub fn new(alloc: Global) -> Result<Self, AllocError>
        ensures { IfOk result (λ values. values ≡ []) }
    {
        Ok(ScanValues {
            values: Vec::with_capacity(alloc, MAX_VALUES)?,
        })
    }

    /// The values, in order.
    pub fn as_slice(&self) -> &[(u32, Value)]
        ensures { result.now ≡ self.now }
    {
        self.values.as_slice()
    }

    /// Takes all out.
    pub fn clear(&mut self)
        ensures { self.new ≡ [] }
    {
        self.values.clear();
    }

    /// Puts the value of a leaf behind the others.
    pub fn push(&mut self, leaf: u32, value: Value)
        requires { length self.old < 2048 }
        ensures { self.new ≡ self.old ++ (leaf, value) ∷ [] }
    {
        let _ = self.values.push((leaf, value));
    }
}
