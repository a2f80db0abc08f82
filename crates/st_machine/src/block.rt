//! The code of function blocks of the text.
ghost use Rattle.std.specs.Prelude.{◌≡◌};

use st_code::Fused;
use std::marker::Model;

/// The code of a function block, for all its instances.
#[derive(Drop)]
pub struct Block {
    code: Fused,
    /// How deep its instances can lie: its level is above those of all blocks whose instances it enters, and of all functions that it
    /// calls.
    level: usize,
}

impl Model for Block {
    ghost use Rattle.st_machine.specs.Blocks.{BlockView};

    ghost Value = { BlockView };

    ghost view = { λ block. record { code = block.code; level = block.level } };
}

impl Block {
    /// A block of this level.
    pub fn new(code: Fused, level: usize) -> Block
        ensures { result ≡ record { code = code; level = level } }
    {
        Block { code, level }
    }

    /// The code of its body.
    pub(crate) fn code(&self) -> &Fused
        ensures { result.now ≡ self.now.code }
    {
        &self.code
    }

    /// Its level, from 0.
    pub(crate) fn level(&self) -> usize
        ensures { result ≡ self.now.level }
    {
        self.level
    }
}
