//! How large the leaves of standard function blocks are (2.5.2.3).
ghost use Rattle.std.specs.Prelude.{map};
ghost use Rattle.st_leaves.specs.Sizes.{IsSize};
ghost use Rattle.st_types.specs.Pins.{seen, seen_kept};
ghost use Rattle.st_leaves.specs.Charts.{kept_under, named};
ghost use Rattle.st_leaves.specs.Leaves.{standard_leaves};
ghost use Rattle.st_leaves.specs.Limits.{sizes_of};

use crate::Size;
use crate::size::{kept_leaf_size, named_leaf_size};
use st_types::{Kept, Pin, StandardBlock};

/// Of an instance of a standard function block.
pub fn standard_size(block: StandardBlock) -> Size
    ensures { IsSize result (sizes_of (standard_leaves block)) }
{
    pins_size(block.pins()).beside(kept_size(block.kept()))
}

/// Of these inputs and outputs.
fn pins_size(pins: &[Pin]) -> Size
    ensures { IsSize result (sizes_of (map (λ p. named p.name p.elem) (map seen pins.now))) }
{
    let mut size = Size::none();
    'pins: for pin in pins {
        size = size.beside(named_leaf_size(pin.name, pin.elem));
    }
    size
}

/// Of what a block keeps behind them.
fn kept_size(kept: &[Kept]) -> Size
    ensures { IsSize result (sizes_of (map (λ k. kept_under k.name k.elem)
        (map seen_kept kept.now))) }
{
    let mut size = Size::none();
    'kept: for leaf in kept {
        size = size.beside(kept_leaf_size(leaf.name, leaf.elem));
    }
    size
}
