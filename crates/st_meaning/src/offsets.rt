//! Where the leaves of a chart's steps stand.
ghost use Rattle.std.specs.Prelude.{◌≤◌, ◌^◌, IfOk, length};
ghost use Rattle.st_meaning.specs.Counts.{ArePlaces};

use st_leaves::leaves_of_step;
use std::alloc::{AllocError, Global};

/// How many leaves stand behind the one that says whether a chart has begun.
#[derive(Drop)]
pub(crate) struct Offsets {
    /// Before those of each step.
    pub steps: Vec<u32>,
    /// Before the flags of the names that are stored, which stand behind all steps.
    pub flags: u32,
}

/// Those of steps, of each of which this says whether it has pulses.
pub(crate) fn offsets_of(alloc: Global, pulses: &[bool]) -> Result<Offsets, AllocError>
    requires { length pulses.now ≤ 2 ^ 29 }
    ensures { IfOk result (λ offsets. ArePlaces offsets pulses.now) }
{
    let mut steps = Vec::with_capacity(alloc, pulses.len())?;
    let mut place = 1;
    'pulses: for has_pulses in pulses {
        steps.push(place)?;
        place += leaves_of_step(*has_pulses);
    }
    Ok(Offsets {
        steps,
        flags: place,
    })
}
