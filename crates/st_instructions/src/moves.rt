//! Where an instruction leads.
ghost use Rattle.std.specs.Prelude.{◌≡◌, ◌+◌, ◌<◌, ◌^◌};
ghost use Rattle.st_instructions.specs.Moves.{place_after};

use st_meaning::RunFaultKind;

/// Where an instruction leads.
#[derive(Clone, Copy)]
pub enum Move {
    /// To the next instruction.
    On,
    /// Behind so many further instructions.
    Skip(usize),
    /// Back over so many instructions.
    Back(usize),
    /// Nowhere: the run ends.
    Stop(RunFaultKind),
}

/// The place that a move leads to from another one.
///
/// # Errors
/// Where the run ends.
#[inline(always)]
pub fn place_after(to: Move, place: usize) -> Result<usize, RunFaultKind>
    requires { place + 1 < 2 ^ 64 }
    ensures { result ≡ place_after to place }
{
    match to {
        Move::On => Ok(place + 1),
        Move::Skip(distance) => Ok((place + 1).saturating_add(distance)),
        Move::Back(distance) => Ok(place.saturating_sub(distance)),
        Move::Stop(kind) => Err(kind),
    }
}
