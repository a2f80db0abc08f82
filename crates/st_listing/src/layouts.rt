//! The layouts of checked programs.
ghost use Rattle.std.specs.Prelude.{◌≡◌, IfOk};
ghost use Rattle.st_check.specs.Programs.{leaves_of_program};
ghost use Rattle.st_listing.specs.Worded.{ChangesWithoutRenamesPair, IsWorded};

use crate::leaves::leaves_of;
use st_check::{Program, checked_program_has_sound_leaves};
use st_layout::{Layout, wholes_pair_without_renames};
use std::alloc::{AllocError, Global};

/// What is made of a checked program's leaves. With it in scope a program's layout is `Layout::of(alloc, &program)`.
pub trait OfProgram: Sized {
    /// What the leaves of a program are made into.
    fn of(alloc: Global, program: &Program) -> Result<Self, AllocError>;
}

impl OfProgram for Layout {
    /// The layout of a program's leaves. It is refused for want of memory alone.
    fn of(alloc: Global, program: &Program) -> Result<Layout, AllocError>
        ensures leaves { IfOk result (λ layout. layout ≡ leaves_of_program program.now) }
        ensures worded { IfOk result (λ _. IsWorded program.now) }
    {
        let leaves = leaves_of(alloc, program)?;
        Layout::new(alloc, leaves)
    }
}

/// Without renames an online change from one checked program to another always gives pairs, so that it isn't refused for them.
pub fn changes_without_renames_pair()
    ensures { ChangesWithoutRenamesPair }
{
    checked_program_has_sound_leaves();
    wholes_pair_without_renames();
}
