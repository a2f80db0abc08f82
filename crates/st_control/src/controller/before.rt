//! What ran before an online change, for whoever tells people what it did.
ghost use Rattle.std.specs.Prelude.{◌≡◌, ◌-◌, IfOk, IfSome, length, option_copied, slice_get};
ghost use Rattle.st_check.specs.Programs.{leaves_of_program};
ghost use Rattle.st_control.specs.States.{FitsRecord, FitsSaved, changed_back, leaves_of};

use crate::controller::Controller;
use crate::record::Record;
use crate::undoing::move_back;
use st_compile::Image;
use st_layout::{Layout, Rename};
use st_memory::{Memory, Saved};
use std::alloc::{AllocError, Global};

impl<M: Memory> Controller<M> {
    /// The leaves of the program that runs.
    pub fn layout(&self) -> &Layout
        ensures { result.now ≡ leaves_of self.now.state }
    {
        self.state.image.layout()
    }

    /// What the newest command that isn't undone left, if there is one.
    pub fn newest(&self) -> Option<&Record>
        ensures value { option_copied result
            ≡ slice_get self.now.records (length self.now.records - 1) }
        ensures fits { IfSome result (λ newest. FitsRecord self.now.state newest.now) }
    {
        self.records.last()
    }

    /// What the leaves of the program before an online change held, as an undo of it would give it back: the values and forces
    /// that it dropped, and those of now of what it kept. It is refused for want of memory alone.
    pub fn memory_before(
        &self,
        alloc: Global,
        old: &Image,
        saved: &Saved,
        renames: &[Rename],
    ) -> Result<M, AllocError>
        requires { FitsSaved (leaves_of_program old.now) (leaves_of self.now.state)
            saved.now renames.now }
        ensures over { IfOk result (λ memory. M.IsOver (leaves_of_program old.now) memory) }
        ensures content { IfOk result (λ memory. M.content (leaves_of_program old.now) memory
            ≡ (changed_back self.now.state old.now saved.now renames.now).content) }
    {
        let layout = self.state.image.layout();
        let mut memory = M::fresh(alloc, layout)?;
        memory.take_from(layout, &self.state.memory);
        move_back(alloc, &mut memory, old.layout(), layout, saved, renames)?;
        Ok(memory)
    }
}
