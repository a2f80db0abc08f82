//! How a controller stands.
use st_memory::Memory;
use st_session::control::{Controller, Refusal, Report, Status};
use st_values::Value;
use std::alloc::{AllocError, Global};

/// How a controller stands as a whole, and what stands at some paths.
#[derive(Drop)]
pub struct Picture {
    report: Report,
    leaves: Vec<Result<(Value, bool), Refusal>>,
}

impl Picture {
    /// The picture of a controller.
    pub fn of<M: Memory>(
        alloc: Global,
        controller: &Controller<M>,
        paths: &str,
    ) -> Result<Self, AllocError> {
        let mut leaves = Vec::new(alloc);
        for path in paths.split_whitespace() {
            leaves.push(controller.get(path.as_bytes()))?;
        }
        Ok(Picture {
            report: controller.status(),
            leaves,
        })
    }

    /// Whether a controller stands so, and runs. No trial is halted.
    pub fn is_of<M: Memory>(&self, controller: &Controller<M>, paths: &str) -> bool {
        for (path, leaf) in paths.split_whitespace().zip(self.leaves.iter()) {
            if controller.get(path.as_bytes()) != *leaf {
                return false;
            }
        }
        let report = controller.status();
        let both = (report.status, self.report.status);
        matches!(both, (Status::Running, Status::Running))
            && report.now == self.report.now
            && report.forces == self.report.forces
            && report.undo == self.report.undo
    }
}
