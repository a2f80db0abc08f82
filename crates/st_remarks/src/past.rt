//! What is kept of the changes that can be undone.
use std::alloc::Global;
use std::mem;

/// The text of the program that runs.
#[derive(Drop)]
pub enum Running {
    /// The one that was loaded.
    Loaded,
    /// The one of a change.
    Changed(Vec<u8>),
    /// There was no memory to keep it.
    Unknown,
}

/// A change that can be undone.
#[derive(Drop)]
struct Change {
    /// The text of the program that ran before.
    before: Running,
    /// What a person is told once it is undone.
    undone: String,
    /// How many commands after it are to be undone before it.
    since: u32,
}

/// The text of the program that runs, and the changes that can be undone.
#[derive(Drop)]
pub struct Past {
    running: Running,
    /// The oldest first.
    changes: Vec<Change>,
}

impl Past {
    /// No change was done yet.
    pub fn new(alloc: Global) -> Self {
        Past {
            running: Running::Loaded,
            changes: Vec::new(alloc),
        }
    }

    /// The text of the program that runs, where it is known.
    pub fn text<'t>(&'t self, loaded: &'t [u8]) -> Option<&'t [u8]> {
        match &self.running {
            Running::Loaded => Some(loaded),
            Running::Changed(text) => Some(text.as_slice()),
            Running::Unknown => None,
        }
    }

    /// Tests whether there is no change that can be undone.
    pub fn is_empty(&self) -> bool {
        self.changes.is_empty()
    }

    /// Keeps that a change was done. Without memory no earlier one is known any more.
    pub fn keep(&mut self, text: Running, undone: String) {
        let before = mem::replace(&mut self.running, text);
        let change = Change {
            before,
            undone,
            since: 0,
        };
        if self.changes.push(change).is_err() {
            self.changes.clear();
        }
    }

    /// Counts a command that is to be undone before the last change.
    pub fn count(&mut self) {
        if let Some(last) = self.changes.last_mut() {
            last.since = last.since.saturating_add(1);
        }
    }

    /// Goes back by one command. Where that is a change, answers what a person is told.
    pub fn undo(&mut self) -> Option<String> {
        if let Some(last) = self.changes.last_mut() {
            if last.since > 0 {
                last.since -= 1;
                return None;
            }
        }
        let change = self.changes.pop()?;
        self.running = change.before;
        Some(change.undone)
    }

    /// Forgets all changes: nothing can be undone any more.
    pub fn clear(&mut self) {
        self.changes.clear();
    }
}
