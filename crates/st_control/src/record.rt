//! Undo records.
use st_compile::Image;
use st_layout::Rename;
use st_memory::Saved;
use st_tree::List;
use st_values::Value;

/// What one accepted command overwrote, and no more.
#[derive(Drop)]
pub enum Record {
    /// A write: the leaf's number, and the value that it had.
    Write {
        leaf: u32,
        old: Value,
    },
    /// A force: the leaf's number, the value that it had, and whether it was forced before.
    Force {
        leaf: u32,
        old: Value,
        was: bool,
    },
    /// A release: the number of the leaf, which was forced.
    Release {
        leaf: u32,
    },
    /// An online change: the program that ran before, what was saved of the leaves that it dropped, and its renames in upper
    /// case.
    Change {
        old: Image,
        saved: Saved,
        renames: List<Rename>,
    },
}
