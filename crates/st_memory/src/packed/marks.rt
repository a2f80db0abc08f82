//! Marks of leaves, one bit each.
ghost use Rattle.std.specs.Prelude.{◌≡◌, ◌≢◌, ◌<◌, ◌≤◌, ◌+◌, ◌*◌, ◌^◌, IfOk, false, length, map, replicate, ℕ};
ghost use Rattle.st_layout.specs.Pairs.{AreBelow};
ghost use Rattle.st_memory.specs.Moves.{moved_force};
ghost use Rattle.st_memory.specs.Packed.{has_mark, mark_at, mark_bytes, marked};

use st_layout::{Layout, Run, Runs};
use std::alloc::{AllocError, Global};

/// The marks of so many leaves, none of them set.
pub fn no_marks(alloc: Global, count: u32) -> Result<Vec<u8>, AllocError>
    ensures marks { IfOk result (λ marks. marked count marks.items ≡ replicate count false) }
    ensures count { IfOk result (λ marks. length marks.items ≡ mark_bytes count) }
{
    let bytes = count.div_ceil(8);
    let marks = Vec::from_elem(alloc, 0, bytes as usize)?;
    Ok(marks)
}

/// Tests whether a leaf is marked.
#[inline]
pub fn is_marked(marks: &[u8], leaf: u32) -> bool
    requires { leaf < 8 * length marks.now }
    ensures { result ≡ mark_at marks.now leaf }
{
    (marks[(leaf / 8) as usize] >> (leaf % 8)) % 2 == 1
}

/// Tests whether any leaf is marked.
pub fn has_mark(marks: &[u8]) -> bool
    ensures { result ≡ has_mark marks.now }
{
    marks.iter().any(|byte| 0 < *byte)
}

/// Marks a leaf, or takes its mark away.
#[inline]
pub fn put_mark(marks: &mut [u8], leaf: u32, on: bool)
    requires { leaf < 8 * length marks.old }
    ensures count { length marks.new ≡ length marks.old }
    ensures here { mark_at marks.new leaf ≡ on }
    ensures others { (i : ℕ) → i ≢ leaf → mark_at marks.new i ≡ mark_at marks.old i }
{
    let place = (leaf / 8) as usize;
    let bit = 1u8 << (leaf % 8);
    if on {
        marks[place] |= bit;
    } else {
        marks[place] &= !bit;
    }
}

/// Copies the marks of a run of leaves to their new places.
fn copy_marks(to: &mut [u8], marks: &[u8], run: Run)
    requires to { run.first + run.count ≤ 8 * length to.old }
    requires from { run.to + run.count ≤ 8 * length marks.now }
    requires to_fits { run.first + run.count < 2 ^ 32 }
    requires from_fits { run.to + run.count < 2 ^ 32 }
    ensures count { length to.new ≡ length to.old }
    ensures run { (k : ℕ) → k < run.count
        → mark_at to.new (run.first + k) ≡ mark_at marks.now (run.to + k) }
    ensures before { (i : ℕ) → i < run.first → mark_at to.new i ≡ mark_at to.old i }
    ensures behind { (i : ℕ) → run.first + run.count ≤ i → mark_at to.new i ≡ mark_at to.old i }
{
    for k in 0..run.count {
        let on = is_marked(marks, run.to + k);
        put_mark(to, run.first + k, on);
    }
}

/// The marks of some leaves: each has that of the leaf with the number that it has, and none where it has no number. The marks
/// are those of a layout's leaves.
pub fn moved_marks(
    alloc: Global,
    numbers: &Runs,
    layout: &Layout,
    marks: &[u8],
) -> Result<Vec<u8>, AllocError>
    requires below { AreBelow numbers.now (length layout.now) }
    requires count { length marks.now ≡ mark_bytes (length layout.now) }
    ensures marks { IfOk result (λ moved. marked (length numbers.now) moved.items
        ≡ map (moved_force (marked (length layout.now) marks.now)) numbers.now) }
    ensures count { IfOk result (λ moved. length moved.items ≡ mark_bytes (length numbers.now)) }
{
    let _leaves = layout.len();
    let count = numbers.len();
    let mut moved = no_marks(alloc, count)?;
    let mut place = 0;
    while place < count {
        let run = numbers.next(place);
        copy_marks(&mut moved, marks, run);
        place = run.first + run.count;
    }
    Ok(moved)
}
