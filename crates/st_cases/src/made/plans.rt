//! The plans of online changes, and how many ranges of leaves each has.
use crate::made::Made;
use crate::sessions::{FIRST, MAIN};
use st_layout::{Layout, Plan};
use st_listing::OfProgram;
use st_session::control::check_program;
use std::alloc::Global;

const ARRAY: &[u8] =
    b"PROGRAM Main VAR R : ARRAY [1..4] OF INT := [10, 20, 30, 40]; END_VAR END_PROGRAM";

/// The array with other subscripts.
const MOVED: &[u8] = b"PROGRAM Main VAR R : ARRAY [2..5] OF INT; END_VAR END_PROGRAM";

/// The first program with a variable before the others.
const LONGER: &[u8] = b"PROGRAM Main VAR N : DINT; A : INT := 3; B : BOOL; END_VAR END_PROGRAM";

/// The first program's variables in another order.
const TURNED: &[u8] = b"PROGRAM Main VAR B : BOOL; A : INT := 3; END_VAR END_PROGRAM";

/// Changes, and the ranges of their plans: one where leaves are only moved, and one more for a leaf that stands elsewhere.
const CHANGES: [(&[u8], &[u8], u32); 3] = [
    (FIRST, LONGER, 1),
    (ARRAY, MOVED, 1),
    (FIRST, TURNED, 2),
];

pub fn run(alloc: Global, made: &mut Made) {
    for (old, new, count) in CHANGES {
        made.count("ranges of plans", ranges(alloc, old, new) == Some(count));
    }
}

/// How many ranges the plan of a change has.
fn ranges(alloc: Global, old: &[u8], new: &[u8]) -> Option<u32> {
    let old = layout_of(alloc, old)?;
    let new = layout_of(alloc, new)?;
    match Plan::between(alloc, &old, &new, &[]) {
        Ok(plan) => Some(plan.ranges()),
        Err(_) => None,
    }
}

/// The layout of a text.
pub fn layout_of(alloc: Global, text: &[u8]) -> Option<Layout> {
    match check_program(alloc, text, MAIN) {
        Ok(program) => Layout::of(alloc, &program).ok(),
        Err(_) => None,
    }
}
