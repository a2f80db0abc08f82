//! What online changes save, over each kind of memory.
ghost use Rattle.std.specs.Prelude.{◌<◌, length};
ghost use Rattle.st_layout.specs.Layout.{IsValueAt};
ghost use Rattle.st_layout.specs.Pairs.{IsPairing};

use crate::made::Made;
use crate::made::plans::layout_of;
use crate::sessions::FIRST;
use st_layout::{Layout, Plan};
use st_memory::{Cells, Memory, Packed, Saved};
use st_values::{Value, wrap};
use std::alloc::Global;

/// A change of a program of which one leaf has this number, and may be forced; and what it saves: so many bytes, which begin so, and the
/// numbers of these leaves as forced ones.
struct Change {
    texts: (&'static [u8], &'static [u8]),
    leaf: &'static [u8],
    number: i128,
    forced: bool,
    length: usize,
    begin: &'static [u8],
    marks: &'static [u32],
}

/// The first program with a DINT in the place of its INT.
const WIDER: &[u8] = b"PROGRAM Main VAR A : DINT := 1; B : BOOL; END_VAR A := A + 1; END_PROGRAM";

/// The first program without its BOOL.
const SHORTER: &[u8] = b"PROGRAM Main VAR A : INT := 3; END_VAR A := A + 1; END_PROGRAM";

const TIMER: &[u8] =
    b"PROGRAM Main VAR Go : BOOL := TRUE; T1 : TON; END_VAR T1(IN := Go, PT := T#100ms); END_PROGRAM";

/// A timer of another kind.
const OTHER_TIMER: &[u8] =
    b"PROGRAM Main VAR Go : BOOL := TRUE; T1 : TOF; END_VAR T1(IN := Go, PT := T#100ms); END_PROGRAM";

const CHART: &[u8] = b"PROGRAM Main VAR Go : BOOL; Lamp : BOOL; END_VAR
INITIAL_STEP S1: END_STEP
STEP S2: Lamp(N); END_STEP
TRANSITION FROM S1 TO S2 := Go; END_TRANSITION
TRANSITION FROM S2 TO S1 := NOT Go; END_TRANSITION
END_PROGRAM";

/// The chart with S3 in the place of S2.
const OTHER_STEP: &[u8] = b"PROGRAM Main VAR Go : BOOL; Lamp : BOOL; END_VAR
INITIAL_STEP S1: END_STEP
STEP S3: Lamp(N); END_STEP
TRANSITION FROM S1 TO S3 := Go; END_TRANSITION
TRANSITION FROM S3 TO S1 := NOT Go; END_TRANSITION
END_PROGRAM";

const CHANGES: [Change; 4] = [
    Change {
        texts: (FIRST, WIDER),
        leaf: b"Main.A",
        number: 7,
        forced: false,
        length: 2,
        begin: &[7, 0],
        marks: &[],
    },
    Change {
        texts: (FIRST, SHORTER),
        leaf: b"Main.B",
        number: 1,
        forced: true,
        length: 1,
        begin: &[1],
        marks: &[1],
    },
    Change {
        texts: (TIMER, OTHER_TIMER),
        leaf: b"Main.T1.ET",
        number: 40,
        forced: false,
        length: 27,
        begin: &[0, 0, 0, 0, 0, 0, 0, 0, 0, 0, 40, 0],
        marks: &[],
    },
    Change {
        texts: (CHART, OTHER_STEP),
        leaf: b"Main.S2.T",
        number: 40,
        forced: false,
        length: 17,
        begin: &[0, 40, 0],
        marks: &[],
    },
];

pub fn run(alloc: Global, made: &mut Made) {
    for change in &CHANGES {
        made.count(
            "what a change saves, over Cells",
            saves::<Cells>(alloc, change),
        );
        made.count(
            "what a change saves, over Packed",
            saves::<Packed>(alloc, change),
        );
    }
}

/// Whether a change saves the values of what it drops, in order and little-endian, and names what was forced.
fn saves<M: Memory>(alloc: Global, change: &Change) -> bool {
    let (Some(old), Some(new)) = (
        layout_of(alloc, change.texts.0),
        layout_of(alloc, change.texts.1),
    ) else {
        return false;
    };
    match Plan::between(alloc, &old, &new, &[]) {
        Ok(plan) => change.is_saved::<M>(alloc, &plan, &old, &new),
        Err(_) => false,
    }
}

impl Change {
    /// Whether it saves so by its plan.
    fn is_saved<M: Memory>(&self, alloc: Global, plan: &Plan, old: &Layout, new: &Layout) -> bool
        requires { IsPairing old.now new.now plan.now }
    {
        let Ok(mut memory) = M::fresh(alloc, old) else {
            return false;
        };
        if let Some(leaf) = old.leaf(self.leaf) {
            memory.set(old, leaf, value_of(old, leaf, self.number));
            memory.mark(old, leaf, self.forced);
        }
        match memory.carry(alloc, plan, old, new) {
            Ok(saved) => self.saves(&saved),
            Err(_) => false,
        }
    }

    /// Whether this is what it saves.
    fn saves(&self, saved: &Saved) -> bool {
        let bytes = saved.bytes.items.as_slice();
        bytes.len() == self.length
            && bytes.starts_with(self.begin)
            && saved.forced.items.as_slice() == self.marks
    }
}

/// A number as a value of a leaf's type.
fn value_of(layout: &Layout, leaf: u32, number: i128) -> Value
    requires { leaf < length layout.now }
    ensures { IsValueAt layout.now leaf result }
{
    wrap(layout.at(leaf).elem, number)
}
