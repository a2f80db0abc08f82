//! Instructions.
ghost use Rattle.std.specs.Prelude.{◌≡◌};
ghost use Rattle.st_code.specs.CalledFunctions.{call_of};
ghost use Rattle.st_code.specs.Charts.{chart_of};
ghost use Rattle.st_code.specs.Relative.{clipped_from};

use st_meaning::{Binary, Unary};
use st_types::StandardBlock;
use st_values::Elem;

/// An instruction of the stack machine. It takes what it needs off the operand stack and puts what it gives on it.
///
/// A cell of the stack is the number of a value as a two's complement of 64 bits; the instructions know the types. The line that
/// a fault is at stands beside the instruction. Leaves have their numbers in the layout, and a jump goes over so many instructions.
#[derive(Clone, Copy)]
pub enum Instr {
    /// Puts a number on the stack.
    Push(i64),
    /// Puts the value of a leaf on it.
    Get(u32),
    /// Takes a distance, and puts the value of the leaf that stands so far behind this one.
    GetAt(u32),
    /// Takes a value of the type, and stores it in the leaf, unless that is forced.
    Put(Elem, u32),
    /// Takes a distance and then a value of the type, and stores it in the leaf that stands so far behind this one.
    PutAt(Elem, u32),
    /// Takes a subscript of the type. Its distance from the lower bound, `low`, may be at most `last`; the distance times the
    /// stride is put.
    Index(Elem, u16, u32, i64),
    /// Takes a distance, and then a subscript as `Index` does. The sum of both distances is put.
    IndexBelow(Elem, u16, u32, i64),
    /// Adds two distances.
    Add,
    /// Takes an operand of the type.
    Apply(Unary, Elem),
    /// Takes the second operand and then the first. The types are those of the first and of the second.
    Combine(Binary, Elem, Elem),
    /// Takes two values and a BOOL, and puts the first where the BOOL is FALSE, else the second.
    Select,
    /// Counts a step.
    Step,
    /// Goes on behind so many further instructions.
    GoOn(usize),
    /// Takes a BOOL, and goes on behind so many further instructions where it is FALSE.
    SkipUnless(usize),
    /// Takes a BOOL, and goes on behind so many further instructions where it is TRUE.
    SkipIf(usize),
    /// Counts a step, and goes back over so many instructions.
    GoBack(usize),
    /// Takes the greatest and the least number of a label, and a BOOL; keeps the number of the type below them, and puts whether
    /// the BOOL is TRUE or the number lies between them.
    Within(Elem),
    /// Takes a value away.
    Drop,
    /// FOR: keeps its step, its last value and its counter, of the type, with the step on top. It stores the counter in the
    /// leaf.
    Begin(Elem, u32),
    /// FOR: where the counter hasn't passed the last value it is stored in the leaf, and else it goes on behind so many further
    /// instructions.
    Test(Elem, u32, usize),
    /// FOR: counts a step, and adds the step to the counter. Where that hasn't passed the last value it becomes the counter and is
    /// stored in the leaf, and it goes back over so many instructions.
    Next(Elem, u32, usize),
    /// FOR: takes its three values away.
    Leave,
    /// Does what one invocation of a standard function block does to its leaves, the first of which is this one.
    Invoke(StandardBlock, u32),
    /// Runs the body of a unit on the values of an instance, the first leaf of which is this one; behind it stands the number of
    /// the unit.
    Enter(u32, usize),
    /// Puts the number on the stack that stands so far below the top.
    Pick(u32),
    /// Takes so many numbers as the inputs of the function that the unit of this number is, takes so many further ones away, and
    /// puts what the function gives.
    Call(u32, u32, u32),
    /// Sets the times of the active steps of the chart of the unit of this number, the first leaf of which is this one.
    Times(u32, u32),
    /// Puts whether that chart has begun, and all steps before its transition of this number are active.
    Ask(u32, u32, u32),
    /// Takes for each transition of that chart whether its condition is TRUE, the last one on top, and does what one invocation of the
    /// chart does to its leaves. Puts for each action whether it is on, the first one on top, and above them for each BOOL variable
    /// that its steps are associated with, the first one on top.
    Chart(u32, u32),
    /// Leaves so many numbers on the stack, the lowest ones.
    Cut(u32),
}

impl Instr {
    /// The same instruction for an instance whose first leaf has this number. A leaf's number stops at the greatest of its type, which
    /// no leaf has.
    #[inline(always)]
    pub fn from_leaf(self, first: u32) -> Instr
        ensures { result ≡ clipped_from first self }
    {
        match self {
            Instr::Get(leaf) => Instr::Get(first.saturating_add(leaf)),
            Instr::GetAt(leaf) => Instr::GetAt(first.saturating_add(leaf)),
            Instr::Put(elem, leaf) => Instr::Put(elem, first.saturating_add(leaf)),
            Instr::PutAt(elem, leaf) => Instr::PutAt(elem, first.saturating_add(leaf)),
            Instr::Begin(elem, leaf) => Instr::Begin(elem, first.saturating_add(leaf)),
            Instr::Test(elem, leaf, far) => Instr::Test(elem, first.saturating_add(leaf), far),
            Instr::Next(elem, leaf, far) => Instr::Next(elem, first.saturating_add(leaf), far),
            Instr::Invoke(block, leaf) => Instr::Invoke(block, first.saturating_add(leaf)),
            Instr::Enter(leaf, unit) => Instr::Enter(first.saturating_add(leaf), unit),
            Instr::Times(unit, leaf) => Instr::Times(unit, first.saturating_add(leaf)),
            Instr::Ask(unit, leaf, number) => Instr::Ask(unit, first.saturating_add(leaf), number),
            Instr::Chart(unit, leaf) => Instr::Chart(unit, first.saturating_add(leaf)),
            other => other,
        }
    }

    /// The function that the instruction calls: the number of its unit, and how many numbers it takes as inputs.
    #[inline(always)]
    pub fn call(&self) -> Option<(u32, u32)>
        ensures { result ≡ call_of self.now }
    {
        match *self {
            Instr::Call(unit, inputs, _) => Some((unit, inputs)),
            _ => None,
        }
    }

    /// The unit whose chart the instruction is about.
    #[inline(always)]
    pub fn chart(&self) -> Option<u32>
        ensures { result ≡ chart_of self.now }
    {
        match *self {
            Instr::Times(unit, _) | Instr::Ask(unit, _, _) | Instr::Chart(unit, _) => Some(unit),
            _ => None,
        }
    }
}
