//! The table of what is said: a row for each cause.
ghost use Rattle.std.specs.Prelude.{◌<◌, ◌≡◌, ◌∷◌, [], Some, slice_get};
ghost use Rattle.st_messages.specs.Rows.{slot_text, slot_texts};
ghost use Rattle.st_messages.specs.Sayings.{Says, TellsFor};
ghost use Rattle.st_rule_messages.specs.Rows.{causes, rows};

use crate::cause::Cause;
use st_messages::{CauseRow, Draft, Saying, Slot, saying_at};

/// The rows, in the order of the causes.
static ROWS: [CauseRow<Cause>; 43] = [
    (
        Cause::NoLoop,
        "① stands in no loop",
        "help: it leaves FOR, WHILE and REPEAT; `RETURN;` leaves the unit",
    ),
    (
        Cause::FunctionInvoked,
        "① is a function, and a statement invokes an instance",
        "help: use its result, as `A := F(B);`",
    ),
    (
        Cause::BlockInvoked,
        "① is a function block, and only an instance of it is invoked",
        "help: declare one in VAR, as `Instance : ②;`, and invoke that",
    ),
    (
        Cause::NoNames,
        "an argument of an invocation has the name of an input before it",
        "",
    ),
    (Cause::NoInput, "① has no input ②", ""),
    (Cause::NoOutput, "① has no output ②", ""),
    (
        Cause::PinTwice,
        "an input or an output stands twice in this invocation",
        "help: give each once",
    ),
    (
        Cause::InstanceValue,
        "① is an instance, and has no value in an expression",
        "help: invoke it in a statement before, and read an output, as `T1.Q`",
    ),
    (
        Cause::OtherArguments,
        "① takes ②, without names (here: ③)",
        "",
    ),
    (
        Cause::FunctionOutputs,
        "① is a function, and has no outputs",
        "help: use its result, as `A := F(B);`",
    ),
    (
        Cause::OtherCount,
        "① takes all its arguments by position (②, here: ③), or each at most once by name",
        "",
    ),
    (
        Cause::NoInitialStep,
        "the chart of ① has no initial step",
        "help: write INITIAL_STEP in place of STEP for the one that it begins with",
    ),
    (
        Cause::SecondInitialStep,
        "① is a second initial step, and a chart has one",
        "help: write STEP in place of INITIAL_STEP",
    ),
    (Cause::NoStep, "there is no step ①", ""),
    (
        Cause::WantsDuration,
        "① wants a duration",
        "help: write one behind it, as `Lamp(L, T#5s)`",
    ),
    (
        Cause::NoDuration,
        "① is written without a duration",
        "help: leave the duration out, or write L or D",
    ),
    (
        Cause::NoQualifier,
        "① is no qualifier of this profile",
        "help: write N, S, R or P without a duration, or L or D with one",
    ),
    (
        Cause::CallsItself,
        "① calls itself",
        "help: leave out a call on this way back; a loop often does what it was to do",
    ),
    (
        Cause::ContainsItself,
        "① contains itself",
        "help: leave out a variable, a member or a call on this way back",
    ),
    (
        Cause::WayOfCalls,
        "①②",
        "help: leave out a call on this way back; a loop often does what it was to do",
    ),
    (
        Cause::WayOfUnits,
        "①②",
        "help: leave out a variable, a member or a call on this way back",
    ),
    (
        Cause::LongName,
        "this name has ① bytes, and the name of a type, function, block or program has at most ②",
        "help: shorten it",
    ),
    (
        Cause::ManyUnits,
        "this is number ① of the types, functions, blocks and programs of the text, and there are at most 1,000",
        "help: leave out what isn't used",
    ),
    (Cause::LeftOut, "① isn't in this profile", "help: ②"),
    (Cause::NoType, "there is no type or function block ①", ""),
    (Cause::NoFunction, "there is no function or instance ①", ""),
    (Cause::NoVariable, "there is no variable ①", ""),
    (Cause::NoVariableIn, "there is no variable ① in ②", ""),
    (Cause::NoMember, "① has no member ②", ""),
    (
        Cause::ArrayMember,
        "an array has no member ②",
        "help: name an element first, as `A[1].Member`",
    ),
    (
        Cause::StepMember,
        "① has no member ②",
        "note: a step has X and T alone",
    ),
    (
        Cause::StandardName,
        "① is the name of a standard function or block",
        "help: choose another name",
    ),
    (
        Cause::Declared,
        "① is declared already",
        "help: choose another name",
    ),
    (
        Cause::DeclaredIn,
        "① is declared already",
        "note: first in line ②; capital and small letters are the same\n  help: choose another name",
    ),
    (
        Cause::NoProgram,
        "the text has no program ①",
        "note: the programs of this text: ②",
    ),
    (
        Cause::NoProgramAtAll,
        "the text has no program ①",
        "note: it has no program at all",
    ),
    (Cause::Members, "", "note: its members: ①"),
    (Cause::Pins, "", "note: its inputs: ①; its outputs: ②"),
    (Cause::Inputs, "", "note: its inputs: ①"),
    (
        Cause::OneValue,
        "",
        "note: it is one value, and no structure",
    ),
    (Cause::WriteNames, "", "help: write `Input := Value`"),
    (Cause::Near, "", "help: did you mean `①`?"),
    (Cause::NearProgram, "", "help: did you mean `--program ①`?"),
];

/// The number of the row of a cause.
fn row_number(cause: Cause) -> usize
    ensures within { result < 43 }
    ensures own { slice_get causes result ≡ Some cause }
{
    cause as usize
}

/// What the row of a cause says.
fn saying_of(cause: Cause) -> Saying
    ensures { Says rows cause result }
{
    saying_at(&ROWS, row_number(cause))
}

/// Says what the row of a cause says with these slots.
pub fn tell(draft: &mut Draft, cause: Cause, slots: &[Slot<'_>])
    ensures { TellsFor rows draft.old draft.new cause (slot_texts slots.now) }
{
    draft.tell(saying_of(cause), slots);
}

/// Says what the row of a cause says with two slots.
pub fn tell_two<'x>(draft: &mut Draft, cause: Cause, first: Slot<'x>, second: Slot<'x>)
    ensures { TellsFor rows draft.old draft.new cause
        (slot_text first.entry ∷ slot_text second.entry ∷ []) }
{
    tell(draft, cause, &[first, second]);
}
