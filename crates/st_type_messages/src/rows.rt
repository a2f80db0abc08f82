//! The table of what is said: a row for each cause.
ghost use Rattle.std.specs.Prelude.{◌<◌, ◌≡◌, Some, slice_get};
ghost use Rattle.st_messages.specs.Rows.{slot_texts};
ghost use Rattle.st_messages.specs.Sayings.{Says, TellsFor};
ghost use Rattle.st_type_messages.specs.Rows.{causes, rows};

use crate::cause::Cause;
use st_messages::{CauseRow, Draft, Saying, Slot, saying_at};

/// The rows, in the order of the causes.
static ROWS: [CauseRow<Cause>; 45] = [
    (
        Cause::Constant,
        "① is a constant, and can't be assigned",
        "help: declare it in VAR without CONSTANT, or assign to another variable",
    ),
    (
        Cause::Input,
        "① is an input, and only its caller or the process sets it",
        "help: copy it to a variable of VAR, and assign to that",
    ),
    (
        Cause::Counted,
        "① is counted by a FOR loop around, and can't be assigned in it",
        "help: assign to another variable, or use WHILE",
    ),
    (
        Cause::StepPart,
        "① is a step, whose X and T only the chart sets",
        "help: let a transition lead to the step",
    ),
    (
        Cause::InstancePart,
        "① is, or holds, an instance of a function block, whose members can't be assigned from outside",
        "help: give inputs where it is invoked, as `T1(IN := Go);`; its outputs can be read",
    ),
    (
        Cause::CountedTwice,
        "① is counted by a FOR loop around already",
        "help: let each loop count a variable of its own",
    ),
    (
        Cause::NotCounted,
        "① is no integer, and FOR counts integers alone",
        "help: declare a variable of type INT for it",
    ),
    (Cause::OutOfRange, "`①②` is outside the range of ③, ④", ""),
    (
        Cause::OutOfBool,
        "`①②` is outside the range of ③, ④",
        "help: compare, as `A <> 0`",
    ),
    (
        Cause::OutOfNarrow,
        "`①②` is outside the range of ③, ④",
        "help: choose a wider type, as ⑤",
    ),
    (
        Cause::OutOfAll,
        "`①②` is outside the range of all types",
        "note: the widest range are those of LINT, -9223372036854775808 to 9223372036854775807, and of ULINT, 0 to 18446744073709551615",
    ),
    (
        Cause::BoundsCross,
        "the upper bound `①②` is below the lower bound `③④`",
        "help: write the lower bound first, as `[1..10]`",
    ),
    (
        Cause::NoType,
        "① can't be the type here",
        "help: programs and functions are no types; an instance of a function block stands in VAR of a program or a block, alone",
    ),
    (Cause::Undeclarable, "① can't be declared so", ""),
    (
        Cause::BeginsOtherwise,
        "① can't begin so",
        "help: structures and instances have no initial value, and a list has no more values than its array has elements",
    ),
    (
        Cause::FunctionOutput,
        "① is an output, and a function has none",
        "help: the function's own name is its result; a function block has outputs",
    ),
    (
        Cause::NotSingle,
        "① is no single value, as each variable of a function and each constant has to be",
        "help: use single values, or a function block",
    ),
    (
        Cause::InstanceDeclared,
        "① is an instance of a function block, which stands in VAR of a program or a block, alone, and has no initial value",
        "help: declare it there, without an initial value",
    ),
    (
        Cause::StructureInitial,
        "① is made of structures, which have no initial value here",
        "help: give the members their initial values in the STRUCT",
    ),
    (
        Cause::ListTooLong,
        "① begins with more values than it has elements",
        "help: leave values out, or declare more elements",
    ),
    (Cause::Expected, "expected ①, found ②", ""),
    (
        Cause::ExpectedBool,
        "expected ①, found ②",
        "help: compare, as `A <> 0`",
    ),
    (
        Cause::ExpectedTime,
        "expected ①, found ②",
        "help: TIME converts from no other type: write a duration, as `T#500ms`, or declare a TIME",
    ),
    (
        Cause::FoundTime,
        "expected ①, found ②",
        "help: TIME converts into no other type: compare durations, as `T1.ET >= T#5s`",
    ),
    (
        Cause::Converted,
        "expected ①, found ②",
        "help: convert it: `②_TO_①(③)`",
    ),
    (
        Cause::Wrapped,
        "expected ①, found ②",
        "help: convert it: `②_TO_①(③)`\n  note: values outside ① (④) wrap",
    ),
    (
        Cause::ExpectedInteger,
        "expected ①, found ②",
        "help: an index, a selector and a count of a shift are integers",
    ),
    (
        Cause::TypedLiteral,
        "expected ①, found ②",
        "help: write the literal of the type that is expected, or a number without a type",
    ),
    (
        Cause::FoundDuration,
        "expected ①, found ②",
        "help: TIME converts into no other type: write a number",
    ),
    (Cause::FoundNumber, "expected ①, found the number ②③", ""),
    (
        Cause::NumberForTime,
        "expected ①, found the number ②③",
        "help: write a duration, as `T#④ms`",
    ),
    (Cause::Untaken, "① takes ②, and ③ is due here", ""),
    (
        Cause::Compared,
        "① compares and gives a BOOL, and ② is due here",
        "",
    ),
    (
        Cause::NotGiven,
        "① doesn't give ②",
        "note: ABS takes integers; SHL, SHR, ROL and ROR take BYTE, WORD, DWORD and LWORD; MIN, MAX, LIMIT and SEL take values of one type",
    ),
    (
        Cause::WholeArray,
        "① is a whole array, and a single value is due here",
        "help: name one element, as `A[1]`",
    ),
    (
        Cause::WholeStructure,
        "① is a whole structure, and a single value is due here",
        "help: name one member, as `S.Member`, and assign member by member",
    ),
    (
        Cause::WholeInstance,
        "① is an instance, and a single value is due here",
        "help: name one of its outputs, as `T1.Q`",
    ),
    (Cause::NoValue, "① is no single value", ""),
    (
        Cause::OutputType,
        "① is ②, and the output has another type",
        "help: let a variable of the output's type take it, and convert that",
    ),
    (Cause::NoElements, "① has no elements", ""),
    (
        Cause::NoArray,
        "① is no array here, and has no elements",
        "",
    ),
    (
        Cause::OtherSubscripts,
        "① has elements of another number of subscripts: ②, and not ③",
        "help: write all of them in one pair of brackets, as `A[1, 2]`",
    ),
    (
        Cause::SwitchedType,
        "① is ②, and a step switches BOOL variables and actions",
        "help: write an ACTION that assigns to it, and name that in the step",
    ),
    (
        Cause::SwitchedWhole,
        "① is no single value, and a step switches BOOL variables and actions",
        "help: write an ACTION that assigns to it, and name that in the step",
    ),
    (
        Cause::SwitchedUnknown,
        "① is no variable, and a step switches BOOL variables and actions",
        "help: write an ACTION that assigns to it, and name that in the step",
    ),
];

/// The number of the row of a cause.
fn row_number(cause: Cause) -> usize
    ensures within { result < 45 }
    ensures own { slice_get causes result ≡ Some cause }
{
    cause as usize
}

/// What the row of a cause says.
fn saying_of(cause: Cause) -> Saying
    ensures { Says rows cause result }
{
    saying_at(&ROWS, row_number(cause))
}

/// Says what the row of a cause says with these slots.
pub fn tell(draft: &mut Draft, cause: Cause, slots: &[Slot<'_>])
    ensures { TellsFor rows draft.old draft.new cause (slot_texts slots.now) }
{
    draft.tell(saying_of(cause), slots);
}
