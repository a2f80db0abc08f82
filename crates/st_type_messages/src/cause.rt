//! What can be wrong with types and values.

/// What is wrong with a type or a value.
#[derive(Clone, Copy, Debug, PartialEq, Eq)]
pub enum Cause {
    /// A constant is assigned.
    Constant,
    /// An input is assigned.
    Input,
    /// What a loop around counts is assigned.
    Counted,
    /// A part of a step is assigned.
    StepPart,
    /// A part of an instance is assigned.
    InstancePart,
    /// FOR counts what a loop around counts.
    CountedTwice,
    /// FOR counts what is no integer.
    NotCounted,
    /// A literal is outside the range of a type, and no type is wider.
    OutOfRange,
    /// A literal is neither of the values of BOOL.
    OutOfBool,
    /// A literal is outside the range of a type, and another one is wider.
    OutOfNarrow,
    /// A literal is outside the range of all types.
    OutOfAll,
    /// An upper bound is below the lower one.
    BoundsCross,
    /// A name isn't that of a type that can stand here.
    NoType,
    /// A unit isn't known.
    Undeclarable,
    /// A type or a variable has an initial value that it can't have.
    BeginsOtherwise,
    /// A function has an output.
    FunctionOutput,
    /// A variable of a function, or a constant, is no single value.
    NotSingle,
    /// An instance is declared where it can't be.
    InstanceDeclared,
    /// A structure has an initial value.
    StructureInitial,
    /// A list has more values than its array has elements.
    ListTooLong,
    /// A type is due, and nothing more is to be said.
    Expected,
    /// BOOL is due.
    ExpectedBool,
    /// TIME is due.
    ExpectedTime,
    /// TIME is found.
    FoundTime,
    /// A conversion would do.
    Converted,
    /// A conversion would do, which may change values.
    Wrapped,
    /// An integer is due.
    ExpectedInteger,
    /// A literal names another type.
    TypedLiteral,
    /// A duration is found.
    FoundDuration,
    /// A number is found.
    FoundNumber,
    /// A number is found, and TIME is due.
    NumberForTime,
    /// An operator doesn't take what is due.
    Untaken,
    /// A comparison stands where no BOOL is due.
    Compared,
    /// A standard function doesn't give what is due.
    NotGiven,
    /// An array stands for a value.
    WholeArray,
    /// A structure stands for a value.
    WholeStructure,
    /// An instance stands for a value.
    WholeInstance,
    /// What isn't known stands for a value.
    NoValue,
    /// An output has another type than the variable that takes it.
    OutputType,
    /// Subscripts stand behind what isn't known.
    NoElements,
    /// Subscripts stand behind what is no array.
    NoArray,
    /// Subscripts are of another number.
    OtherSubscripts,
    /// A step switches a variable that is no BOOL.
    SwitchedType,
    /// A step switches what is no single value.
    SwitchedWhole,
    /// A step switches what is no variable.
    SwitchedUnknown,
}
