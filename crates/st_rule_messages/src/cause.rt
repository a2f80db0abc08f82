//! What can be wrong with names, calls, charts and units, and what is told below that.

/// What is wrong, or what more is told below it.
#[derive(Clone, Copy, Debug, PartialEq, Eq)]
pub enum Cause {
    /// EXIT stands in no loop.
    NoLoop,
    /// A statement invokes a function.
    FunctionInvoked,
    /// A function block is invoked.
    BlockInvoked,
    /// An argument of an invocation has no name.
    NoNames,
    /// An instance has no input of a name.
    NoInput,
    /// An instance has no output of a name.
    NoOutput,
    /// An input or an output stands twice.
    PinTwice,
    /// An instance stands in an expression.
    InstanceValue,
    /// A standard function takes other arguments.
    OtherArguments,
    /// A function is to give outputs.
    FunctionOutputs,
    /// A function takes another number of arguments.
    OtherCount,
    /// A chart has no initial step.
    NoInitialStep,
    /// A chart has a second initial step.
    SecondInitialStep,
    /// There is no step of a name.
    NoStep,
    /// A qualifier has no duration and wants one.
    WantsDuration,
    /// A qualifier has a duration and wants none.
    NoDuration,
    /// A qualifier isn't in the profile.
    NoQualifier,
    /// A function calls itself.
    CallsItself,
    /// A unit contains itself.
    ContainsItself,
    /// Functions call one another.
    WayOfCalls,
    /// Units contain or call one another.
    WayOfUnits,
    /// A name is too long.
    LongName,
    /// There are too many units.
    ManyUnits,
    /// The standard has a name, and this profile hasn't.
    LeftOut,
    /// There is no type of a name.
    NoType,
    /// There is no function of a name.
    NoFunction,
    /// There is no variable of a name.
    NoVariable,
    /// There is none in a unit.
    NoVariableIn,
    /// There is no member of a name.
    NoMember,
    /// A member of an array is named.
    ArrayMember,
    /// A step has no such member.
    StepMember,
    /// A unit has the name of a standard one.
    StandardName,
    /// A name is declared already.
    Declared,
    /// A name is declared already, in this line.
    DeclaredIn,
    /// The text has no program of a name, and others.
    NoProgram,
    /// The text has no program.
    NoProgramAtAll,
    /// The members of a structure are named below.
    Members,
    /// The inputs and outputs of a block are named below.
    Pins,
    /// The inputs of a function are named below.
    Inputs,
    /// What has no members is told of below.
    OneValue,
    /// How an argument is written is told below.
    WriteNames,
    /// A near name is asked for below.
    Near,
    /// A near program is asked for below.
    NearProgram,
}
