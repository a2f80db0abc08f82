//! Laws of code.
ghost use Rattle.st_code.specs.CalledFunctions.{CodeCallsFunctions};
ghost use Rattle.st_code.specs.Charts.{CodeIsOfItsChart};
ghost use Rattle.st_code.specs.Correct.{CodeDoesAsCommandsMean, DepthIsAtMostTheLength};
ghost use Rattle.st_code.specs.Entrances.{CodeEntersWhatIsInvoked, TypingEntersInstances};
ghost use Rattle.st_code.specs.Invocations.{TypingInvokesBodies};
ghost use Rattle.st_code.specs.Relative.{InstructionsAreRelative, InstructionsKeepLengths, RunsAreRelative};

/// The code of a sound body does as it means, be it a chart or commands, at each moment and from all values, forces and steps left, on a
/// stack with room for its depth, where the bodies of units do as the commands mean that invoke them. It is never stuck.
pub fn code_does_as_commands_mean()
    ensures { CodeDoesAsCommandsMean }
{}

/// The depth of the code of a body is at most its length.
pub fn depth_is_at_most_the_length()
    ensures { DepthIsAtMostTheLength }
{}

/// What typing makes of the body of a unit invokes the bodies of those units alone that the names are instances of.
pub fn typing_invokes_bodies()
    ensures { TypingInvokesBodies }
{}

/// What typing makes of the body of a unit enters those instances alone that the names are: it passes each test that all of these pass.
pub fn typing_enters_instances()
    ensures { TypingEntersInstances }
{}

/// What an instruction does to the values of an instance, the same instruction from the first leaf of the instance on does among all
/// values: nothing else changes there, it goes on at the same place with the same stack and steps left, and it ends at the same fault.
/// This is not said of instructions that are stuck.
pub fn instructions_are_relative()
    ensures { InstructionsAreRelative }
{}

/// A run over the values of an instance is one among all values, of the same code from the first leaf of the instance on: it leaves of
/// the instance what the other leaves, and nothing else changes.
pub fn runs_are_relative()
    ensures { RunsAreRelative }
{}

/// After an instruction there are as many values as before, where each body leaves as many of an instance as it has leaves.
pub fn instructions_keep_lengths()
    ensures { InstructionsKeepLengths }
{}

/// Each instance that the code of a body enters is one that the body invokes: it passes each test that those pass.
pub fn code_enters_what_is_invoked()
    ensures { CodeEntersWhatIsInvoked }
{}

/// The code of a sound body calls nothing but functions, each with as many numbers as it has inputs.
pub fn code_calls_functions()
    ensures { CodeCallsFunctions }
{}

/// The code of a body is about no chart but that of its unit, where it is one.
pub fn code_is_of_its_chart()
    ensures { CodeIsOfItsChart }
{}
