//! The laws.
ghost use Rattle.st_compile.specs.Bounds.{MoreCountTurnsChangeNothing, MoreRepeatTurnsChangeNothing, MoreUnitsChangeNothing, MoreWhileTurnsChangeNothing};
ghost use Rattle.st_compile.specs.Checked.{CheckedCallsAreThoseOfTheirBodies, CheckedFunctionsCallBelow, CheckedFunctionsHaveNoBlocks, CheckedFunctionsHaveNoInstances};
ghost use Rattle.st_compile.specs.Named.{TypingCallsWhatIsNamed};
ghost use Rattle.st_compile.specs.Passing.{SoundBodiesCallWhatPasses, SoundCommandsCallWhatPasses};
ghost use Rattle.st_compile.specs.Ranks.{FunctionsCallBelow};

/// What typing makes of statements calls those functions alone that are named in them: it passes each test that all of these pass.
pub fn typing_calls_what_is_named()
    ensures { TypingCallsWhatIsNamed }
{}

/// Where the units that a unit refers to have lower ranks, as in an order of the units, functions call functions of lower ranks alone.
pub fn functions_call_below()
    ensures { FunctionsCallBelow }
{}

/// Sound commands whose calls pass a test are sound where no functions are known but those that pass it.
pub fn sound_commands_call_what_passes()
    ensures { SoundCommandsCallWhatPasses }
{}

/// And so are sound bodies, be they charts or commands.
pub fn sound_bodies_call_what_passes()
    ensures { SoundBodiesCallWhatPasses }
{}

/// The functions of a checked program call none but those that stand before them in its order.
pub fn checked_functions_call_below()
    ensures { CheckedFunctionsCallBelow }
{}

/// Each function of a checked program gives what its body gives that calls the functions of the text.
pub fn checked_calls_are_those_of_their_bodies()
    ensures { CheckedCallsAreThoseOfTheirBodies }
{}

/// No variable of a function of a checked program is an instance of a function block, of the text or a standard one.
pub fn checked_functions_have_no_instances()
    ensures own { CheckedFunctionsHaveNoInstances }
    ensures standard { CheckedFunctionsHaveNoBlocks }
{}

/// The bounds that the meaning of calls and loops is defined with are never met: with any greater one a function of a checked program
/// gives the same, and a loop of sound statements does the same. A loop has as many turns as there are steps left, and one more.
pub fn bounds_are_never_met()
    ensures units { MoreUnitsChangeNothing }
    ensures while_turns { MoreWhileTurnsChangeNothing }
    ensures repeat_turns { MoreRepeatTurnsChangeNothing }
    ensures count_turns { MoreCountTurnsChangeNothing }
{}
