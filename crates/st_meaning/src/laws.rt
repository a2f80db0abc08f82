//! Laws of what programs mean.
ghost use Rattle.st_meaning.specs.CalledBy.{BodiesDependOnTheirCalls, CalledFunctionsMatterAlone, CallsAreThoseOfTheirBodies};
ghost use Rattle.st_meaning.specs.InRange.{SketchesAreInRange};
ghost use Rattle.st_meaning.specs.Laws.{BodiesKeepTheFrame, CallsAreSound, CommandsKeepTheFrame, FunctionsDeclareTheirResults, PlacesHaveLeaves, PlacesTakeSteps, TermsGiveValues, TypingGivesSoundBodies, TypingGivesSoundUnits};

/// The commands that the statements of a unit are, are sound, whatever stands in them, and so are the bodies of the instances of
/// function blocks that they invoke, however deep those lie.
pub fn typing_gives_sound_bodies()
    ensures { TypingGivesSoundBodies }
{}

/// The body of a unit is sound, be it a chart or statements, whatever stands in it.
pub fn typing_gives_sound_units()
    ensures { TypingGivesSoundUnits }
{}

/// Whatever the elements of a chart name, all numbers in what it is without names are those of some step or some name.
pub fn sketches_are_in_range()
    ensures { SketchesAreInRange }
{}

/// A place that is found is that of a leaf, and the value there is one of the place's type.
pub fn places_have_leaves()
    ensures { PlacesHaveLeaves }
{}

/// The value of an expression is one of its type, and no more steps are left behind it than before, where the functions that it
/// calls keep to this.
pub fn terms_give_values()
    ensures { TermsGiveValues }
{}

/// No more steps are left than before where the subscripts of a place are evaluated.
pub fn places_take_steps()
    ensures { PlacesTakeSteps }
{}

/// Whatever statements do, and at whichever moment, they leave one value of the right type for each leaf, where each forced leaf
/// has the value that it had, and no more steps than there were.
pub fn commands_keep_the_frame()
    ensures { CommandsKeepTheFrame }
{}

/// Whatever a body does, be it a chart or statements, it leaves one value of the right type for each leaf, where each forced leaf has
/// the value that it had, and no more steps than there were.
pub fn bodies_keep_the_frame()
    ensures { BodiesKeepTheFrame }
{}

/// The functions of a text give values of the types of their results, and leave no more steps than there were.
pub fn calls_are_sound()
    ensures { CallsAreSound }
{}

/// What statements mean depends on nothing but what the functions give that they call.
pub fn called_functions_matter_alone()
    ensures { CalledFunctionsMatterAlone }
{}

/// What a body means depends on nothing but what the functions give that it calls.
pub fn bodies_depend_on_their_calls()
    ensures { BodiesDependOnTheirCalls }
{}

/// Where each function calls none but those of a lower rank, each gives what its body gives that calls the functions of the text.
pub fn calls_are_those_of_their_bodies()
    ensures { CallsAreThoseOfTheirBodies }
{}

/// The result of a function is a variable of it that stands before what is declared.
pub fn functions_declare_their_results()
    ensures { FunctionsDeclareTheirResults }
{}
