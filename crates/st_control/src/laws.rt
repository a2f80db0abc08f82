//! What holds of all lists of commands, and of all scans and resets.
ghost use Rattle.st_control.specs.ChangeRefusals.{NoPairsByPath, RefusedForCharts, RefusedForPairs, StopsByPath};
ghost use Rattle.st_control.specs.ScanLaws.{ResetsGiveInitialValues, ResetsKeepWhole, ResetsStartAnew, ScansKeepTheFrame, ScansKeepWhole, ScansStartAnew};
ghost use Rattle.st_control.specs.Pulses.{PulsesNameTheirSteps};
ghost use Rattle.st_control.specs.Laws.{ChangesByPath, GoesThroughStates, IsGivenBack, LoadStays, RecordFits, RecordUndoesCommand, StepsKeepWhole};

/// Whatever commands are given, as many undos that are accepted as commands were give back the states before, in order, and the
/// history: whatever programs were changed for others between them, and whatever was refused, undos for want of memory too.
///
/// The laws speak of the machine that the calls of a controller are equations with.
pub fn undos_give_back_states()
    ensures given_back { IsGivenBack }
    ensures in_order { GoesThroughStates }
{}

/// A write, a force or a release that is accepted changes the value or the force at its own path, and at no other. An online
/// change carries values and forces from path to path.
pub fn command_changes_by_path()
    ensures { ChangesByPath }
{}

/// The leaf that tells whether a step has given its pulses names two others: by their paths these are the flag of this very step, and
/// the one that tells whether its chart has begun. An online change that gives a running step its first pulse asks for these two.
pub fn pulses_name_their_steps()
    ensures { PulsesNameTheirSteps }
{}

/// When an online change is refused for its pairs (O13) and for its charts (O8), by the paths of leaves. For its pairs: the renames name
/// what they may not, two leaves would go to one, or a step would leave its chart. For its charts: one is kept, and of its steps none that
/// is active.
pub fn changes_are_refused_by_path()
    ensures pairs { NoPairsByPath }
    ensures charts { StopsByPath }
    ensures refused_pairs { RefusedForPairs }
    ensures refused_charts { RefusedForCharts }
{}

/// What a command that is accepted leaves in its record fits the state after, and gives back the state before from it alone.
pub fn record_undoes_command()
    ensures gives_back { RecordUndoesCommand }
    ensures fits { RecordFits }
{}

/// A command that is accepted makes a whole state of a whole state, and what was loaded stays whatever is commanded and undone.
pub fn steps_keep_states_whole()
    ensures whole { StepsKeepWhole }
    ensures load { LoadStays }
{}

/// Whatever a program does, a scan stays in its frame: the program, its leaves and their types, the forces and the values of forced
/// leaves stay, and where it stops with a fault all values and the moment do. States stay whole, and nothing is left to undo.
pub fn scans_keep_the_frame()
    ensures frame { ScansKeepTheFrame }
    ensures whole { ScansKeepWhole }
    ensures anew { ScansStartAnew }
{}

/// A reset gives each leaf that isn't forced its initial value, and changes nothing else but that the program runs. States stay
/// whole, and nothing is left to undo.
pub fn resets_give_initial_values()
    ensures initial { ResetsGiveInitialValues }
    ensures whole { ResetsKeepWhole }
    ensures anew { ResetsStartAnew }
{}
