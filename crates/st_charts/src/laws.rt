//! Laws of charts, in an engineer's words.
ghost use Rattle.st_charts.specs.Laws.{
  ClearedAreDetermined,
  FirstIsCleared,
  FollowersAreNew,
  InvocationsHaveOneOutcome,
  NamesAreOff,
  NamesAreOn,
  NoneIsClearedAtFirst,
  OneComesBefore,
  OneIsClearedOfAStep,
  OnlyEnabledAreCleared,
  OnlySharedAreKept,
  OthersStay,
  PredecessorsAreLeft,
  PulsesOnce,
  ResetWins,
  TimesAreSetOnce,
};

/// A transition is cleared only where its condition is TRUE and all steps before it are active; and none where the chart begins.
pub fn only_enabled_are_cleared()
    ensures enabled { OnlyEnabledAreCleared }
    ensures first { NoneIsClearedAtFirst }
{}

/// Of the transitions that a step precedes at most one is cleared. One that is enabled and whose condition is TRUE is cleared where
/// no such one that comes before it shares a step with it, and is kept only where a cleared one that comes before it does.
pub fn priorities_decide()
    ensures order { OneComesBefore }
    ensures one { OneIsClearedOfAStep }
    ensures first { FirstIsCleared }
    ensures others { OnlySharedAreKept }
{}

/// The rule has one outcome: which transitions are cleared follows from the active steps and the conditions.
pub fn clearing_is_determined()
    ensures { ClearedAreDetermined }
{}

/// A step that no cleared transition leaves or enters stays as it is, and its time runs on.
pub fn other_steps_stay()
    ensures { OthersStay }
{}

/// A step that follows a cleared transition is active since now, also where the transition leads back to it; one that precedes it
/// isn't active any more, unless one leads to it.
pub fn cleared_transitions_move_steps()
    ensures followers { FollowersAreNew }
    ensures predecessors { PredecessorsAreLeft }
{}

/// R wins over all. Where no step resets a name, it is on where it is stored or shown.
pub fn reset_wins()
    ensures reset { ResetWins }
    ensures on { NamesAreOn }
    ensures off { NamesAreOff }
{}

/// P shows its name at the one invocation at which its step becomes active.
pub fn pulses_are_single()
    ensures { PulsesOnce }
{}

/// An invocation has one outcome: what it leaves and says follows from what the chart kept, the conditions and the moment.
pub fn invocations_have_one_outcome()
    ensures { InvocationsHaveOneOutcome }
{}

/// Times that are set twice at one moment are as if they were set once: they may be set before the conditions are asked.
pub fn times_are_set_once()
    ensures { TimesAreSetOnce }
{}
