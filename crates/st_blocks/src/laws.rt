//! Laws of the standard function blocks, in the standard's words.
ghost use Rattle.st_blocks.specs.Laws.{
  BlocksBegin,
  BlocksKeepTheirTypes,
  CellsAreRead,
  CountersMoveByOne,
  EdgesAreFound,
  InputsStay,
  OffIsDelayed,
  OnIsDelayed,
  PulsesAreKept,
  PulsesEnd,
  ResetDominates,
  SetDominates,
  TimesStayWithinPreset,
};

/// The values of a block's leaves are what its record says, and the record loses nothing of them.
pub fn cells_are_read()
    ensures { CellsAreRead }
{}

/// No call of a block changes its inputs.
pub fn inputs_stay()
    ensures { InputsStay }
{}

/// The leaves that a program lists for a block begin with values that its first call takes.
pub fn blocks_begin_with_their_leaves()
    ensures { BlocksBegin }
{}

/// A block that is called over and over never meets a value that its leaf can't hold: whatever the moment, and whatever stands in
/// its inputs, each leaf keeps a value of its type. A counter stays an INT, and a timer that runs for weeks stays a TIME.
pub fn blocks_keep_their_types()
    ensures { BlocksKeepTheirTypes }
{}

/// The output of an edge detector is TRUE for one call at an edge (2.5.2.3.2).
pub fn edges_are_found()
    ensures { EdgesAreFound }
{}

/// The set input of SR and the reset input of RS are dominant (2.5.2.3.1).
pub fn inputs_dominate()
    ensures set { SetDominates }
    ensures reset { ResetDominates }
{}

/// A counter moves by one at an edge and stays at its ends (2.5.2.3.3).
pub fn counters_move_by_one()
    ensures { CountersMoveByOne }
{}

/// ET never passes PT (2.5.2.3.4).
pub fn times_stay_within_preset()
    ensures { TimesStayWithinPreset }
{}

/// The output of TON is TRUE exactly where the input has been TRUE for PT, and that of TOF is FALSE exactly where the input
/// was never TRUE, or has been FALSE for PT (2.5.2.3.4, figure 15).
pub fn outputs_are_delayed()
    ensures on { OnIsDelayed }
    ensures off { OffIsDelayed }
{}

/// A pulse of TP isn't made longer by its input: while it runs nothing moves its start, and then it ends (2.5.2.3.4, figure 15).
pub fn pulses_are_as_long_as_preset()
    ensures kept { PulsesAreKept }
    ensures end { PulsesEnd }
{}
