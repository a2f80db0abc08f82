//! Laws of what memories hold, and of what an online change makes of it.
ghost use Rattle.st_memory.specs.Laws.{BackUndoesCarry, CarriedFits, CarriedForcesAreOpen, ReturnedFits, ReturnedForcesAreOpen, SavedForcesAreOpen, SavedForcesAscend, SavedHoldsValues, SavesDroppedForces, SavesDroppedValues, SavesTheirWidths};
ghost use Rattle.st_memory.specs.Laws.{FreshLeafIsInitial, FreshLeafIsNotForced, FreshPulseFollowsStep, FreshStepIsInactive, KeptForceStays, KeptValueStays};
ghost use Rattle.st_memory.specs.Laws.{HasLeavesValues, MarkChangesOneForce, PathsDetermineContent, SetChangesOneValue};

/// What a memory holds is a map from the leaves' paths to values, and a set of forced paths: it changes at one path at a
/// time, and the map and the set determine it.
pub fn content_is_a_map()
    ensures keys { HasLeavesValues }
    ensures set { SetChangesOneValue }
    ensures mark { MarkChangesOneForce }
    ensures whole { PathsDetermineContent }
{}

/// What gives an old content back undoes what an online change made of it, exactly, and needs nothing but what the change
/// left and saved.
pub fn back_undoes_carry()
    ensures back { BackUndoesCarry }
    ensures carried { CarriedFits }
    ensures saved { SavedHoldsValues }
    ensures returned { ReturnedFits }
{}

/// An online change and its undo force only leaves that an operator may force, where that was so before.
pub fn forces_stay_open()
    ensures carried { CarriedForcesAreOpen }
    ensures saved { SavedForcesAreOpen }
    ensures returned { ReturnedForcesAreOpen }
{}

/// An online change saves the values of the dropped leaves and the numbers of those that are forced, and nothing more.
pub fn change_saves_dropped()
    ensures bytes { SavesDroppedValues }
    ensures widths { SavesTheirWidths }
    ensures forced { SavesDroppedForces }
    ensures ascending { SavedForcesAscend }
{}

/// What an online change makes of the map from paths to values, and of the set of forced paths.
pub fn change_carries_by_path()
    ensures value { KeptValueStays }
    ensures force { KeptForceStays }
    ensures fresh { FreshLeafIsNotForced }
    ensures step { FreshStepIsInactive }
    ensures pulse { FreshPulseFollowsStep }
    ensures initial { FreshLeafIsInitial }
{}
