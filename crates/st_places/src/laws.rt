//! Laws of the units of checked programs.
ghost use Rattle.st_places.specs.Laws.{ChartsAreInBodies, InstancesAreOfBlocks, UnitsAreSound};

/// Each name that is an instance of a function block of the text, in whichever unit, has the variables of the block and invokes its
/// body; and the block stands before the unit in the program's order.
pub fn instances_are_of_blocks()
    ensures { InstancesAreOfBlocks }
{}

/// In each unit of a checked program, the bounds of all arrays are numbers of LINT, and no two variables and steps of one whole have
/// the same name. A function has no large array.
pub fn units_are_sound()
    ensures { UnitsAreSound }
{}

/// The chart that the variables of a unit end with has the elements of the unit's body, and none where the body is no chart.
pub fn charts_are_in_bodies()
    ensures { ChartsAreInBodies }
{}
