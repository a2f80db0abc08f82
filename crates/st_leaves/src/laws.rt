//! Laws of the leaves of programs.
ghost use Rattle.st_leaves.specs.Compositions.{BeginWithValues, LeavesAreThoseOfTheComposition};
ghost use Rattle.st_leaves.specs.Distinct.{PathsAreDistinct, TextsAreWays, WaysAreDistinct};
ghost use Rattle.st_leaves.specs.Flags.{WholesHaveCharts, WholesTellFlags};
ghost use Rattle.st_leaves.specs.Places.{LeavesAreCounted, PlacesAreNumbers};

/// A unit's leaves are those of what its variables consist of, in which types have no names.
pub fn leaves_follow_the_composition()
    ensures { LeavesAreThoseOfTheComposition }
{}

/// Each leaf begins with a value of its type.
pub fn leaves_begin_with_values()
    ensures { BeginWithValues }
{}

/// There are as many leaves as counted.
pub fn leaves_are_counted()
    ensures { LeavesAreCounted }
{}

/// The number that offsets and strides give is that of a leaf with this very path.
pub fn places_are_numbers()
    ensures { PlacesAreNumbers }
{}

/// Where no two variables and steps of one whole have the same name, no two leaves of a program have the same path: the
/// ways to them differ, and the text of a way whose names are words, and whose subscripts have at most 64 digits, tells
/// which way it is.
pub fn paths_are_distinct()
    ensures ways { WaysAreDistinct }
    ensures texts { TextsAreWays }
    ensures paths { PathsAreDistinct }
{}

/// The flag of each step of a chart stands as many leaves behind the one that says whether that chart has begun as it tells,
/// and their ways begin alike; and of the leaves that no operator may write, those whose paths end with `X` are these flags.
pub fn flags_have_charts()
    ensures charts { WholesHaveCharts }
    ensures flags { WholesTellFlags }
{}
