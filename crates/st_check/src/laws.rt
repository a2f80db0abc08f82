//! Laws of checked texts.
ghost use Rattle.st_check.specs.Laws.{AcceptedOnce, CheckedHasDistinctNames, CheckedHasElementaryFunctions, CheckedHasSoundLeaves, CheckedIsSmall, CheckedStoresDeclaredNames, FirstIsOne, FirstIsNotAccepted, HasNoRecursion, IsDecided, MissingIsNotAccepted, MissingIsNotFirst};

/// As a program of a name, a text is accepted, or has a first fault, or has no such program: exactly one of the three. It is
/// accepted for one number, and all first faults stand at one token and break one rule.
pub fn text_has_one_answer()
    ensures decided { IsDecided }
    ensures first { FirstIsNotAccepted }
    ensures missing { MissingIsNotAccepted }
    ensures fault { MissingIsNotFirst }
    ensures number { AcceptedOnce }
    ensures token { FirstIsOne }
{}

/// No unit of a checked program contains or calls itself, directly or through others.
pub fn checked_program_has_no_recursion()
    ensures { HasNoRecursion }
{}

/// In a checked program, no two variables and steps of one whole have the same name.
pub fn checked_program_has_distinct_names()
    ensures { CheckedHasDistinctNames }
{}

/// Each name that a chart of a checked program stores is that of a variable of its unit, or of an action of the chart, as it is
/// declared.
pub fn checked_program_stores_declared_names()
    ensures { CheckedStoresDeclaredNames }
{}

/// No two leaves of a checked program have the same path, each path is its shown text in upper case and has at most 255 bytes,
/// there are at most 65536 leaves, and each begins with a value of its type.
pub fn checked_program_has_sound_leaves()
    ensures { CheckedHasSoundLeaves }
{}

/// The bounds of all arrays of a checked program are numbers of LINT, it has at most 65536 leaves, and its name at most 128 bytes.
pub fn checked_program_is_small()
    ensures { CheckedIsSmall }
{}

/// Each variable and each constant of a function in a checked program is one value, and begins with one of its type.
pub fn checked_program_has_elementary_functions()
    ensures { CheckedHasElementaryFunctions }
{}
