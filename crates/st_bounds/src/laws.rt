//! The laws.
ghost use Rattle.st_bounds.specs.Laws.{ArgumentsTakeTokens, ShortProgramsHaveSmallFunctions, ShortTextsFitCode};

/// A checked program whose text has at most 2^20 tokens, as each that was read has, has no function with more than 999,999 variables,
/// which code couldn't tell apart.
pub fn short_programs_have_small_functions()
    ensures { ShortProgramsHaveSmallFunctions }
{}

/// A text of at most 2^20 tokens has at most as many units, and no unit of it has more than 2^19 variables, or than 2^20 steps,
/// transitions or names that its steps are associated with. The numbers of a chart go up to 2^29, and those of code up to 2^32.
pub fn short_texts_fit_code()
    ensures { ShortTextsFitCode }
{}

/// No call has more arguments than tokens.
pub fn arguments_take_tokens()
    ensures { ArgumentsTakeTokens }
{}
