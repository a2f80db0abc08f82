//! Laws of typing.
ghost use Rattle.st_compile.specs.Initials.{InitialsAreStrict};
ghost use Rattle.st_compile.specs.Laws.{BodiesAreStrict, ExpressionsAreStrict, OwnTypesAreTheSame, StatementsAreStrict, StrictCommandsAreOne, StrictTermsAreOne};
ghost use Rattle.st_compile.specs.TypedPrograms.{CheckedProgramsAreTyped, NamesAreTied, TypingsAreOne, UnitsAreTyped};

/// An expression in which no fault is found where a type is due has a term by the strict cases, and it is the one that typing gives.
pub fn expressions_are_strict()
    ensures { ExpressionsAreStrict }
{}

/// The rules and typing know the same own type of an expression in which no fault is found.
pub fn own_types_are_the_same()
    ensures { OwnTypesAreTheSame }
{}

/// A statement in which no fault is found is a command by the strict cases, and it is the one that typing gives.
pub fn statements_are_strict()
    ensures { StatementsAreStrict }
{}

/// So are the statements of a body.
pub fn bodies_are_strict()
    ensures { BodiesAreStrict }
{}

/// In a text without faults, in whose units none contains or calls itself, the names in each unit stand for the same by the rules and
/// in what the program means.
pub fn names_are_tied()
    ensures { NamesAreTied }
{}

/// Each unit of such a text has a typing by the strict cases, its statements or its chart, and the program means it so.
pub fn units_are_typed()
    ensures { UnitsAreTyped }
{}

/// So has each unit of a checked program: a program that is accepted meets no default of typing.
pub fn checked_programs_are_typed()
    ensures { CheckedProgramsAreTyped }
{}

/// All that such a text declares begins with what is written, by the strict cases: no initial value is wrapped or dropped.
pub fn initials_are_strict()
    ensures { InitialsAreStrict }
{}

/// A term by the strict cases is the one that typing gives, and there is no second one.
pub fn strict_terms_are_one()
    ensures { StrictTermsAreOne }
{}

/// So is a command.
pub fn strict_commands_are_one()
    ensures { StrictCommandsAreOne }
{}

/// So is a typing of a unit: it is what the program means.
pub fn typings_are_one()
    ensures { TypingsAreOne }
{}
