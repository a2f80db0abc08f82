//! The laws.
ghost use Rattle.st_syntax.specs.Laws.{NoneIsMore, UnitsOfShortTextsAreShort};

/// No item of a list is longer than all of them together, so no unit is longer than its text.
pub fn parts_are_shorter()
    ensures each { NoneIsMore }
    ensures units { UnitsOfShortTextsAreShort }
{}
