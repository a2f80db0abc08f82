//! Laws of the operators and the standard functions.
ghost use Rattle.st_operators.specs.Laws.{AbsolutesAreValues, ComplementsAreValues, ConversionsAreValues, GreatestAreValues, LeastAreValues, LimitedAreValues, OperatorsGiveValues, OppositesAreValues, RotationsLeftAreValues, RotationsRightAreValues, SelectedAreValues, ShiftsLeftAreValues, ShiftsRightAreValues, ZeroDivisorsAloneAreRefused, AndGoesBitByBit, NotGoesBitByBit, OrGoesBitByBit, QuotientAndRemainderAreTheDividend, RemainderHasTheDividendsSign, RemainderIsSmaller, RotationIsTakenBack, ShiftsLeftEndInZero, ShiftsRightEndInZero, WholeTurnLeftChangesNothing, WholeTurnRightChangesNothing, XorGoesBitByBit};

/// A zero divisor of `/` or `MOD` is refused, and nothing else.
pub fn zero_divisors_alone_are_refused()
    ensures { ZeroDivisorsAloneAreRefused }
{}

/// What an operator gives is a value of its type.
pub fn operators_give_values()
    ensures binary { OperatorsGiveValues }
    ensures opposite { OppositesAreValues }
    ensures complement { ComplementsAreValues }
{}

/// What a standard function gives is a value of its type.
pub fn functions_give_values()
    ensures absolute { AbsolutesAreValues }
    ensures least { LeastAreValues }
    ensures greatest { GreatestAreValues }
    ensures limited { LimitedAreValues }
    ensures selected { SelectedAreValues }
    ensures shifted_left { ShiftsLeftAreValues }
    ensures shifted_right { ShiftsRightAreValues }
    ensures rotated_left { RotationsLeftAreValues }
    ensures rotated_right { RotationsRightAreValues }
    ensures converted { ConversionsAreValues }
{}

/// `/` and `MOD` belong together, before their results wrap: a quotient times the divisor, and the remainder, are the dividend;
/// the remainder is smaller than the divisor and has the sign of the dividend.
pub fn division_leaves_its_remainder()
    ensures dividend { QuotientAndRemainderAreTheDividend }
    ensures smaller { RemainderIsSmaller }
    ensures sign { RemainderHasTheDividendsSign }
{}

/// `AND`, `OR`, `XOR` and `NOT` go bit by bit.
pub fn bits_are_taken_apart()
    ensures and { AndGoesBitByBit }
    ensures or { OrGoesBitByBit }
    ensures xor { XorGoesBitByBit }
    ensures not { NotGoesBitByBit }
{}

/// A shift by the width or more gives 0.
pub fn shifts_end_in_zero()
    ensures left { ShiftsLeftEndInZero }
    ensures right { ShiftsRightEndInZero }
{}

/// A rotation by the width gives the same value, and a rotation to the right takes the same rotation to the left back.
pub fn rotations_go_round()
    ensures left { WholeTurnLeftChangesNothing }
    ensures right { WholeTurnRightChangesNothing }
    ensures back { RotationIsTakenBack }
{}
