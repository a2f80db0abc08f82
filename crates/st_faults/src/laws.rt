//! What the first of some faults is.
ghost use Rattle.st_faults.specs.Faults.{KeepsAnyFault, KeepsFirstFault};

/// What is kept of the faults that were offered is one of those at tokens from the start on, and none of those comes before it; and
/// where none is kept there was none of those.
pub fn kept_fault_is_the_first()
    ensures first { KeepsFirstFault }
    ensures none { KeepsAnyFault }
{}
