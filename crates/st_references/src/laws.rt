//! Laws of orders.
ghost use Rattle.st_references.specs.Laws.{NoneReachesItself, ReachedIsBefore, ReferencesAreBefore};

/// In an order, what a row refers to stands at the places before it, and so does what it reaches. So a graph that has an
/// order has no row that reaches itself.
pub fn ordered_has_no_cycle()
    ensures places { ReferencesAreBefore }
    ensures reached { ReachedIsBefore }
    ensures none { NoneReachesItself }
{}
