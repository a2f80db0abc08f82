//! What the rules say of a part of a variable, and of what may be assigned.
ghost use Rattle.std.specs.Prelude.{◌≡◌, ◌||◌, ◌&&◌, map};
ghost use Rattle.std.specs.List.{list_any};
ghost use Rattle.st_values.specs.Words.{is_word};
ghost use Rattle.st_faults.specs.Faults.{offer_all};
ghost use Rattle.st_types.specs.Scopes.{scope_at};
ghost use Rattle.st_check_expressions.specs.Inside.{count_faults, is_kept, shape_misfit, whole_faults};
ghost use Rattle.st_check_expressions.specs.Variables.{field_faults, is_fixed, unknown_faults};

use crate::route::{Route, elem_of, elements, is_unknown, member};
use st_faults::{FirstFault, Rule};
use st_scopes::Scope;
use st_tree::tree::{Identifier, Position, Variable};
use st_types::{Purpose, Shape, Symbol, is_same_name};
use st_values::Elem;

/// Offers that a name isn't there.
#[tactic(auto, unfolding(st_faults::specs::Faults::offer_all))]
pub fn offer_unknown(unknown: Option<Position>, first: &mut FirstFault)
    ensures { first.new ≡ offer_all first.old (unknown_faults unknown) }
{
    if let Some(position) = unknown {
        // Typing rests on this rule in its cases `named`, `place` and `step`, and wherever else a place is due.
        first.offer(position, Rule::UnknownName);
    }
}

/// Offers the faults of a name behind a variable.
pub fn check_field(scope: &Scope<'_>, route: &Route<'_>, name: &Identifier, first: &mut FirstFault)
    ensures { first.new ≡ offer_all first.old (field_faults (scope_at scope.now)
        route.now name.now) }
{
    let is_there = is_unknown(route.shape.base)
        || member(scope, &route.shape, name).symbol.is_some();
    // Typing rests on this rule in its case `field`: a part that isn't there has no type.
    first.offer_when(!is_there, name.position, Rule::UnknownName);
}

/// Offers that so many subscripts at a position are not as many as the array has.
pub fn check_count(
    scope: &Scope<'_>,
    shape: &Shape<'_>,
    position: Position,
    count: usize,
    first: &mut FirstFault,
)
    ensures { first.new ≡ offer_all first.old (count_faults (scope_at scope.now)
        shape.now position count) }
{
    let fits = match elements(scope, shape) {
        Some(elements) => elements.subscripts.len() == count,
        None => is_unknown(shape.base),
    };
    // Typing rests on this rule in its case `element`: only with as many subscripts has the element a type.
    first.offer_when(!fits, position, Rule::TypeMismatch);
}

/// Offers that a variable isn't one value of the type that is due, or of any where that can't be known, in a part that begins
/// at `at`.
pub fn check_misfit(shape: &Shape<'_>, at: Position, due: Option<Elem>, first: &mut FirstFault)
    ensures { first.new ≡ offer_all first.old (shape_misfit shape.now at due) }
{
    match due {
        Some(due) => check_other(shape, at, due, first),
        None => check_whole(shape, at, first),
    }
}

/// Offers that a variable has another type than is due, or isn't one value, in a part that begins at `at`.
fn check_other(shape: &Shape<'_>, at: Position, due: Elem, first: &mut FirstFault)
    ensures { first.new ≡ offer_all first.old (shape_misfit shape.now at (Some due)) }
{
    let fits = match elem_of(shape) {
        Some(elem) => elem.is(due),
        None => is_unknown(shape.base),
    };
    // Typing rests on this rule in its cases `named`, `place` and `step`.
    first.offer_when(!fits, at, Rule::TypeMismatch);
}

/// Offers that a variable isn't one value.
pub fn check_whole(shape: &Shape<'_>, at: Position, first: &mut FirstFault)
    ensures { first.new ≡ offer_all first.old (whole_faults shape.now at) }
{
    let fits = is_unknown(shape.base) || elem_of(shape).is_some();
    // Typing rests on this rule in its cases `assignment` and `output`.
    first.offer_when(!fits, at, Rule::TypeMismatch);
}

/// Whether a name is that of a constant or an input.
fn is_fixed(symbol: Option<Symbol<'_>>) -> bool
    ensures { result ≡ is_fixed symbol.entry }
{
    match symbol {
        Some(symbol) => matches!(symbol.purpose, Purpose::Constant | Purpose::Input),
        None => false,
    }
}

/// Whether one of these is the name, ignoring case.
pub fn is_counted(counters: &[&[u8]], name: &[u8]) -> bool
    ensures { result ≡ list_any (λ n. is_word name.now n.now) counters.now }
{
    counters.iter().any(|counter| is_same_name(name, counter))
}

/// Whether a variable that is reached so takes no value, in loops that count these variables.
#[tactic(auto, using(crate::proofs::Counts::any_counted))]
pub fn is_kept(
    scope: &Scope<'_>,
    counters: &[&[u8]],
    variable: &Variable,
    route: &Route<'_>,
) -> bool
    ensures { result ≡ is_kept (scope_at scope.now) (map (λ n. n.now) counters.now)
        variable.now route.now }
{
    let name = variable.name.spelling.as_slice();
    is_fixed(scope.variable(name))
        || route.through
        || (variable.parts.is_empty() && is_counted(counters, name))
}
