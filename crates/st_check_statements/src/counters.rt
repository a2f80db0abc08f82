//! The variable that FOR counts (3.3.2.4).
ghost use Rattle.std.specs.Prelude.{◌≡◌, map};
ghost use Rattle.st_faults.specs.Faults.{offer_all};
ghost use Rattle.st_types.specs.Scopes.{scope_at};
ghost use Rattle.st_check_expressions.specs.Variables.{is_fixed_purpose};
ghost use Rattle.st_check_statements.specs.Statements.{counter_due, counter_faults, counts, is_integer_type, may_count};

use st_check_expressions::{elem_due, elem_of, is_counted, is_unknown};
use st_faults::{FirstFault, Rule};
use st_operators::is_integer;
use st_scopes::Scope;
use st_tree::tree::Identifier;
use st_types::{Due, Purpose, Shape, Symbol};
use st_values::Elem;

/// Whether there is a type, and it is one of SINT to ULINT.
fn is_integer_type(elem: Option<Elem>) -> bool
    ensures { result ≡ is_integer_type elem }
{
    match elem {
        Some(elem) => is_integer(elem),
        None => false,
    }
}

/// Whether it is an integer variable, or can't be known.
fn counts(shape: &Shape<'_>) -> bool
    ensures { result ≡ counts shape.now }
{
    is_unknown(shape.base) || is_integer_type(elem_of(shape))
}

/// Whether a variable for this purpose keeps its value.
fn is_fixed_purpose(purpose: Purpose) -> bool
    ensures { result ≡ is_fixed_purpose purpose }
{
    matches!(purpose, Purpose::Constant | Purpose::Input)
}

/// Whether FOR may count the variable, in loops that count these.
#[tactic(auto, using(st_check_expressions::proofs::Counts::any_counted))]
fn may_count(counters: &[&[u8]], name: &[u8], symbol: &Symbol<'_>) -> bool
    ensures { result ≡ may_count (map (λ n. n.now) counters.now) name.now symbol.now }
{
    counts(&symbol.shape) && !is_fixed_purpose(symbol.purpose) && !is_counted(counters, name)
}

/// Offers the faults of FOR's variable, in loops that count these.
#[tactic(auto, unfolding(st_faults::specs::Faults::offer_all))]
pub fn check_counter(
    scope: &Scope<'_>,
    counters: &[&[u8]],
    name: &Identifier,
    first: &mut FirstFault,
)
    ensures { first.new ≡ offer_all first.old (counter_faults (map (λ n. n.now) counters.now)
        name.now ((scope_at scope.now).variable name.now.spelling)) }
{
    let spelling = name.spelling.as_slice();
    match scope.variable(spelling) {
        Some(symbol) => {
            let may_count = may_count(counters, spelling, &symbol);
            // Typing rests on this rule in its case `for_is`: an integer is counted, and no constant. No case rests on it for
            // inputs and for what a loop around counts.
            first.offer_when(!may_count, name.position, Rule::NotAssignable);
        }
        // Typing rests on this rule in its case `for_is`.
        None => first.offer(name.position, Rule::UnknownName),
    }
}

/// What is asked of FOR's first and last value and of its step.
pub fn counter_due(scope: &Scope<'_>, name: &Identifier) -> Due
    ensures { result ≡ counter_due ((scope_at scope.now).variable name.now.spelling) }
{
    match scope.variable(name.spelling.as_slice()) {
        Some(symbol) => symbol_due(&symbol),
        None => Due::Any,
    }
}

/// What is asked of what a variable counts.
fn symbol_due(symbol: &Symbol<'_>) -> Due
    ensures { result ≡ counter_due (Some symbol.now) }
{
    if !counts(&symbol.shape) {
        return Due::Any;
    }
    elem_due(elem_of(&symbol.shape))
}
