//! The inputs and outputs of an instance (2.5.2.2).
ghost use Rattle.std.specs.Prelude.{◌≡◌, ◌&&◌};
ghost use Rattle.st_faults.specs.Faults.{offer_all};
ghost use Rattle.st_types.specs.Scopes.{scope_at, shape_due};
ghost use Rattle.st_check_statements.specs.Invocations.{are_other, input_due, is_input, is_input_purpose, is_other, is_output, is_output_purpose, pin, taker_faults};

use st_check_expressions::{elem_of, is_unknown};
use st_faults::{FirstFault, Rule};
use st_scopes::Scope;
use st_tree::tree::{Identifier, Position};
use st_types::{Base, Due, Purpose, Shape, Symbol};
use st_values::Elem;

/// What stands for a name in an instance.
fn pin<'a>(scope: &Scope<'a>, base: Base, name: &Identifier) -> Option<Symbol<'a>>
    ensures { result ≡ pin (scope_at scope.now) base name.now }
{
    scope.member(base, name.spelling.as_slice()).symbol
}

/// Whether it is for an input.
fn is_input_purpose(purpose: Purpose) -> bool
    ensures { result ≡ is_input_purpose purpose }
{
    matches!(purpose, Purpose::Input)
}

/// Whether it is for an output.
fn is_output_purpose(purpose: Purpose) -> bool
    ensures { result ≡ is_output_purpose purpose }
{
    matches!(purpose, Purpose::Output)
}

/// Whether a name is that of an input.
pub fn is_input(scope: &Scope<'_>, base: Base, name: &Identifier) -> bool
    ensures { result ≡ is_input (pin (scope_at scope.now) base name.now) }
{
    match pin(scope, base, name) {
        Some(symbol) => is_input_purpose(symbol.purpose),
        None => false,
    }
}

/// Whether a name is that of an output.
pub fn is_output(scope: &Scope<'_>, base: Base, name: &Identifier) -> bool
    ensures { result ≡ is_output (pin (scope_at scope.now) base name.now) }
{
    match pin(scope, base, name) {
        Some(symbol) => is_output_purpose(symbol.purpose),
        None => false,
    }
}

/// What is asked of what goes into a variable.
fn shape_due(shape: &Shape<'_>) -> Due
    ensures { result ≡ shape_due shape.now }
{
    if is_unknown(shape.base) {
        return Due::Any;
    }
    match elem_of(shape) {
        Some(elem) => Due::Type(elem),
        None => Due::NoValue,
    }
}

/// What is asked of a value that goes into an input of this name.
pub fn input_due(scope: &Scope<'_>, base: Base, name: &Identifier) -> Due
    ensures { result ≡ input_due (pin (scope_at scope.now) base name.now) }
{
    match pin(scope, base, name) {
        Some(symbol) => symbol_due(&symbol),
        None => Due::Any,
    }
}

/// What is asked of a value that goes into what an input's name stands for.
fn symbol_due(symbol: &Symbol<'_>) -> Due
    ensures { result ≡ input_due (Some symbol.now) }
{
    if is_input_purpose(symbol.purpose) {
        shape_due(&symbol.shape)
    } else {
        Due::Any
    }
}

/// Whether there is a type, and it is another than the output's.
fn are_other(target: Option<Elem>, output: Option<Elem>) -> bool
    ensures { result ≡ are_other target output }
{
    match (target, output) {
        (None, _) => false,
        (Some(_), None) => true,
        (Some(target), Some(output)) => !target.is(output),
    }
}

/// Whether what takes an output is one value of another type than the output.
fn is_other(target: &Shape<'_>, output: &Shape<'_>) -> bool
    ensures { result ≡ is_other target.now output.now }
{
    if is_unknown(target.base) || is_unknown(output.base) {
        return false;
    }
    are_other(elem_of(target), elem_of(output))
}

/// Offers the fault of a variable at `position`, which takes the output of this name.
#[tactic(auto, unfolding(st_faults::specs::Faults::offer_all))]
pub fn check_taker(
    scope: &Scope<'_>,
    base: Base,
    name: &Identifier,
    position: Position,
    target: &Shape<'_>,
    first: &mut FirstFault,
)
    ensures { first.new ≡ offer_all first.old (taker_faults position target.now
        (pin (scope_at scope.now) base name.now)) }
{
    if let Some(symbol) = pin(scope, base, name) {
        let is_broken = is_output_purpose(symbol.purpose) && is_other(target, &symbol.shape);
        // Typing rests on this rule in its case `output`.
        first.offer_when(is_broken, position, Rule::TypeMismatch);
    }
}
