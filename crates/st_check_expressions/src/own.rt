//! What is known of an expression before its type is due: where it begins, its own type, and whether that can be known.
ghost use Rattle.std.specs.Prelude.{◌≡◌, IfOk, None};
ghost use Rattle.st_types.specs.OwnTypes.{call_own, compared_type, first_own, standard_own};
ghost use Rattle.st_types.specs.Scopes.{scope_at};
ghost use Rattle.st_check_expressions.specs.Calls.{owns_in};
ghost use Rattle.st_check_expressions.specs.Inside.{argument_own, chain_type, due_elem, meets};
ghost use Rattle.st_check_expressions.specs.Known.{alone, owns_of, selected};
ghost use Rattle.st_check_expressions.specs.Nodes.{position_of};
ghost use Rattle.st_check_expressions.specs.Walk.{known, known_argument, known_arguments, known_operation, known_operations};

use crate::arguments::is_positional;
use crate::calls::is_unknown_call;
use crate::literals::{is_misstated, literal_position};
use crate::operators::compares;
use crate::route::{elem_of, is_unknown, reach};
use st_operators::is_integer;
use st_scopes::Scope;
use st_tree::tree::{Argument, Call, Expression, Operation, Position};
use st_types::{Callee, Due, StandardFunction, literal_own, or_lint, types_call};
use st_values::Elem;
use std::alloc::{AllocError, Global};

/// Where an expression begins.
pub fn position(expression: &Expression) -> Position
    ensures { result ≡ position_of expression.now }
{
    match expression {
        Expression::Constant(literal) => literal_position(literal),
        Expression::Variable(variable) => variable.name.position,
        Expression::Call(call) => call.name.position,
        Expression::Parenthesized(position, _)
        | Expression::Negate(position, _)
        | Expression::Not(position, _)
        | Expression::Chain(position, _, _) => *position,
    }
}

/// The type that an expression has by itself.
#[cycle(own)]
#[tactic(auto, using(crate::proofs::Owns::own_call))]
fn own(scope: &Scope<'_>, expression: &Expression) -> Option<Elem>
    ensures { result ≡ (known (scope_at scope.now) expression.now).own }
{
    match expression {
        Expression::Constant(literal) => literal_own(literal),
        Expression::Variable(variable) => elem_of(&reach(scope, variable).shape),
        Expression::Call(call) => own_of_call(scope, call),
        Expression::Parenthesized(_, inner) => own(scope, inner.get()),
        Expression::Negate(_, operand) => own(scope, operand.get()),
        Expression::Not(_, operand) => own(scope, operand.get()),
        Expression::Chain(_, left, operations) => {
            if compares(operations.as_slice()) {
                return Some(Elem::Bool);
            }
            let found = own(scope, left.get());
            if found.is_some() {
                return found;
            }
            own_of_operations(scope, operations.as_slice())
        }
    }
}

/// The own type of an operand.
#[cycle(own)]
fn own_of_operand(scope: &Scope<'_>, operation: &Operation) -> Option<Elem>
    ensures { result ≡ (known_operation (scope_at scope.now) operation.now).operand.own }
{
    own(scope, &operation.operand)
}

/// The first own type of operands behind operators.
#[cycle(own)]
fn own_of_operations(scope: &Scope<'_>, operations: &[Operation]) -> Option<Elem>
    ensures { result ≡ first_own (owns_of (known_operations (scope_at scope.now) operations.now)) }
{
    'operations: for operation in operations {
        let found = own_of_operand(scope, operation);
        if found.is_some() {
            return found;
        }
    }
    None
}

/// The own type of a call.
#[cycle(own)]
fn own_of_call(scope: &Scope<'_>, call: &Call) -> Option<Elem>
    ensures { result ≡ call_own ((scope_at scope.now).callee call.now.name.spelling)
        (owns_in (known_arguments (scope_at scope.now) call.now.arguments)) }
{
    match scope.callee(call.name.spelling.as_slice()) {
        Callee::Standard(function) => {
            own_of_arguments(scope, function, call.arguments.as_slice())
        }
        Callee::Conversion(_, to) => Some(to),
        Callee::Own(signature) => Some(signature.result()),
        _ => None,
    }
}

/// The own type of a call of a standard function with these arguments.
#[cycle(own)]
fn own_of_arguments(
    scope: &Scope<'_>,
    function: StandardFunction,
    arguments: &[Argument],
) -> Option<Elem>
    ensures { result ≡ standard_own function
        (owns_in (known_arguments (scope_at scope.now) arguments.now)) }
{
    let mut is_first = true;
    'arguments: for argument in arguments {
        let found = own_of_argument(scope, function, is_first, argument);
        if found.is_some() {
            return found;
        }
        is_first = is_first && !is_positional(argument);
    }
    None
}

/// The own type of an argument by position, the first or not, where that is the type of the call.
#[cycle(own)]
fn own_of_argument(
    scope: &Scope<'_>,
    function: StandardFunction,
    is_first: bool,
    argument: &Argument,
) -> Option<Elem>
    ensures { result ≡ argument_own function is_first
        (known_argument (scope_at scope.now) argument.now) }
{
    if !types_call(function, is_first) {
        return None;
    }
    match argument {
        Argument::Positional(expression) => own(scope, expression),
        _ => None,
    }
}

/// The type that an expression has without context: its own, or else LINT.
pub fn own_type(scope: &Scope<'_>, expression: &Expression) -> Elem
    ensures { result ≡ alone (known (scope_at scope.now) expression.now) }
{
    or_lint(own(scope, expression))
}

/// The type at which the two sides of a comparison are taken: the first own type of the two, or else LINT.
fn compared_type(scope: &Scope<'_>, left: &Expression, operations: &[Operation]) -> Elem
    ensures { result ≡ compared_type (known (scope_at scope.now) left.now).own
        (owns_of (known_operations (scope_at scope.now) operations.now)) }
{
    if let Some(elem) = own(scope, left) {
        return elem;
    }
    match operations.first() {
        Some(operation) => or_lint(own_of_operand(scope, operation)),
        None => Elem::Lint,
    }
}

/// The type at which the operands of a chain are taken, where this type is due of the whole, if it can be known.
#[tactic(auto, using(crate::proofs::Nodes::operators_known))]
pub fn chain_type(
    scope: &Scope<'_>,
    left: &Expression,
    operations: &[Operation],
    due: Option<Elem>,
) -> Option<Elem>
    ensures { result ≡ chain_type (known (scope_at scope.now) left.now)
        (known_operations (scope_at scope.now) operations.now) due }
{
    if compares(operations) {
        Some(compared_type(scope, left, operations))
    } else {
        due
    }
}

/// The type of the labels of a selector: its own, or else LINT, if it can be known.
pub fn selected_type(
    alloc: Global,
    scope: &Scope<'_>,
    selector: &Expression,
) -> Result<Option<Elem>, AllocError>
    ensures { IfOk result (λ elem. elem ≡ selected (known (scope_at scope.now) selector.now)) }
{
    let found = own(scope, selector);
    if found.is_none() && fits_all(alloc, scope, selector)? {
        return Ok(None);
    }
    Ok(Some(or_lint(found)))
}

/// Whether the type of an expression can't be known, for a fault of its own.
#[tactic(auto, using(crate::proofs::Owns::fits_call))]
pub fn fits_all(
    alloc: Global,
    scope: &Scope<'_>,
    expression: &Expression,
) -> Result<bool, AllocError>
    ensures { IfOk result (λ fits. fits ≡ (known (scope_at scope.now) expression.now).fits_all) }
{
    match expression {
        Expression::Constant(literal) => Ok(is_misstated(literal)),
        Expression::Variable(variable) => Ok(is_unknown(reach(scope, variable).shape.base)),
        Expression::Call(call) => {
            let callee = scope.callee(call.name.spelling.as_slice());
            let is_unknown = is_unknown_call(alloc, &callee, call.arguments.as_slice())?;
            Ok(is_unknown)
        }
        Expression::Parenthesized(_, inner) => fits_all(alloc, scope, inner.get()),
        Expression::Negate(_, _) | Expression::Not(_, _) => Ok(false),
        Expression::Chain(_, _, _) => Ok(false),
    }
}

/// The type at which an expression is taken where this is due, if it can be known.
pub fn due_type(scope: &Scope<'_>, expression: &Expression, due: Due) -> Option<Elem>
    ensures { result ≡ due_elem (known (scope_at scope.now) expression.now) due }
{
    match due {
        Due::Type(elem) => Some(elem),
        Due::Any => own(scope, expression),
        Due::Integer | Due::NoValue => Some(own_type(scope, expression)),
    }
}

/// Whether an expression meets what is due, besides the type at which it is taken.
pub fn meets(
    alloc: Global,
    scope: &Scope<'_>,
    expression: &Expression,
    due: Due,
) -> Result<bool, AllocError>
    ensures { IfOk result (λ fits. fits ≡ meets (known (scope_at scope.now) expression.now) due) }
{
    match due {
        Due::Any | Due::Type(_) => Ok(true),
        Due::Integer => {
            if is_integer(own_type(scope, expression)) {
                return Ok(true);
            }
            fits_all(alloc, scope, expression)
        }
        Due::NoValue => fits_all(alloc, scope, expression),
    }
}
