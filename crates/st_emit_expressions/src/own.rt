//! The types that expressions have by themselves.
ghost use Rattle.std.specs.Prelude.{◌≡◌, None, if◌then◌else◌};
ghost use Rattle.st_types.specs.OwnTypes.{or_lint};
ghost use Rattle.st_meaning.specs.Typing.{call_typed_in, place_of, typed, variable_typed};
ghost use Rattle.st_emit_expressions.specs.Calls.{counts, own_from, positionals, takes_number};
ghost use Rattle.st_emit_expressions.specs.Trees.{chain_of, ends_in_comparison, own_behind, own_joined, whole_of};
ghost use Rattle.std.specs.Prelude.{length};

use crate::functions::result_named;
use crate::places::{constant_named, place_type};
use crate::scope::Scope;
use crate::steps::step_type;
use st_operators::is_comparison;
use st_tree::tree::{Argument, Call, Expression, Operation, Variable};
use st_types::{Standard, StandardFunction, literal_own, or_lint, standard_of, types_call};
use st_values::Elem;

/// Whether the last operator compares.
pub(crate) fn ends_in_comparison(operations: &[Operation]) -> bool
    ensures { result ≡ ends_in_comparison operations.now }
{
    let count = operations.len();
    if count == 0 {
        return false;
    }
    let last = &operations[count - 1];
    is_comparison(last.operator)
}

/// Whether it takes so many arguments.
pub(crate) fn takes_number(standard: Standard, number: usize) -> bool
    ensures { result ≡ takes_number standard number }
{
    match standard {
        Standard::Function(StandardFunction::Abs) | Standard::Conversion(_, _) => number == 1,
        Standard::Function(StandardFunction::Min | StandardFunction::Max) => number != 0,
        Standard::Function(StandardFunction::Limit | StandardFunction::Sel) => number == 3,
        Standard::Function(_) => number == 2,
        Standard::Block(_) => false,
    }
}

/// Whether the own type of the argument of this number counts.
fn counts(standard: Standard, number: usize) -> bool
    ensures { result ≡ counts standard number }
{
    match standard {
        Standard::Function(function) => types_call(function, number == 0),
        Standard::Conversion(_, _) | Standard::Block(_) => false,
    }
}

/// How many arguments are given by position.
pub(crate) fn positional_count(scope: &Scope<'_>, arguments: &[Argument]) -> usize
    ensures { result ≡ length (positionals (whole_of scope.now) arguments.now) }
{
    let mut count = 0;
    for argument in arguments {
        match argument {
            Argument::Positional(_) => count += 1,
            Argument::Input(_, _) | Argument::Output(_, _) => {}
        }
    }
    count
}

/// The own type of a variable, of a part of a step, or of a constant.
fn own_of_variable(scope: &Scope<'_>, variable: &Variable) -> Option<Elem>
    ensures { result ≡ (variable_typed (whole_of scope.now)
        (place_of (whole_of scope.now) variable.now)).own }
{
    if let Some(value) = constant_named(scope, variable) {
        return Some(value.elem);
    }
    if let Some(elem) = place_type(scope, variable) {
        return Some(elem);
    }
    step_type(scope, variable)
}

/// The type that an expression has by itself.
#[cycle(own)]
pub(crate) fn own(scope: &Scope<'_>, expression: &Expression) -> Option<Elem>
    ensures { result ≡ (typed (whole_of scope.now) expression.now).own }
{
    match expression {
        Expression::Constant(literal) => literal_own(literal),
        Expression::Variable(variable) => own_of_variable(scope, variable),
        Expression::Call(call) => own_of_call(scope, call),
        Expression::Parenthesized(_, inner) => own(scope, inner.get()),
        Expression::Negate(_, operand) => own(scope, operand.get()),
        Expression::Not(_, operand) => own(scope, operand.get()),
        Expression::Chain(_, first, operations) => {
            let operations = operations.as_slice();
            if ends_in_comparison(operations) {
                return Some(Elem::Bool);
            }
            let first = own(scope, first.get());
            own_of_chain(scope, first, operations)
        }
    }
}

/// The own type of a chain whose first operand has this one.
#[cycle(own)]
fn own_of_chain(scope: &Scope<'_>, first: Option<Elem>, operations: &[Operation]) -> Option<Elem>
    ensures { result ≡ own_behind (whole_of scope.now) first operations.now }
{
    let mut found = first;
    for operation in operations {
        found = own_of_joined(scope, found, operation);
    }
    found
}

/// The own type behind one operand more.
#[cycle(own)]
fn own_of_joined(scope: &Scope<'_>, left: Option<Elem>, operation: &Operation) -> Option<Elem>
    ensures { result ≡ own_joined (whole_of scope.now) left operation.now }
{
    if is_comparison(operation.operator) {
        Some(Elem::Bool)
    } else if left.is_some() {
        left
    } else {
        own(scope, &operation.operand)
    }
}

/// The own type of a call.
#[cycle(own)]
fn own_of_call(scope: &Scope<'_>, call: &Call) -> Option<Elem>
    ensures { result ≡ (call_typed_in (whole_of scope.now) call.now).own }
{
    let arguments = call.arguments.as_slice();
    let name = call.name.spelling.as_slice();
    let Some(standard) = standard_of(name) else {
        return result_named(scope, name);
    };
    if !takes_number(standard, positional_count(scope, arguments)) {
        return None;
    }
    match standard {
        Standard::Function(_) => own_of_arguments(scope, standard, arguments),
        Standard::Conversion(_, to) => Some(to),
        Standard::Block(_) => None,
    }
}

/// The first own type of arguments that counts.
#[cycle(own)]
fn own_of_arguments(scope: &Scope<'_>, standard: Standard, arguments: &[Argument]) -> Option<Elem>
    ensures { result ≡ own_from standard 0 (positionals (whole_of scope.now) arguments.now) }
{
    let mut number = 0;
    for argument in arguments {
        match argument {
            Argument::Positional(expression) => {
                let found = own_of_argument(scope, counts(standard, number), expression);
                if found.is_some() {
                    return found;
                }
                number += 1;
            }
            Argument::Input(_, _) => {}
            Argument::Output(_, _) => {}
        }
    }
    None
}

/// The own type of an argument, where it counts.
#[cycle(own)]
fn own_of_argument(scope: &Scope<'_>, is_counted: bool, expression: &Expression) -> Option<Elem>
    ensures { result ≡ (if is_counted then (typed (whole_of scope.now) expression.now).own
        else None) }
{
    if is_counted {
        own(scope, expression)
    } else {
        None
    }
}

/// The own type of the first operands of a chain.
pub(crate) fn own_of_front(
    scope: &Scope<'_>,
    first: &Expression,
    operations: &[Operation],
) -> Option<Elem>
    ensures { result ≡ (chain_of (whole_of scope.now) first.now operations.now).own }
{
    if ends_in_comparison(operations) {
        return Some(Elem::Bool);
    }
    own_of_chain(scope, own(scope, first), operations)
}

/// The type of an expression where none is due.
pub fn own_or_lint(scope: &Scope<'_>, expression: &Expression) -> Elem
    ensures { result ≡ or_lint (typed (whole_of scope.now) expression.now).own }
{
    or_lint(own(scope, expression))
}
