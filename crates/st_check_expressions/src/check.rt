//! The walk: each function offers the faults of its node.
#![tactic(auto, unfolding(st_faults::specs::Faults::offer_all), using(st_faults::proofs::Least::offer_append))]

ghost use Rattle.std.specs.Prelude.{◌≡◌, IfOk, OnOk, map};
ghost use Rattle.st_faults.specs.Faults.{offer_all};
ghost use Rattle.st_types.specs.Scopes.{elem_due, scope_at};
ghost use Rattle.st_check_expressions.specs.Calls.{argument_faults, arguments_faults, value_of_call};
ghost use Rattle.st_check_expressions.specs.Inside.{operands_from};
ghost use Rattle.st_check_expressions.specs.Known.{faults_as, faults_due, faults_here};
ghost use Rattle.st_check_expressions.specs.Variables.{part_faults, parts_faults, select_all, subscripts_faults, target_faults};
ghost use Rattle.st_check_expressions.specs.Walk.{known, known_argument, known_arguments, known_call, known_expressions, known_operation, known_operations, known_part, known_parts, known_variable};

use crate::calls::{call_rule, elem_due, fits_call, name_due, offer_broken, position_due};
use crate::literals::check_literal;
use crate::operators::{complements_due, fits_chain, further_type, negates_due};
use crate::own::{chain_type, due_type, meets, position};
use crate::route::{Route, Start, select, start_of};
use crate::variables::{
    check_count, check_field, check_misfit, check_whole, is_kept, offer_unknown,
};
use st_faults::{FirstFault, Rule};
use st_scopes::Scope;
use st_tree::tree::{Argument, Call, Expression, Operation, Part, Position, Variable};
use st_types::{Callee, Due, Shape};
use st_values::Elem;
use std::alloc::{AllocError, Global};

/// Offers the faults of an expression, where this is due.
#[cycle(check)]
pub fn check_expression(
    alloc: Global,
    scope: &Scope<'_>,
    expression: &Expression,
    due: Due,
    first: &mut FirstFault,
) -> Result<(), AllocError>
    ensures { OnOk result (first.new ≡ offer_all first.old
        (faults_as (known (scope_at scope.now) expression.now) due)) }
{
    let elem = due_type(scope, expression, due);
    let position = position(expression);
    check_at(alloc, scope, expression, position, elem, first)?;
    let fits = meets(alloc, scope, expression, due)?;
    // Typing rests on this rule in its cases `subscript`, `case_is` and `shifted`, where an integer is due, and in `input`.
    first.offer_when(!fits, position, Rule::TypeMismatch);
    Ok(())
}

/// Offers the faults of an expression in a part that begins at `at`, where a type is due, or one that can't be known.
#[cycle(check)]
fn check_at(
    alloc: Global,
    scope: &Scope<'_>,
    expression: &Expression,
    at: Position,
    due: Option<Elem>,
    first: &mut FirstFault,
) -> Result<(), AllocError>
    ensures { OnOk result (first.new ≡ offer_all first.old
        (faults_due (known (scope_at scope.now) expression.now) at due)) }
{
    match expression {
        Expression::Constant(literal) => check_literal(literal, at, due, first),
        Expression::Variable(variable) => {
            let route = check_variable(alloc, scope, variable, first)?;
            check_misfit(&route.shape, at, due, first);
        }
        Expression::Call(call) => check_call(alloc, scope, call, at, due, first)?,
        Expression::Parenthesized(_, inner) => check_at(alloc, scope, inner.get(), at, due, first)?,
        Expression::Negate(_, operand) => {
            check_operand(alloc, scope, operand.get(), due, first)?;
            // Typing rests on this rule in its case `negate`.
            first.offer_when(!negates_due(due), at, Rule::TypeMismatch);
        }
        Expression::Not(_, operand) => {
            check_operand(alloc, scope, operand.get(), due, first)?;
            // Typing rests on this rule in its case `complement`.
            first.offer_when(!complements_due(due), at, Rule::TypeMismatch);
        }
        Expression::Chain(_, left, operations) => {
            let operations = operations.as_slice();
            let operand_due = chain_type(scope, left.get(), operations, due);
            check_operand(alloc, scope, left.get(), operand_due, first)?;
            let further_due = further_type(operations, operand_due);
            check_operations(alloc, scope, operations, operand_due, further_due, first)?;
            // Typing rests on this rule in its cases `combination` and `comparison`.
            first.offer_when(!fits_chain(operations, due), at, Rule::TypeMismatch);
        }
    }
    Ok(())
}

/// Offers the faults of an operand, where a type is due, or one that can't be known.
#[cycle(check)]
fn check_operand(
    alloc: Global,
    scope: &Scope<'_>,
    operand: &Expression,
    due: Option<Elem>,
    first: &mut FirstFault,
) -> Result<(), AllocError>
    ensures { OnOk result (first.new ≡ offer_all first.old
        (faults_here (known (scope_at scope.now) operand.now) due)) }
{
    let position = position(operand);
    check_at(alloc, scope, operand, position, due, first)?;
    Ok(())
}

/// Offers the faults of an operand behind an operator, where a type is due, or one that can't be known.
#[cycle(check)]
fn check_operation(
    alloc: Global,
    scope: &Scope<'_>,
    operation: &Operation,
    due: Option<Elem>,
    first: &mut FirstFault,
) -> Result<(), AllocError>
    ensures { OnOk result (first.new ≡ offer_all first.old
        (faults_here (known_operation (scope_at scope.now) operation.now).operand due)) }
{
    check_operand(alloc, scope, &operation.operand, due, first)?;
    Ok(())
}

/// Offers the faults of operands behind operators: the first is taken at `due`, and each further one at `further_due`.
#[cycle(check)]
fn check_operations(
    alloc: Global,
    scope: &Scope<'_>,
    operations: &[Operation],
    due: Option<Elem>,
    further_due: Option<Elem>,
    first: &mut FirstFault,
) -> Result<(), AllocError>
    ensures { OnOk result (first.new ≡ offer_all first.old
        (operands_from (known_operations (scope_at scope.now) operations.now) due further_due)) }
{
    let mut due = due;
    'operations: for operation in operations {
        check_operation(alloc, scope, operation, due, first)?;
        due = further_due;
    }
    Ok(())
}

/// Offers the faults of subscripts, which are integers.
#[cycle(check)]
fn check_subscripts(
    alloc: Global,
    scope: &Scope<'_>,
    subscripts: &[Expression],
    first: &mut FirstFault,
) -> Result<(), AllocError>
    ensures { OnOk result (first.new ≡ offer_all first.old
        (subscripts_faults (known_expressions (scope_at scope.now) subscripts.now))) }
{
    'subscripts: for subscript in subscripts {
        check_expression(alloc, scope, subscript, Due::Integer, first)?;
    }
    Ok(())
}

/// Offers the faults of a part behind what is reached.
#[cycle(check)]
fn check_part(
    alloc: Global,
    scope: &Scope<'_>,
    route: &Route<'_>,
    part: &Part,
    first: &mut FirstFault,
) -> Result<(), AllocError>
    ensures { OnOk result (first.new ≡ offer_all first.old
        (part_faults (scope_at scope.now) route.now (known_part (scope_at scope.now) part.now))) }
{
    match part {
        Part::Field(name) => check_field(scope, route, name, first),
        Part::Subscripts(position, subscripts) => {
            check_count(scope, &route.shape, *position, subscripts.len(), first);
            check_subscripts(alloc, scope, subscripts.as_slice(), first)?;
        }
    }
    Ok(())
}

/// Offers the faults of the parts behind what is reached, and answers what they reach.
#[cycle(check)]
fn check_parts<'a>(
    alloc: Global,
    scope: &Scope<'a>,
    route: Route<'a>,
    parts: &[Part],
    first: &mut FirstFault,
) -> Result<Route<'a>, AllocError>
    ensures route { IfOk result
        (λ reached. reached ≡ select_all (scope_at scope.now)
        route.entry (known_parts (scope_at scope.now) parts.now)) }
    ensures first { OnOk result
        (first.new ≡ offer_all first.old (parts_faults (scope_at scope.now)
        route.entry (known_parts (scope_at scope.now) parts.now))) }
{
    let mut route = route;
    'parts: for part in parts {
        check_part(alloc, scope, &route, part, first)?;
        route = select(scope, &route, part);
    }
    Ok(route)
}

/// Offers the faults of a variable with its parts, and answers what it reaches.
#[cycle(check)]
fn check_variable<'a>(
    alloc: Global,
    scope: &Scope<'a>,
    variable: &Variable,
    first: &mut FirstFault,
) -> Result<Route<'a>, AllocError>
    ensures route { IfOk result
        (λ route. route ≡ (known_variable (scope_at scope.now) variable.now).reached) }
    ensures first { OnOk result
        (first.new ≡ offer_all first.old (known_variable (scope_at scope.now)
        variable.now).faults) }
{
    let Start {
        route,
        unknown,
        taken,
    } = start_of(scope, variable);
    offer_unknown(unknown, first);
    let parts = &variable.parts.as_slice()[taken..];
    let route = check_parts(alloc, scope, route, parts, first)?;
    Ok(route)
}

/// Offers the faults of a variable that takes a value, in loops that count these variables, and answers what it is.
#[cycle(check)]
pub fn check_target<'a>(
    alloc: Global,
    scope: &Scope<'a>,
    counters: &[&[u8]],
    variable: &Variable,
    first: &mut FirstFault,
) -> Result<Shape<'a>, AllocError>
    ensures shape { IfOk result
        (λ shape. shape ≡ (known_variable (scope_at scope.now) variable.now).reached.shape) }
    ensures first { OnOk result
        (first.new ≡ offer_all first.old (target_faults (map (λ n. n.now) counters.now)
        (known_variable (scope_at scope.now) variable.now))) }
{
    let route = check_variable(alloc, scope, variable, first)?;
    let at = variable.name.position;
    check_whole(&route.shape, at, first);
    let is_kept = is_kept(scope, counters, variable, &route);
    // Typing rests on this rule in its cases `assignment` and `output`: a constant and a part of a step are no places. No case
    // rests on it for inputs, for members of instances and for what a loop counts.
    first.offer_when(is_kept, at, Rule::NotAssignable);
    Ok(route.shape)
}

/// Offers the faults of a call in a part that begins at `at`, where a type is due, or one that can't be known.
#[cycle(check)]
fn check_call(
    alloc: Global,
    scope: &Scope<'_>,
    call: &Call,
    at: Position,
    due: Option<Elem>,
    first: &mut FirstFault,
) -> Result<(), AllocError>
    ensures { OnOk result (first.new ≡ offer_all first.old
        (faults_due (value_of_call (scope_at scope.now) (known_call (scope_at scope.now) call.now))
        at due)) }
{
    let callee = scope.callee(call.name.spelling.as_slice());
    let arguments = call.arguments.as_slice();
    let rule = call_rule(alloc, &callee, arguments)?;
    offer_broken(rule, call.name.position, first);
    check_arguments(alloc, scope, &callee, elem_due(due), arguments, first)?;
    let fits = fits_call(&callee, rule, due);
    // Typing rests on this rule in its cases `absolute`, `shifted`, `conversion` and `own`.
    first.offer_when(!fits, at, Rule::TypeMismatch);
    Ok(())
}

/// Offers the faults of the arguments of a call of which `whole` is asked.
#[cycle(check)]
pub fn check_arguments(
    alloc: Global,
    scope: &Scope<'_>,
    callee: &Callee<'_>,
    whole: Due,
    arguments: &[Argument],
    first: &mut FirstFault,
) -> Result<(), AllocError>
    ensures { OnOk result (first.new ≡ offer_all first.old
        (arguments_faults callee.now whole 0
        (known_arguments (scope_at scope.now) arguments.now))) }
{
    'arguments: for (number, argument) in arguments.iter().enumerate() {
        check_argument(alloc, scope, callee, whole, number, argument, first)?;
    }
    Ok(())
}

/// Offers the faults of the argument of this number, from 0, in a call of which `whole` is asked.
#[cycle(check)]
fn check_argument(
    alloc: Global,
    scope: &Scope<'_>,
    callee: &Callee<'_>,
    whole: Due,
    number: usize,
    argument: &Argument,
    first: &mut FirstFault,
) -> Result<(), AllocError>
    ensures { OnOk result (first.new ≡ offer_all first.old
        (argument_faults callee.now whole number
        (known_argument (scope_at scope.now) argument.now))) }
{
    match argument {
        Argument::Positional(expression) => {
            let due = position_due(callee, whole, number);
            check_expression(alloc, scope, expression, due, first)?;
        }
        Argument::Input(name, expression) => {
            let due = name_due(callee, name);
            check_expression(alloc, scope, expression.get(), due, first)?;
        }
        Argument::Output(_, variable) => {
            check_target(alloc, scope, &[], variable.get(), first)?;
        }
    }
    Ok(())
}
