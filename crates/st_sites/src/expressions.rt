//! The walk through expressions to a token.

use crate::due::{argument_due, inner_due, operand_due};
use crate::site::{Search, Site, position_of, stop_at};
use st_check_expressions::compares;
use st_scopes::Scope;
use st_tree::tree::{Argument, Call, Expression, Operation, Part, Position, Variable};
use st_types::{Callee, Due};
use st_values::Elem;
use std::alloc::Global;

/// What stands at the token of this number in an expression, of which this is due.
#[cycle(walk)]
pub fn in_expression<'t>(
    alloc: Global,
    scope: &Scope<'_>,
    at: u32,
    expression: &'t Expression,
    due: Due,
) -> Search<'t> {
    stop_at(
        at,
        position_of(expression),
        Site::Expression(expression, due),
    )?;
    match expression {
        Expression::Constant(_) => Ok(()),
        Expression::Variable(variable) => in_parts(alloc, scope, at, variable),
        Expression::Call(call) => in_call(alloc, scope, at, call, due),
        Expression::Parenthesized(_, inner)
        | Expression::Negate(_, inner)
        | Expression::Not(_, inner) => {
            let inside = inner_due(alloc, scope, expression, due)?;
            in_expression(alloc, scope, at, inner.get(), inside)
        }
        Expression::Chain(_, left, operations) => {
            let inside = inner_due(alloc, scope, expression, due)?;
            let operations = operations.as_slice();
            let inside = operand_due(alloc, scope, left.get(), operations, inside)?;
            in_expression(alloc, scope, at, left.get(), inside)?;
            in_operations(alloc, scope, at, operations, inside)
        }
    }
}

/// What stands at the token in operands behind operators, of the first of which this is due.
#[cycle(walk)]
fn in_operations<'t>(
    alloc: Global,
    scope: &Scope<'_>,
    at: u32,
    operations: &'t [Operation],
    due: Due,
) -> Search<'t> {
    let further = if compares(operations) {
        Due::Type(Elem::Bool)
    } else {
        due
    };
    let mut due = due;
    'operations: for operation in operations {
        in_operation(alloc, scope, at, operation, due)?;
        due = further;
    }
    Ok(())
}

/// What stands at the token in an operand behind an operator.
#[cycle(walk)]
fn in_operation<'t>(
    alloc: Global,
    scope: &Scope<'_>,
    at: u32,
    operation: &'t Operation,
    due: Due,
) -> Search<'t> {
    in_expression(alloc, scope, at, &operation.operand, due)
}

/// What stands at the token in the parts of a variable.
#[cycle(walk)]
pub fn in_parts<'t>(
    alloc: Global,
    scope: &Scope<'_>,
    at: u32,
    variable: &'t Variable,
) -> Search<'t> {
    'parts: for (number, part) in variable.parts.as_slice().iter().enumerate() {
        stop_at(at, part_position(part), Site::Part(variable, number))?;
        in_part(alloc, scope, at, part)?;
    }
    Ok(())
}

/// Where a part is named.
fn part_position(part: &Part) -> Position {
    match part {
        Part::Field(name) => name.position,
        Part::Subscripts(position, _) => *position,
    }
}

/// What stands at the token in a part of a variable.
#[cycle(walk)]
fn in_part<'t>(alloc: Global, scope: &Scope<'_>, at: u32, part: &'t Part) -> Search<'t> {
    match part {
        Part::Field(_) => Ok(()),
        Part::Subscripts(_, subscripts) => in_subscripts(alloc, scope, at, subscripts.as_slice()),
    }
}

/// What stands at the token in subscripts.
#[cycle(walk)]
fn in_subscripts<'t>(
    alloc: Global,
    scope: &Scope<'_>,
    at: u32,
    subscripts: &'t [Expression],
) -> Search<'t> {
    'subscripts: for subscript in subscripts {
        in_expression(alloc, scope, at, subscript, Due::Integer)?;
    }
    Ok(())
}

/// What stands at the token in the arguments of a call, of which this is due.
#[cycle(walk)]
pub fn in_call<'t>(
    alloc: Global,
    scope: &Scope<'_>,
    at: u32,
    call: &'t Call,
    due: Due,
) -> Search<'t> {
    let callee = scope.callee(call.name.spelling.as_slice());
    'arguments: for (number, argument) in call.arguments.as_slice().iter().enumerate() {
        let asked = argument_due(scope, &callee, argument, number, due);
        in_argument(alloc, scope, at, argument, asked)?;
    }
    Ok(())
}

/// What stands at the token in an argument, of which this is due.
#[cycle(walk)]
fn in_argument<'t>(
    alloc: Global,
    scope: &Scope<'_>,
    at: u32,
    argument: &'t Argument,
    due: Due,
) -> Search<'t> {
    match argument {
        Argument::Positional(value) => in_expression(alloc, scope, at, value, due),
        Argument::Input(_, value) => in_expression(alloc, scope, at, value.get(), due),
        Argument::Output(_, variable) => in_target(alloc, scope, at, variable.get()),
    }
}

/// What stands at the token in a variable that takes a value.
#[cycle(walk)]
pub fn in_target<'t>(
    alloc: Global,
    scope: &Scope<'_>,
    at: u32,
    variable: &'t Variable,
) -> Search<'t> {
    stop_at(at, variable.name.position, Site::Target(variable))?;
    in_parts(alloc, scope, at, variable)
}
