//! The calls in expressions.
ghost use Rattle.std.specs.Prelude.{◌≡◌, ◌++◌, map, OnOk};
ghost use Rattle.std.specs.List.{flat_map};
ghost use Rattle.st_references.specs.Callers.{called_by};
ghost use Rattle.st_references.specs.Calls.{all, argument_calls, call_calls, expression_calls, operation_calls, part_calls, variable_calls};

use crate::caller::Caller;
use st_tree::List;
use st_tree::tree::{Argument, Call, Expression, Operation, Part, Variable};
use std::alloc::AllocError;

/// Adds the functions that are called in an expression.
#[cycle(expression)]
#[tactic(auto, using(crate::proofs::Folds::chain_calls, crate::proofs::Rows::joined))]
pub fn add_expression(
    caller: &Caller<'_>,
    expression: &Expression,
    row: &mut List<usize>,
) -> Result<(), AllocError>
    ensures { OnOk result (row.new ≡ row.old ++ flat_map (called_by caller.now)
        (expression_calls expression.now)) }
{
    match expression {
        Expression::Constant(_) => {}
        Expression::Variable(variable) => add_variable(caller, variable, row)?,
        Expression::Call(call) => add_call(caller, call, row)?,
        Expression::Parenthesized(_, inner) => add_expression(caller, inner.get(), row)?,
        Expression::Negate(_, operand) => add_expression(caller, operand.get(), row)?,
        Expression::Not(_, operand) => add_expression(caller, operand.get(), row)?,
        Expression::Chain(_, first, operations) => {
            add_expression(caller, first.get(), row)?;
            add_operations(caller, operations.as_slice(), row)?;
        }
    }
    Ok(())
}

/// Adds the functions that are called in the operands behind operators.
#[cycle(expression)]
fn add_operations(
    caller: &Caller<'_>,
    operations: &[Operation],
    row: &mut List<usize>,
) -> Result<(), AllocError>
    ensures { OnOk result (row.new ≡ row.old ++ flat_map (called_by caller.now)
        (all (map operation_calls operations.now))) }
{
    'items: for item in operations {
        add_operation(caller, item, row)?;
    }
    Ok(())
}

/// Adds the functions that are called in the operand behind an operator.
#[cycle(expression)]
fn add_operation(
    caller: &Caller<'_>,
    operation: &Operation,
    row: &mut List<usize>,
) -> Result<(), AllocError>
    ensures { OnOk result (row.new ≡ row.old ++ flat_map (called_by caller.now)
        (operation_calls operation.now)) }
{
    add_expression(caller, &operation.operand, row)
}

/// Adds the functions that are called in the subscripts of a variable.
#[cycle(expression)]
pub fn add_variable(
    caller: &Caller<'_>,
    variable: &Variable,
    row: &mut List<usize>,
) -> Result<(), AllocError>
    ensures { OnOk result (row.new ≡ row.old ++ flat_map (called_by caller.now)
        (variable_calls variable.now)) }
{
    'items: for item in variable.parts.as_slice() {
        add_part(caller, item, row)?;
    }
    Ok(())
}

/// Adds the functions that are called in a part of a variable.
#[cycle(expression)]
fn add_part(caller: &Caller<'_>, part: &Part, row: &mut List<usize>) -> Result<(), AllocError>
    ensures { OnOk result (row.new ≡ row.old ++ flat_map (called_by caller.now)
        (part_calls part.now)) }
{
    match part {
        Part::Field(_) => Ok(()),
        Part::Subscripts(_, subscripts) => add_subscripts(caller, subscripts.as_slice(), row),
    }
}

/// Adds the functions that are called in subscripts.
#[cycle(expression)]
fn add_subscripts(
    caller: &Caller<'_>,
    subscripts: &[Expression],
    row: &mut List<usize>,
) -> Result<(), AllocError>
    ensures { OnOk result (row.new ≡ row.old ++ flat_map (called_by caller.now)
        (all (map expression_calls subscripts.now))) }
{
    'items: for item in subscripts {
        add_expression(caller, item, row)?;
    }
    Ok(())
}

/// Adds the function that is called, and those that are called in its arguments.
#[cycle(expression)]
pub fn add_call(caller: &Caller<'_>, call: &Call, row: &mut List<usize>) -> Result<(), AllocError>
    ensures { OnOk result (row.new ≡ row.old ++ flat_map (called_by caller.now)
        (call_calls call.now)) }
{
    caller.add_called(call.name.spelling.as_slice(), row)?;
    'items: for item in call.arguments.as_slice() {
        add_argument(caller, item, row)?;
    }
    Ok(())
}

/// Adds the functions that are called in an argument.
#[cycle(expression)]
fn add_argument(
    caller: &Caller<'_>,
    argument: &Argument,
    row: &mut List<usize>,
) -> Result<(), AllocError>
    ensures { OnOk result (row.new ≡ row.old ++ flat_map (called_by caller.now)
        (argument_calls argument.now)) }
{
    match argument {
        Argument::Positional(value) => add_expression(caller, value, row),
        Argument::Input(_, value) => add_expression(caller, value.get(), row),
        Argument::Output(_, variable) => add_variable(caller, variable.get(), row),
    }
}
