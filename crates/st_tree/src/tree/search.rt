//! Whether something stands in a tree.
ghost use Rattle.std.specs.Prelude.{◌≡◌, map};
ghost use Rattle.st_tree.specs.Trees.{any, case_has_exit, conditional_has_exit, element_has_exit, has_call, has_exit, if_has_exit, operation_has_call, part_has_call, variable_has_call};

use crate::tree::expression::{Expression, Operation, Part, Variable};
use crate::tree::statement::{CaseElement, CaseStatement, ConditionalPart, IfStatement, Statement};

/// Whether EXIT stands in the statement, outside the loops in it.
#[cycle(exit)]
pub fn has_exit(statement: &Statement) -> bool
    ensures { result ≡ has_exit statement.now }
{
    match statement {
        Statement::Exit(_) => true,
        Statement::If(found) => if_has_exit(found.get()),
        Statement::Case(found) => case_has_exit(found.get()),
        _ => false,
    }
}

#[cycle(exit)]
fn if_has_exit(statement: &IfStatement) -> bool
    ensures { result ≡ if_has_exit statement.now }
{
    any_conditional(statement.parts.as_slice()) || any_statement(statement.otherwise.as_slice())
}

#[cycle(exit)]
fn case_has_exit(statement: &CaseStatement) -> bool
    ensures { result ≡ case_has_exit statement.now }
{
    any_element(statement.cases.as_slice()) || any_statement(statement.otherwise.as_slice())
}

#[cycle(exit)]
fn any_statement(statements: &[Statement]) -> bool
    ensures { result ≡ any (map has_exit statements.now) }
{
    'items: for item in statements {
        if has_exit(item) {
            return true;
        }
    }
    false
}

#[cycle(exit)]
fn conditional_has_exit(part: &ConditionalPart) -> bool
    ensures { result ≡ conditional_has_exit part.now }
{
    any_statement(part.statements.as_slice())
}

#[cycle(exit)]
fn any_conditional(parts: &[ConditionalPart]) -> bool
    ensures { result ≡ any (map conditional_has_exit parts.now) }
{
    'items: for item in parts {
        if conditional_has_exit(item) {
            return true;
        }
    }
    false
}

#[cycle(exit)]
fn element_has_exit(element: &CaseElement) -> bool
    ensures { result ≡ element_has_exit element.now }
{
    any_statement(element.statements.as_slice())
}

#[cycle(exit)]
fn any_element(elements: &[CaseElement]) -> bool
    ensures { result ≡ any (map element_has_exit elements.now) }
{
    'items: for item in elements {
        if element_has_exit(item) {
            return true;
        }
    }
    false
}

/// Whether a call stands in the expression.
#[cycle(call)]
pub fn has_call(expression: &Expression) -> bool
    ensures { result ≡ has_call expression.now }
{
    match expression {
        Expression::Constant(_) => false,
        Expression::Variable(variable) => variable_has_call(variable),
        Expression::Call(_) => true,
        Expression::Parenthesized(_, inner) => has_call(inner.get()),
        Expression::Negate(_, operand) => has_call(operand.get()),
        Expression::Not(_, operand) => has_call(operand.get()),
        Expression::Chain(_, first, operations) => {
            has_call(first.get()) || any_operation(operations.as_slice())
        }
    }
}

#[cycle(call)]
fn any_operation(operations: &[Operation]) -> bool
    ensures { result ≡ any (map operation_has_call operations.now) }
{
    'items: for item in operations {
        if operation_has_call(item) {
            return true;
        }
    }
    false
}

#[cycle(call)]
fn operation_has_call(operation: &Operation) -> bool
    ensures { result ≡ operation_has_call operation.now }
{
    has_call(&operation.operand)
}

#[cycle(call)]
fn variable_has_call(variable: &Variable) -> bool
    ensures { result ≡ variable_has_call variable.now }
{
    any_part(variable.parts.as_slice())
}

#[cycle(call)]
fn any_part(parts: &[Part]) -> bool
    ensures { result ≡ any (map part_has_call parts.now) }
{
    'items: for item in parts {
        if part_has_call(item) {
            return true;
        }
    }
    false
}

#[cycle(call)]
fn part_has_call(part: &Part) -> bool
    ensures { result ≡ part_has_call part.now }
{
    match part {
        Part::Field(_) => false,
        Part::Subscripts(_, subscripts) => any_expression(subscripts.as_slice()),
    }
}

#[cycle(call)]
fn any_expression(expressions: &[Expression]) -> bool
    ensures { result ≡ any (map has_call expressions.now) }
{
    'items: for item in expressions {
        if has_call(item) {
            return true;
        }
    }
    false
}
