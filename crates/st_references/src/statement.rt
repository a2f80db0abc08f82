//! The calls in statements.
ghost use Rattle.std.specs.Prelude.{◌≡◌, ◌++◌, map, OnOk};
ghost use Rattle.std.specs.List.{flat_map};
ghost use Rattle.st_references.specs.Callers.{called_by};
ghost use Rattle.st_references.specs.Calls.{all, case_calls, case_element_calls, conditional_calls, for_calls, if_calls, optional_calls, repeat_calls, statement_calls, while_calls};

use crate::caller::Caller;
use crate::expression::{add_call, add_expression, add_variable};
use st_tree::tree::{
    CaseElement, CaseStatement, ConditionalPart, Expression, ForStatement, IfStatement,
    RepeatStatement, Statement, WhileStatement,
};
use st_tree::{Boxed, List};
use std::alloc::AllocError;

/// Adds the functions that are called in statements.
#[cycle(statement)]
pub fn add_statements(
    caller: &Caller<'_>,
    statements: &[Statement],
    row: &mut List<usize>,
) -> Result<(), AllocError>
    ensures { OnOk result (row.new ≡ row.old ++ flat_map (called_by caller.now)
        (all (map statement_calls statements.now))) }
{
    'items: for item in statements {
        add_statement(caller, item, row)?;
    }
    Ok(())
}

/// Adds the functions that are called in a statement.
#[cycle(statement)]
#[tactic(auto, using(crate::proofs::Folds::assignment_calls, crate::proofs::Rows::joined))]
fn add_statement(
    caller: &Caller<'_>,
    statement: &Statement,
    row: &mut List<usize>,
) -> Result<(), AllocError>
    ensures { OnOk result (row.new ≡ row.old ++ flat_map (called_by caller.now)
        (statement_calls statement.now)) }
{
    match statement {
        Statement::Empty(_) | Statement::Return(_) | Statement::Exit(_) => {}
        Statement::Assignment(variable, value) => {
            add_variable(caller, variable.get(), row)?;
            add_expression(caller, value.get(), row)?;
        }
        Statement::Call(call) => add_call(caller, call.get(), row)?,
        Statement::If(found) => add_if(caller, found.get(), row)?,
        Statement::Case(found) => add_case(caller, found.get(), row)?,
        Statement::For(found) => add_for(caller, found.get(), row)?,
        Statement::While(found) => add_while(caller, found.get(), row)?,
        Statement::Repeat(found) => add_repeat(caller, found.get(), row)?,
    }
    Ok(())
}

/// Adds the functions that are called in IF.
#[cycle(statement)]
#[tactic(auto, using(crate::proofs::Folds::if_calls_are, crate::proofs::Rows::joined))]
fn add_if(
    caller: &Caller<'_>,
    statement: &IfStatement,
    row: &mut List<usize>,
) -> Result<(), AllocError>
    ensures { OnOk result (row.new ≡ row.old ++ flat_map (called_by caller.now)
        (if_calls statement.now)) }
{
    add_conditionals(caller, statement.parts.as_slice(), row)?;
    add_statements(caller, statement.otherwise.as_slice(), row)
}

/// Adds the functions that are called in conditions and their statements.
#[cycle(statement)]
fn add_conditionals(
    caller: &Caller<'_>,
    parts: &[ConditionalPart],
    row: &mut List<usize>,
) -> Result<(), AllocError>
    ensures { OnOk result (row.new ≡ row.old ++ flat_map (called_by caller.now)
        (all (map conditional_calls parts.now))) }
{
    'items: for item in parts {
        add_conditional(caller, item, row)?;
    }
    Ok(())
}

/// Adds the functions that are called in a condition and its statements.
#[cycle(statement)]
#[tactic(auto, using(crate::proofs::Folds::conditional_calls_are, crate::proofs::Rows::joined))]
fn add_conditional(
    caller: &Caller<'_>,
    part: &ConditionalPart,
    row: &mut List<usize>,
) -> Result<(), AllocError>
    ensures { OnOk result (row.new ≡ row.old ++ flat_map (called_by caller.now)
        (conditional_calls part.now)) }
{
    add_expression(caller, &part.condition, row)?;
    add_statements(caller, part.statements.as_slice(), row)
}

/// Adds the functions that are called in CASE.
#[cycle(statement)]
#[tactic(auto, using(crate::proofs::Folds::case_calls_are, crate::proofs::Rows::joined))]
fn add_case(
    caller: &Caller<'_>,
    statement: &CaseStatement,
    row: &mut List<usize>,
) -> Result<(), AllocError>
    ensures { OnOk result (row.new ≡ row.old ++ flat_map (called_by caller.now)
        (case_calls statement.now)) }
{
    add_expression(caller, statement.selector.get(), row)?;
    add_case_elements(caller, statement.cases.as_slice(), row)?;
    add_statements(caller, statement.otherwise.as_slice(), row)
}

/// Adds the functions that are called in the statements of cases.
#[cycle(statement)]
fn add_case_elements(
    caller: &Caller<'_>,
    elements: &[CaseElement],
    row: &mut List<usize>,
) -> Result<(), AllocError>
    ensures { OnOk result (row.new ≡ row.old ++ flat_map (called_by caller.now)
        (all (map case_element_calls elements.now))) }
{
    'items: for item in elements {
        add_case_element(caller, item, row)?;
    }
    Ok(())
}

/// Adds the functions that are called in the statements of a case.
#[cycle(statement)]
fn add_case_element(
    caller: &Caller<'_>,
    element: &CaseElement,
    row: &mut List<usize>,
) -> Result<(), AllocError>
    ensures { OnOk result (row.new ≡ row.old ++ flat_map (called_by caller.now)
        (case_element_calls element.now)) }
{
    add_statements(caller, element.statements.as_slice(), row)
}

/// Adds the functions that are called in FOR.
#[cycle(statement)]
#[tactic(auto, using(crate::proofs::Folds::for_calls_are, crate::proofs::Rows::joined))]
fn add_for(
    caller: &Caller<'_>,
    statement: &ForStatement,
    row: &mut List<usize>,
) -> Result<(), AllocError>
    ensures { OnOk result (row.new ≡ row.old ++ flat_map (called_by caller.now)
        (for_calls statement.now)) }
{
    add_expression(caller, statement.first.get(), row)?;
    add_expression(caller, statement.last.get(), row)?;
    add_optional(caller, &statement.step, row)?;
    add_statements(caller, statement.statements.as_slice(), row)
}

/// Adds the functions that are called in WHILE.
#[cycle(statement)]
#[tactic(auto, using(crate::proofs::Folds::while_calls_are, crate::proofs::Rows::joined))]
fn add_while(
    caller: &Caller<'_>,
    statement: &WhileStatement,
    row: &mut List<usize>,
) -> Result<(), AllocError>
    ensures { OnOk result (row.new ≡ row.old ++ flat_map (called_by caller.now)
        (while_calls statement.now)) }
{
    add_expression(caller, statement.condition.get(), row)?;
    add_statements(caller, statement.statements.as_slice(), row)
}

/// Adds the functions that are called in REPEAT.
#[cycle(statement)]
#[tactic(auto, using(crate::proofs::Folds::repeat_calls_are, crate::proofs::Rows::joined))]
fn add_repeat(
    caller: &Caller<'_>,
    statement: &RepeatStatement,
    row: &mut List<usize>,
) -> Result<(), AllocError>
    ensures { OnOk result (row.new ≡ row.old ++ flat_map (called_by caller.now)
        (repeat_calls statement.now)) }
{
    add_statements(caller, statement.statements.as_slice(), row)?;
    add_expression(caller, statement.condition.get(), row)
}

/// Adds the functions that are called in an expression, where there is one.
fn add_optional(
    caller: &Caller<'_>,
    expression: &Option<Boxed<Expression>>,
    row: &mut List<usize>,
) -> Result<(), AllocError>
    ensures { OnOk result (row.new ≡ row.old ++ flat_map (called_by caller.now)
        (optional_calls expression.now)) }
{
    if let Some(expression) = expression {
        add_expression(caller, expression.get(), row)?;
    }
    Ok(())
}
