//! The walk through statements to a token.

use crate::due::target_due;
use crate::expressions::{in_call, in_expression, in_target};
use crate::site::{Search, Site, stop_at};
use st_check_expressions::{elem_due, elem_of, literal_position, selected_type};
use st_scopes::Scope;
use st_tree::tree::{
    Call, CaseElement, CaseStatement, ConditionalPart, Constant, Expression, ForStatement,
    Identifier, IfStatement, Label, RepeatStatement, Statement, Variable, WhileStatement,
};
use st_types::Due;
use st_values::Elem;
use std::alloc::Global;

/// What stands at the token of this number in statements.
#[cycle(walk)]
pub fn in_statements<'t>(
    alloc: Global,
    scope: &Scope<'_>,
    at: u32,
    statements: &'t [Statement],
) -> Search<'t> {
    'statements: for statement in statements {
        in_statement(alloc, scope, at, statement)?;
    }
    Ok(())
}

/// What stands at the token in a statement.
#[cycle(walk)]
fn in_statement<'t>(
    alloc: Global,
    scope: &Scope<'_>,
    at: u32,
    statement: &'t Statement,
) -> Search<'t> {
    match statement {
        Statement::Empty(_) | Statement::Return(_) => Ok(()),
        Statement::Exit(position) => stop_at(at, *position, Site::Exit),
        Statement::Assignment(variable, value) => {
            in_assignment(alloc, scope, at, variable.get(), value.get())
        }
        Statement::Call(call) => in_call_statement(alloc, scope, at, call.get()),
        Statement::If(found) => in_if(alloc, scope, at, found.get()),
        Statement::Case(found) => in_case(alloc, scope, at, found.get()),
        Statement::For(found) => in_for(alloc, scope, at, found.get()),
        Statement::While(found) => in_while(alloc, scope, at, found.get()),
        Statement::Repeat(found) => in_repeat(alloc, scope, at, found.get()),
    }
}

/// What stands at the token in an assignment.
fn in_assignment<'t>(
    alloc: Global,
    scope: &Scope<'_>,
    at: u32,
    variable: &'t Variable,
    value: &'t Expression,
) -> Search<'t> {
    in_target(alloc, scope, at, variable)?;
    let due = target_due(alloc, scope, variable)?;
    in_expression(alloc, scope, at, value, due)
}

/// What stands at the token in a call statement.
fn in_call_statement<'t>(alloc: Global, scope: &Scope<'_>, at: u32, call: &'t Call) -> Search<'t> {
    stop_at(at, call.name.position, Site::Call(call))?;
    in_call(alloc, scope, at, call, Due::Any)
}

/// What stands at the token in IF.
#[cycle(walk)]
fn in_if<'t>(alloc: Global, scope: &Scope<'_>, at: u32, statement: &'t IfStatement) -> Search<'t> {
    in_conditionals(alloc, scope, at, statement.parts.as_slice())?;
    in_statements(alloc, scope, at, statement.otherwise.as_slice())
}

/// What stands at the token in parts of IF.
#[cycle(walk)]
fn in_conditionals<'t>(
    alloc: Global,
    scope: &Scope<'_>,
    at: u32,
    parts: &'t [ConditionalPart],
) -> Search<'t> {
    'parts: for part in parts {
        in_conditional(alloc, scope, at, part)?;
    }
    Ok(())
}

/// What stands at the token in a part of IF.
#[cycle(walk)]
fn in_conditional<'t>(
    alloc: Global,
    scope: &Scope<'_>,
    at: u32,
    part: &'t ConditionalPart,
) -> Search<'t> {
    in_expression(alloc, scope, at, &part.condition, Due::Type(Elem::Bool))?;
    in_statements(alloc, scope, at, part.statements.as_slice())
}

/// What stands at the token in CASE.
#[cycle(walk)]
fn in_case<'t>(
    alloc: Global,
    scope: &Scope<'_>,
    at: u32,
    statement: &'t CaseStatement,
) -> Search<'t> {
    let selector = statement.selector.get();
    in_expression(alloc, scope, at, selector, Due::Integer)?;
    let due = elem_due(selected_type(alloc, scope, selector)?);
    in_elements(alloc, scope, at, statement.cases.as_slice(), due)?;
    in_statements(alloc, scope, at, statement.otherwise.as_slice())
}

/// What stands at the token in cases, of whose labels this is due.
#[cycle(walk)]
fn in_elements<'t>(
    alloc: Global,
    scope: &Scope<'_>,
    at: u32,
    elements: &'t [CaseElement],
    due: Due,
) -> Search<'t> {
    'elements: for element in elements {
        in_element(alloc, scope, at, element, due)?;
    }
    Ok(())
}

/// What stands at the token in a case.
#[cycle(walk)]
fn in_element<'t>(
    alloc: Global,
    scope: &Scope<'_>,
    at: u32,
    element: &'t CaseElement,
    due: Due,
) -> Search<'t> {
    in_labels(at, element.labels.as_slice(), due)?;
    in_statements(alloc, scope, at, element.statements.as_slice())
}

/// What stands at the token in labels.
fn in_labels<'t>(at: u32, labels: &'t [Label], due: Due) -> Search<'t> {
    for label in labels {
        in_label(at, label, due)?;
    }
    Ok(())
}

/// What stands at the token in a label.
fn in_label<'t>(at: u32, label: &'t Label, due: Due) -> Search<'t> {
    match label {
        Label::Value(value) => at_label(at, value, due),
        Label::Range(first, last) => {
            at_label(at, first.get(), due)?;
            at_label(at, last.get(), due)
        }
    }
}

/// What stands at the token, where it is this constant of a label.
fn at_label<'t>(at: u32, constant: &'t Constant, due: Due) -> Search<'t> {
    stop_at(at, literal_position(constant), Site::Label(constant, due))
}

/// What is due of the values that FOR counts.
fn counter_due(scope: &Scope<'_>, variable: &Identifier) -> Due {
    match scope.variable(variable.spelling.as_slice()) {
        Some(symbol) => elem_due(elem_of(&symbol.shape)),
        None => Due::Any,
    }
}

/// What stands at the token in FOR.
#[cycle(walk)]
fn in_for<'t>(
    alloc: Global,
    scope: &Scope<'_>,
    at: u32,
    statement: &'t ForStatement,
) -> Search<'t> {
    in_range(alloc, scope, at, statement)?;
    in_statements(alloc, scope, at, statement.statements.as_slice())
}

/// What stands at the token in the head of FOR.
fn in_range<'t>(
    alloc: Global,
    scope: &Scope<'_>,
    at: u32,
    statement: &'t ForStatement,
) -> Search<'t> {
    stop_at(
        at,
        statement.variable.position,
        Site::Counter(&statement.variable),
    )?;
    let due = counter_due(scope, &statement.variable);
    in_expression(alloc, scope, at, statement.first.get(), due)?;
    in_expression(alloc, scope, at, statement.last.get(), due)?;
    match &statement.step {
        Some(step) => in_expression(alloc, scope, at, step.get(), due),
        None => Ok(()),
    }
}

/// What stands at the token in WHILE.
#[cycle(walk)]
fn in_while<'t>(
    alloc: Global,
    scope: &Scope<'_>,
    at: u32,
    statement: &'t WhileStatement,
) -> Search<'t> {
    let condition = statement.condition.get();
    in_expression(alloc, scope, at, condition, Due::Type(Elem::Bool))?;
    in_statements(alloc, scope, at, statement.statements.as_slice())
}

/// What stands at the token in REPEAT.
#[cycle(walk)]
fn in_repeat<'t>(
    alloc: Global,
    scope: &Scope<'_>,
    at: u32,
    statement: &'t RepeatStatement,
) -> Search<'t> {
    in_statements(alloc, scope, at, statement.statements.as_slice())?;
    let condition = statement.condition.get();
    in_expression(alloc, scope, at, condition, Due::Type(Elem::Bool))
}
