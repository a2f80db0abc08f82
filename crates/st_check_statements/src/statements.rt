//! Statements (3.3.2).
ghost use Rattle.std.specs.Prelude.{◌≡◌, map, OnOk};
ghost use Rattle.std.specs.List.{flat_map};
ghost use Rattle.st_faults.specs.Faults.{offer_all};
ghost use Rattle.st_types.specs.Scopes.{scope_at};
ghost use Rattle.st_check_statements.specs.Statements.{all_faults, assignment_faults, body_faults, case_faults, condition_faults, element_faults, for_faults, if_faults, inside_for, optional_faults, part_faults, range_faults, repeat_faults, statement_faults, while_faults};

use crate::around::Around;
use crate::counters::{check_counter, counter_due};
use crate::invocations::check_call_statement;
use crate::labels::check_labels;
use st_check_expressions::{check_expression, check_target, elem_due, elem_of, selected_type};
use st_faults::{FirstFault, Rule};
use st_scopes::Scope;
use st_tree::Boxed;
use st_tree::tree::{
    CaseElement, CaseStatement, ConditionalPart, Expression, ForStatement, IfStatement,
    RepeatStatement, Statement, Variable, WhileStatement,
};
use st_types::Due;
use st_values::Elem;
use std::alloc::{AllocError, Global};

/// Offers the faults of a body's statements.
pub fn check_body(
    alloc: Global,
    scope: &Scope<'_>,
    statements: &[Statement],
    first: &mut FirstFault,
) -> Result<(), AllocError>
    ensures { OnOk result (first.new ≡ offer_all first.old
        (body_faults (scope_at scope.now) statements.now)) }
{
    let around = Around {
        in_loop: false,
        counters: &[],
    };
    check_statements(alloc, scope, &around, statements, first)
}

/// Offers the faults of statements.
#[cycle(check)]
#[tactic(auto, unfolding(st_faults::specs::Faults::offer_all), using(st_faults::proofs::Least::offer_append))]
fn check_statements(
    alloc: Global,
    scope: &Scope<'_>,
    around: &Around<'_>,
    statements: &[Statement],
    first: &mut FirstFault,
) -> Result<(), AllocError>
    ensures { OnOk result (first.new ≡ offer_all first.old
        (all_faults (map (statement_faults (scope_at scope.now)) statements.now) around.now)) }
{
    'statements: for statement in statements {
        check_statement(alloc, scope, around, statement, first)?;
    }
    Ok(())
}

/// Offers the faults of a statement.
#[cycle(check)]
#[tactic(auto, unfolding(st_faults::specs::Faults::offer_all))]
fn check_statement(
    alloc: Global,
    scope: &Scope<'_>,
    around: &Around<'_>,
    statement: &Statement,
    first: &mut FirstFault,
) -> Result<(), AllocError>
    ensures { OnOk result (first.new ≡ offer_all first.old
        (statement_faults (scope_at scope.now) statement.now around.now)) }
{
    match statement {
        Statement::Empty(_) | Statement::Return(_) => {}
        Statement::Assignment(variable, expression) => {
            check_assignment(
                alloc,
                scope,
                around,
                variable.get(),
                expression.get(),
                first,
            )?;
        }
        Statement::Call(call) => check_call_statement(alloc, scope, around, call.get(), first)?,
        Statement::Exit(position) => {
            // Typing rests on this rule in its case `exit_is`.
            first.offer_when(!around.in_loop, *position, Rule::CallMismatch);
        }
        Statement::If(found) => check_if(alloc, scope, around, found.get(), first)?,
        Statement::Case(found) => check_case(alloc, scope, around, found.get(), first)?,
        Statement::For(found) => check_for(alloc, scope, around, found.get(), first)?,
        Statement::While(found) => check_while(alloc, scope, around, found.get(), first)?,
        Statement::Repeat(found) => check_repeat(alloc, scope, around, found.get(), first)?,
    }
    Ok(())
}

/// Offers the faults of an assignment: its value has the type of its target (3.3.2.1).
#[tactic(auto, unfolding(st_faults::specs::Faults::offer_all), using(st_faults::proofs::Least::offer_append))]
fn check_assignment(
    alloc: Global,
    scope: &Scope<'_>,
    around: &Around<'_>,
    variable: &Variable,
    expression: &Expression,
    first: &mut FirstFault,
) -> Result<(), AllocError>
    ensures { OnOk result (first.new ≡ offer_all first.old
        (assignment_faults (scope_at scope.now) variable.now expression.now around.now)) }
{
    let target = check_target(alloc, scope, around.counters, variable, first)?;
    let due = elem_due(elem_of(&target));
    check_expression(alloc, scope, expression, due, first)?;
    Ok(())
}

/// Offers the faults of a condition, which is a BOOL.
fn check_condition(
    alloc: Global,
    scope: &Scope<'_>,
    condition: &Expression,
    first: &mut FirstFault,
) -> Result<(), AllocError>
    ensures { OnOk result (first.new ≡ offer_all first.old
        (condition_faults (scope_at scope.now) condition.now)) }
{
    check_expression(alloc, scope, condition, Due::Type(Elem::Bool), first)
}

/// Offers the faults of IF (3.3.2.3).
#[cycle(check)]
#[tactic(auto, unfolding(st_faults::specs::Faults::offer_all), using(st_faults::proofs::Least::offer_append))]
fn check_if(
    alloc: Global,
    scope: &Scope<'_>,
    around: &Around<'_>,
    statement: &IfStatement,
    first: &mut FirstFault,
) -> Result<(), AllocError>
    ensures { OnOk result (first.new ≡ offer_all first.old
        (if_faults (scope_at scope.now) statement.now around.now)) }
{
    check_parts(alloc, scope, around, statement.parts.as_slice(), first)?;
    check_statements(alloc, scope, around, statement.otherwise.as_slice(), first)?;
    Ok(())
}

/// Offers the faults of the parts of IF.
#[cycle(check)]
#[tactic(auto, unfolding(st_faults::specs::Faults::offer_all), using(st_faults::proofs::Least::offer_append))]
fn check_parts(
    alloc: Global,
    scope: &Scope<'_>,
    around: &Around<'_>,
    parts: &[ConditionalPart],
    first: &mut FirstFault,
) -> Result<(), AllocError>
    ensures { OnOk result (first.new ≡ offer_all first.old
        (all_faults (map (part_faults (scope_at scope.now)) parts.now) around.now)) }
{
    'parts: for part in parts {
        check_part(alloc, scope, around, part, first)?;
    }
    Ok(())
}

/// Offers the faults of a condition and of what runs where it is TRUE.
#[cycle(check)]
#[tactic(auto, unfolding(st_faults::specs::Faults::offer_all), using(st_faults::proofs::Least::offer_append, crate::proofs::Folds::part_is))]
fn check_part(
    alloc: Global,
    scope: &Scope<'_>,
    around: &Around<'_>,
    part: &ConditionalPart,
    first: &mut FirstFault,
) -> Result<(), AllocError>
    ensures { OnOk result (first.new ≡ offer_all first.old
        (part_faults (scope_at scope.now) part.now around.now)) }
{
    check_condition(alloc, scope, &part.condition, first)?;
    check_statements(alloc, scope, around, part.statements.as_slice(), first)?;
    Ok(())
}

/// Offers the faults of CASE, whose selector is an integer (3.3.2.3).
#[cycle(check)]
#[tactic(auto, unfolding(st_faults::specs::Faults::offer_all), using(st_faults::proofs::Least::offer_append))]
fn check_case(
    alloc: Global,
    scope: &Scope<'_>,
    around: &Around<'_>,
    statement: &CaseStatement,
    first: &mut FirstFault,
) -> Result<(), AllocError>
    ensures { OnOk result (first.new ≡ offer_all first.old
        (case_faults (scope_at scope.now) statement.now around.now)) }
{
    let selector = statement.selector.get();
    check_expression(alloc, scope, selector, Due::Integer, first)?;
    let elem = selected_type(alloc, scope, selector)?;
    check_elements(
        alloc,
        scope,
        around,
        elem,
        statement.cases.as_slice(),
        first,
    )?;
    check_statements(alloc, scope, around, statement.otherwise.as_slice(), first)?;
    Ok(())
}

/// Offers the faults of the cases of a selector of this type, if that can be known.
#[cycle(check)]
#[tactic(auto, unfolding(st_faults::specs::Faults::offer_all), using(st_faults::proofs::Least::offer_append))]
fn check_elements(
    alloc: Global,
    scope: &Scope<'_>,
    around: &Around<'_>,
    elem: Option<Elem>,
    elements: &[CaseElement],
    first: &mut FirstFault,
) -> Result<(), AllocError>
    ensures { OnOk result (first.new ≡ offer_all first.old
        (flat_map (λ c. c elem around.now)
        (map (element_faults (scope_at scope.now)) elements.now))) }
{
    'elements: for element in elements {
        check_element(alloc, scope, around, elem, element, first)?;
    }
    Ok(())
}

/// Offers the faults of a case of a selector of this type, if that can be known.
#[cycle(check)]
#[tactic(auto, unfolding(st_faults::specs::Faults::offer_all), using(st_faults::proofs::Least::offer_append, crate::proofs::Folds::element_is))]
fn check_element(
    alloc: Global,
    scope: &Scope<'_>,
    around: &Around<'_>,
    elem: Option<Elem>,
    element: &CaseElement,
    first: &mut FirstFault,
) -> Result<(), AllocError>
    ensures { OnOk result (first.new ≡ offer_all first.old
        (element_faults (scope_at scope.now) element.now elem around.now)) }
{
    check_labels(element.labels.as_slice(), elem, first);
    check_statements(alloc, scope, around, element.statements.as_slice(), first)?;
    Ok(())
}

/// Offers the faults of FOR (3.3.2.4).
#[cycle(check)]
#[tactic(auto, unfolding(st_faults::specs::Faults::offer_all), using(st_faults::proofs::Least::offer_append, crate::proofs::Folds::for_is))]
fn check_for(
    alloc: Global,
    scope: &Scope<'_>,
    around: &Around<'_>,
    statement: &ForStatement,
    first: &mut FirstFault,
) -> Result<(), AllocError>
    ensures { OnOk result (first.new ≡ offer_all first.old
        (for_faults (scope_at scope.now) statement.now around.now)) }
{
    let variable = &statement.variable;
    check_counter(scope, around.counters, variable, first);
    let due = counter_due(scope, variable);
    check_range(
        alloc,
        scope,
        due,
        statement.first.get(),
        statement.last.get(),
        &statement.step,
        first,
    )?;
    let name = variable.spelling.as_slice();
    check_inside_for(
        alloc,
        scope,
        around,
        name,
        statement.statements.as_slice(),
        first,
    )?;
    Ok(())
}

/// Offers the faults of the statements of a FOR loop that counts the variable of this name.
#[cycle(check)]
fn check_inside_for(
    alloc: Global,
    scope: &Scope<'_>,
    around: &Around<'_>,
    name: &[u8],
    statements: &[Statement],
    first: &mut FirstFault,
) -> Result<(), AllocError>
    ensures { OnOk result (first.new ≡ offer_all first.old
        (all_faults (map (statement_faults (scope_at scope.now)) statements.now)
        (inside_for name.now around.now))) }
{
    let mut counters = Vec::from_slice(alloc, around.counters)?;
    counters.push(name)?;
    let inside = Around {
        in_loop: true,
        counters: counters.as_slice(),
    };
    check_statements(alloc, scope, &inside, statements, first)?;
    Ok(())
}

/// Offers the faults of FOR's first and last value and of its step.
#[tactic(auto, unfolding(st_faults::specs::Faults::offer_all), using(st_faults::proofs::Least::offer_append))]
fn check_range(
    alloc: Global,
    scope: &Scope<'_>,
    due: Due,
    start: &Expression,
    end: &Expression,
    step: &Option<Boxed<Expression>>,
    first: &mut FirstFault,
) -> Result<(), AllocError>
    ensures { OnOk result (first.new ≡ offer_all first.old
        (range_faults (scope_at scope.now) due start.now end.now step.now)) }
{
    check_expression(alloc, scope, start, due, first)?;
    check_expression(alloc, scope, end, due, first)?;
    check_optional(alloc, scope, due, step, first)?;
    Ok(())
}

/// Offers the faults of an expression, where there is one.
#[tactic(auto, unfolding(st_faults::specs::Faults::offer_all), using(st_faults::proofs::Least::offer_append))]
fn check_optional(
    alloc: Global,
    scope: &Scope<'_>,
    due: Due,
    expression: &Option<Boxed<Expression>>,
    first: &mut FirstFault,
) -> Result<(), AllocError>
    ensures { OnOk result (first.new ≡ offer_all first.old
        (optional_faults (scope_at scope.now) due expression.now)) }
{
    if let Some(expression) = expression {
        check_expression(alloc, scope, expression.get(), due, first)?;
    }
    Ok(())
}

/// Offers the faults of WHILE (3.3.2.4).
#[cycle(check)]
#[tactic(auto, unfolding(st_faults::specs::Faults::offer_all), using(st_faults::proofs::Least::offer_append, crate::proofs::Folds::while_is))]
fn check_while(
    alloc: Global,
    scope: &Scope<'_>,
    around: &Around<'_>,
    statement: &WhileStatement,
    first: &mut FirstFault,
) -> Result<(), AllocError>
    ensures { OnOk result (first.new ≡ offer_all first.old
        (while_faults (scope_at scope.now) statement.now around.now)) }
{
    check_condition(alloc, scope, statement.condition.get(), first)?;
    let inside = around.inside_loop();
    check_statements(
        alloc,
        scope,
        &inside,
        statement.statements.as_slice(),
        first,
    )?;
    Ok(())
}

/// Offers the faults of REPEAT (3.3.2.4).
#[cycle(check)]
#[tactic(auto, unfolding(st_faults::specs::Faults::offer_all), using(st_faults::proofs::Least::offer_append, crate::proofs::Folds::repeat_is))]
fn check_repeat(
    alloc: Global,
    scope: &Scope<'_>,
    around: &Around<'_>,
    statement: &RepeatStatement,
    first: &mut FirstFault,
) -> Result<(), AllocError>
    ensures { OnOk result (first.new ≡ offer_all first.old
        (repeat_faults (scope_at scope.now) statement.now around.now)) }
{
    let inside = around.inside_loop();
    check_statements(
        alloc,
        scope,
        &inside,
        statement.statements.as_slice(),
        first,
    )?;
    check_condition(alloc, scope, statement.condition.get(), first)?;
    Ok(())
}
