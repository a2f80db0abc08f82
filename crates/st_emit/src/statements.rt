//! The code of statements (3.3.2), from the last instruction to the first.
ghost use Rattle.std.specs.Prelude.{◌≡◌, ◌≤◌, ◌-◌, ◌++◌, OnOk, length, reverse};
ghost use Rattle.st_meaning.specs.Typing.{body_of, command_of};
ghost use Rattle.st_code.specs.Code.{at, command_code, commands_code, plain};
ghost use Rattle.st_emit.specs.Statements.{assignment_in, if_in, part_code};
ghost use Rattle.st_emit_expressions.specs.Trees.{whole_of};

use crate::cases::emit_case;
use crate::invocations::emit_invocation;
use crate::loops::{emit_for, emit_repeat, emit_while};
use st_code::{Code, Instr};
use st_emit_expressions::{Scope, emit_expression, emit_store, locate};
use st_tree::tree::{ConditionalPart, Expression, IfStatement, Statement, Variable};
use st_values::Elem;
use std::alloc::AllocError;

/// Statements, one after the other. `out` and `end` are how many instructions there were at the end of the loop around them, and
/// of the body.
#[cycle(statement)]
pub(crate) fn emit_statements(
    code: &mut Code,
    scope: &Scope<'_>,
    statements: &[Statement],
    out: usize,
    end: usize,
) -> Result<(), AllocError>
    requires out { out ≤ length code.old }
    requires end { end ≤ length code.old }
    ensures { OnOk result (code.new ≡ code.old ++ reverse
        (commands_code (whole_of scope.now).variables (body_of (whole_of scope.now) statements.now)
        (length code.old - out) (length code.old - end))) }
{
    let mut i = statements.len();
    while i > 0 {
        i -= 1;
        emit_statement(code, scope, &statements[i], out, end)?;
    }
    Ok(())
}

/// A statement.
#[cycle(statement)]
fn emit_statement(
    code: &mut Code,
    scope: &Scope<'_>,
    statement: &Statement,
    out: usize,
    end: usize,
) -> Result<(), AllocError>
    requires out { out ≤ length code.old }
    requires end { end ≤ length code.old }
    ensures { OnOk result (code.new ≡ code.old ++ reverse
        (command_code (whole_of scope.now).variables (command_of (whole_of scope.now) statement.now)
        (length code.old - out) (length code.old - end))) }
{
    match statement {
        Statement::Empty(position) => code.push(Instr::Step, position.line),
        Statement::Assignment(variable, value) => {
            emit_assignment(code, scope, variable.get(), value.get())
        }
        Statement::Call(call) => emit_invocation(code, scope, call.get()),
        Statement::Return(position) => emit_jump(code, end, position.line),
        Statement::Exit(position) => emit_jump(code, out, position.line),
        Statement::If(inner) => emit_if(code, scope, inner.get(), out, end),
        Statement::Case(inner) => emit_case(code, scope, inner.get(), out, end),
        Statement::For(inner) => emit_for(code, scope, inner.get(), end),
        Statement::While(inner) => emit_while(code, scope, inner.get(), end),
        Statement::Repeat(inner) => emit_repeat(code, scope, inner.get(), end),
    }
}

/// The variable takes the value, where it has a type.
fn emit_assignment(
    code: &mut Code,
    scope: &Scope<'_>,
    variable: &Variable,
    value: &Expression,
) -> Result<(), AllocError>
    ensures { OnOk result (code.new ≡ code.old ++ reverse
        (command_code (whole_of scope.now).variables
        (assignment_in (whole_of scope.now) variable.now value.now) 0 0)) }
{
    if let Some(place) = locate(scope, variable) {
        emit_store(code, scope, variable, place)?;
        emit_expression(code, scope, value, place.elem)?;
    }
    code.push(Instr::Step, variable.name.position.line)
}

/// A jump to where there were so many instructions.
fn emit_jump(code: &mut Code, goal: usize, line: u32) -> Result<(), AllocError>
    requires { goal ≤ length code.old }
    ensures { OnOk result (code.new ≡ code.old ++ reverse
        (at line Instr.Step ++ plain (Instr.GoOn (length code.old - goal)))) }
{
    let distance = code.len() - goal;
    code.push(Instr::GoOn(distance), 0)?;
    code.push(Instr::Step, line)
}

/// A choice.
#[cycle(statement)]
fn emit_if(
    code: &mut Code,
    scope: &Scope<'_>,
    statement: &IfStatement,
    out: usize,
    end: usize,
) -> Result<(), AllocError>
    requires out { out ≤ length code.old }
    requires end { end ≤ length code.old }
    ensures { OnOk result (code.new ≡ code.old ++ reverse
        (command_code (whole_of scope.now).variables (if_in (whole_of scope.now) statement.now)
        (length code.old - out) (length code.old - end))) }
{
    let start = code.len();
    emit_statements(code, scope, statement.otherwise.as_slice(), out, end)?;
    let parts = statement.parts.as_slice();
    let mut i = parts.len();
    while i > 0 {
        i -= 1;
        let rest = code.len() - start;
        emit_part(code, scope, &parts[i], rest, out, end)?;
    }
    code.push(Instr::Step, statement.position.line)
}

/// A condition, its statements, and a jump past the rest.
#[cycle(statement)]
fn emit_part(
    code: &mut Code,
    scope: &Scope<'_>,
    part: &ConditionalPart,
    rest: usize,
    out: usize,
    end: usize,
) -> Result<(), AllocError>
    requires out { out ≤ length code.old }
    requires end { end ≤ length code.old }
    ensures { OnOk result (code.new ≡ code.old ++ reverse
        (part_code (whole_of scope.now) part.now rest (length code.old - out)
        (length code.old - end))) }
{
    let start = code.len();
    code.push(Instr::GoOn(rest), 0)?;
    emit_statements(code, scope, part.statements.as_slice(), out, end)?;
    let distance = code.len() - start;
    code.push(Instr::SkipUnless(distance), 0)?;
    emit_expression(code, scope, &part.condition, Elem::Bool)
}
