//! The code of loops (3.3.2.4).
ghost use Rattle.std.specs.Prelude.{◌≡◌, ◌≤◌, ◌+◌, ◌-◌, ◌++◌, IfOk, OnOk, [], length, reverse};
ghost use Rattle.st_meaning.specs.Typing.{body_of, condition, step_typed};
ghost use Rattle.st_code.specs.Code.{command_code, commands_code, count_code, term_code};
ghost use Rattle.st_emit.specs.Statements.{for_in, repeat_in, skip_instr, turns_code, while_in};
ghost use Rattle.st_emit_expressions.specs.Trees.{whole_of};

use crate::statements::emit_statements;
use st_code::{Code, Instr};
use st_emit_expressions::{Scope, emit_expression, place_named};
use st_tree::Boxed;
use st_tree::tree::{Expression, ForStatement, RepeatStatement, Statement, WhileStatement};
use st_values::Elem;
use std::alloc::AllocError;

/// WHILE.
#[cycle(statement)]
pub(crate) fn emit_while(
    code: &mut Code,
    scope: &Scope<'_>,
    statement: &WhileStatement,
    end: usize,
) -> Result<(), AllocError>
    requires { end ≤ length code.old }
    ensures { OnOk result (code.new ≡ code.old ++ reverse
        (command_code (whole_of scope.now).variables (while_in (whole_of scope.now) statement.now)
        0 (length code.old - end))) }
{
    let line = statement.position.line;
    let body = statement.statements.as_slice();
    emit_turns(
        code,
        scope,
        line,
        false,
        body,
        statement.condition.get(),
        end,
    )?;
    code.push(Instr::Step, line)?;
    code.push(Instr::Step, line)
}

/// REPEAT: the test is gone past at first.
#[cycle(statement)]
pub(crate) fn emit_repeat(
    code: &mut Code,
    scope: &Scope<'_>,
    statement: &RepeatStatement,
    end: usize,
) -> Result<(), AllocError>
    requires { end ≤ length code.old }
    ensures { OnOk result (code.new ≡ code.old ++ reverse
        (command_code (whole_of scope.now).variables (repeat_in (whole_of scope.now) statement.now)
        0 (length code.old - end))) }
{
    let line = statement.position.line;
    let body = statement.statements.as_slice();
    let past = emit_turns(
        code,
        scope,
        line,
        true,
        body,
        statement.condition.get(),
        end,
    )?;
    code.push(Instr::GoOn(past), 0)?;
    code.push(Instr::Step, line)
}

/// A condition, and statements with a jump back to it. Gives how many instructions stand before the statements.
#[cycle(statement)]
fn emit_turns(
    code: &mut Code,
    scope: &Scope<'_>,
    line: u32,
    until: bool,
    statements: &[Statement],
    test: &Expression,
    end: usize,
) -> Result<usize, AllocError>
    requires { end ≤ length code.old }
    ensures code { OnOk result (code.new ≡ code.old
        ++ reverse (turns_code line until (term_code (whole_of scope.now).variables
        (condition (whole_of scope.now) test.now))
        (commands_code (whole_of scope.now).variables (body_of (whole_of scope.now) statements.now)
        1 (1 + (length code.old - end))))) }
    ensures past { IfOk result (λ past. past ≡ length
        (term_code (whole_of scope.now).variables (condition (whole_of scope.now) test.now)) + 1) }
{
    let start = code.len();
    code.push(Instr::GoBack(0), line)?;
    emit_statements(code, scope, statements, start, end)?;
    let middle = code.len();
    code.push(skip(until, middle - start), 0)?;
    emit_expression(code, scope, test, Elem::Bool)?;
    let past = code.len() - middle;
    let back = code.len() - start - 1;
    code.set(start, Instr::GoBack(back), line);
    Ok(past)
}

/// The jump past statements, where the condition holds that ends a loop, or the one doesn't that it goes on with.
fn skip(until: bool, distance: usize) -> Instr
    ensures { result ≡ skip_instr until distance }
{
    if until {
        Instr::SkipIf(distance)
    } else {
        Instr::SkipUnless(distance)
    }
}

/// FOR, where its variable has a type.
#[cycle(statement)]
pub(crate) fn emit_for(
    code: &mut Code,
    scope: &Scope<'_>,
    statement: &ForStatement,
    end: usize,
) -> Result<(), AllocError>
    requires { end ≤ length code.old }
    ensures { OnOk result (code.new ≡ code.old ++ reverse
        (command_code (whole_of scope.now).variables (for_in (whole_of scope.now) statement.now)
        0 (length code.old - end))) }
{
    let line = statement.position.line;
    if let Some((elem, leaf)) = place_named(scope, statement.variable.spelling.as_slice()) {
        let body = statement.statements.as_slice();
        emit_count(code, scope, line, elem, leaf, body, end)?;
        emit_step(code, scope, &statement.step, elem)?;
        emit_expression(code, scope, statement.last.get(), elem)?;
        emit_expression(code, scope, statement.first.get(), elem)?;
    }
    code.push(Instr::Step, line)
}

/// The instructions of FOR around its statements, behind its values.
#[cycle(statement)]
fn emit_count(
    code: &mut Code,
    scope: &Scope<'_>,
    line: u32,
    elem: Elem,
    leaf: u32,
    statements: &[Statement],
    end: usize,
) -> Result<(), AllocError>
    requires { end ≤ length code.old }
    ensures { OnOk result (code.new ≡ code.old ++ reverse
        (count_code line elem leaf []
        (commands_code (whole_of scope.now).variables (body_of (whole_of scope.now) statements.now)
        1 (2 + (length code.old - end))))) }
{
    code.push(Instr::Leave, 0)?;
    let start = code.len();
    code.push(Instr::Next(elem, leaf, 0), line)?;
    emit_statements(code, scope, statements, start, end)?;
    let past = code.len() - start;
    code.set(start, Instr::Next(elem, leaf, past - 1), line);
    code.push(Instr::Test(elem, leaf, past), 0)?;
    code.push(Instr::Step, line)?;
    code.push(Instr::Begin(elem, leaf), 0)
}

/// How far apart two values are, which is 1 without BY.
fn emit_step(
    code: &mut Code,
    scope: &Scope<'_>,
    step: &Option<Boxed<Expression>>,
    elem: Elem,
) -> Result<(), AllocError>
    ensures code { OnOk result (code.new ≡ code.old
        ++ reverse (term_code (whole_of scope.now).variables
        (step_typed (whole_of scope.now) step.now elem))) }
{
    match step {
        Some(expression) => emit_expression(code, scope, expression.get(), elem),
        None => code.push(Instr::Push(1), 0),
    }
}
