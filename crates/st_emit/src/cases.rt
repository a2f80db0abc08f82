//! The code of CASE (3.3.2.3).
ghost use Rattle.std.specs.Prelude.{◌≡◌, ◌≤◌, ◌-◌, ◌++◌, OnOk, length, map, reverse};
ghost use Rattle.st_types.specs.Initials.{value_written};
ghost use Rattle.st_meaning.specs.Typing.{label_range};
ghost use Rattle.st_code.specs.Code.{case_test, cell_of, command_code, label_code, plain};
ghost use Rattle.st_emit.specs.Statements.{case_code, case_in};
ghost use Rattle.st_emit_expressions.specs.Trees.{whole_of};

use crate::statements::emit_statements;
use st_code::{Code, Instr};
use st_emit_expressions::{Scope, emit_expression, emit_value, own_or_lint};
use st_references::value_written;
use st_tree::tree::{CaseElement, CaseStatement, Constant, Label};
use st_values::Elem;
use std::alloc::AllocError;

/// CASE.
#[cycle(statement)]
pub(crate) fn emit_case(
    code: &mut Code,
    scope: &Scope<'_>,
    statement: &CaseStatement,
    out: usize,
    end: usize,
) -> Result<(), AllocError>
    requires out { out ≤ length code.old }
    requires end { end ≤ length code.old }
    ensures { OnOk result (code.new ≡ code.old ++ reverse
        (command_code (whole_of scope.now).variables (case_in (whole_of scope.now) statement.now)
        (length code.old - out) (length code.old - end))) }
{
    let start = code.len();
    let elem = own_or_lint(scope, statement.selector.get());
    emit_statements(code, scope, statement.otherwise.as_slice(), out, end)?;
    code.push(Instr::Drop, 0)?;
    let cases = statement.cases.as_slice();
    let mut i = cases.len();
    while i > 0 {
        i -= 1;
        let rest = code.len() - start;
        emit_element(code, scope, elem, &cases[i], rest, out, end)?;
    }
    emit_expression(code, scope, statement.selector.get(), elem)?;
    code.push(Instr::Step, statement.position.line)
}

/// The test of a case, its statements, and a jump past the rest.
#[cycle(statement)]
fn emit_element(
    code: &mut Code,
    scope: &Scope<'_>,
    elem: Elem,
    element: &CaseElement,
    rest: usize,
    out: usize,
    end: usize,
) -> Result<(), AllocError>
    requires out { out ≤ length code.old }
    requires end { end ≤ length code.old }
    ensures { OnOk result (code.new ≡ code.old ++ reverse
        (case_code (whole_of scope.now) elem element.now rest (length code.old - out)
        (length code.old - end))) }
{
    let start = code.len();
    code.push(Instr::GoOn(rest), 0)?;
    emit_statements(code, scope, element.statements.as_slice(), out, end)?;
    code.push(Instr::Drop, 0)?;
    let distance = code.len() - start;
    code.push(Instr::SkipUnless(distance), 0)?;
    emit_labels(code, elem, element.labels.as_slice())
}

/// Whether the selector's number has one of the labels.
fn emit_labels(code: &mut Code, elem: Elem, labels: &[Label]) -> Result<(), AllocError>
    ensures { OnOk result (code.new ≡ code.old ++ reverse
        (case_test elem (map (label_range elem) labels.now))) }
{
    let mut i = labels.len();
    while i > 0 {
        i -= 1;
        emit_label(code, elem, &labels[i])?;
    }
    code.push(Instr::Push(0), 0)
}

/// Whether it has this one, or had one before.
fn emit_label(code: &mut Code, elem: Elem, label: &Label) -> Result<(), AllocError>
    ensures { OnOk result (code.new ≡ code.old ++ reverse
        (label_code elem (label_range elem label.now))) }
{
    code.push(Instr::Within(elem), 0)?;
    match label {
        Label::Value(constant) => {
            emit_literal(code, elem, constant)?;
            emit_literal(code, elem, constant)
        }
        Label::Range(least, greatest) => {
            emit_literal(code, elem, greatest.get())?;
            emit_literal(code, elem, least.get())
        }
    }
}

/// A literal of this type.
fn emit_literal(code: &mut Code, elem: Elem, literal: &Constant) -> Result<(), AllocError>
    ensures { OnOk result (code.new ≡ code.old ++ reverse
        (plain (Instr.Push (cell_of (value_written elem literal.now).bits)))) }
{
    emit_value(code, value_written(elem, literal))
}
