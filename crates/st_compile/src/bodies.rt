//! The code of bodies, and how deep its stack gets.
ghost use Rattle.std.specs.Prelude.{[], ◌≡◌, if◌then◌else◌, IfOk, length, map, min};
ghost use Rattle.st_code.specs.Depths.{declared_depth};
ghost use Rattle.st_check.specs.Programs.{text_of};
ghost use Rattle.st_code.specs.Code.{code_of};
ghost use Rattle.st_leaves.specs.Bounds.{HasBounds};
ghost use Rattle.st_meaning.specs.Offsets.{IsSmall};
ghost use Rattle.st_meaning.specs.Typing.{body_in};
ghost use Rattle.st_meaning.specs.Units.{statements_of};
ghost use Rattle.st_places.specs.Parts.{is_small_block_in, whole_in};
ghost use Rattle.st_types.specs.Inside.{named_by};
ghost use Rattle.st_types.specs.Names.{units_of};
ghost use Rattle.st_compile.specs.Programs.{most_taken, program_code, program_depth};

use st_check::{Program, checked_program_is_small};
use st_code::{Code, body_depth, statements_depth};
use st_emit::{emit_body, emit_chart};
use st_leaves::AssociatedNames;
use st_places::Tables;
use st_tree::tree::{Body as Written, Statement};
use st_types::{NamedUnit, UnitKind};
use std::alloc::{AllocError, Global};

/// The code of a body.
#[derive(Drop)]
pub(crate) struct Body {
    pub(crate) code: Code,
    /// For how many numbers a stack needs room to run it.
    pub(crate) depth: usize,
}

/// The code of the program's own body, where functions of the text take so many inputs at most. It is refused for want of memory alone.
pub(crate) fn main_body(
    alloc: Global,
    program: &Program,
    units: &[NamedUnit<'_>],
    tables: &Tables<'_>,
    inputs: usize,
) -> Result<Body, AllocError>
    requires units { map named_by units.now ≡ units_of (text_of program.now) }
    requires tables { tables.now.text ≡ text_of program.now }
    requires inputs { inputs ≡ most_taken (units_of (text_of program.now)) }
    ensures code { IfOk result (λ body. body.code ≡ program_code program.now) }
    ensures depth { IfOk result (λ body. body.depth ≡ program_depth program.now) }
{
    checked_program_is_small();
    let main = program.main();
    body_of(alloc, &units[main], tables, main, inputs)
}

/// The code of a unit's body, where the unit, which has this number in the tables, is a function block that a program has room for.
/// Else there is none.
pub(crate) fn block_of(
    alloc: Global,
    unit: &NamedUnit<'_>,
    tables: &Tables<'_>,
    number: usize,
    inputs: usize,
) -> Result<Body, AllocError>
    requires bounds { HasBounds (whole_in tables.now number).variables }
    ensures code { IfOk result (λ body. body.code
        ≡ (if is_small_block_in tables.now number
        then code_of (whole_in tables.now number).variables
        (body_in (whole_in tables.now number) number (statements_of (named_by unit.now).declares))
        else [])) }
    ensures depth { IfOk result
        (λ body. body.depth ≡ min (declared_depth inputs (named_by unit.now).declares)
        (length body.code)) }
{
    if tables.is_small_block(number) {
        body_of(alloc, unit, tables, number, inputs)
    } else {
        let code = Code::new(alloc);
        Ok(Body { code, depth: 0 })
    }
}

/// The code of the body of a unit, which has this number in the tables.
pub(crate) fn body_of(
    alloc: Global,
    unit: &NamedUnit<'_>,
    tables: &Tables<'_>,
    number: usize,
    inputs: usize,
) -> Result<Body, AllocError>
    requires small { IsSmall (whole_in tables.now number).variables }
    ensures code { IfOk result (λ body. body.code
        ≡ code_of (whole_in tables.now number).variables
        (body_in (whole_in tables.now number)
        number (statements_of (named_by unit.now).declares))) }
    ensures depth { IfOk result
        (λ body. body.depth ≡ min (declared_depth inputs (named_by unit.now).declares)
        (length body.code)) }
{
    let code = code_of(alloc, unit, tables, number)?;
    let depth = declared_depth(unit, inputs).min(code.len());
    Ok(Body { code, depth })
}

/// The code of a unit's chart, where its body is one, and else of its statements.
fn code_of(
    alloc: Global,
    unit: &NamedUnit<'_>,
    tables: &Tables<'_>,
    number: usize,
) -> Result<Code, AllocError>
    requires small { IsSmall (whole_in tables.now number).variables }
    ensures { IfOk result (λ code. code ≡ code_of (whole_in tables.now number).variables
        (body_in (whole_in tables.now number)
        number (statements_of (named_by unit.now).declares))) }
{
    let elements = tables.chart(number);
    if elements.is_empty() {
        emit_body(alloc, tables, number, statements_of(unit))
    } else {
        let names = AssociatedNames::of(alloc, elements)?;
        emit_chart(alloc, tables, number, elements, &names)
    }
}

/// How many numbers the stack of a unit's body needs room for by its structure, where functions of the text take so many inputs at
/// most. The number stops at `usize::MAX`.
fn declared_depth(unit: &NamedUnit<'_>, inputs: usize) -> usize
    ensures { result ≡ min (declared_depth inputs (named_by unit.now).declares) usize.MAX }
{
    match unit.kind {
        UnitKind::Block(pou) | UnitKind::Program(pou) => body_depth(&pou.body, inputs),
        UnitKind::Function(function) => statements_depth(function.statements.as_slice(), inputs),
        UnitKind::Type(_) => 0,
    }
}

/// The statements of the body of a unit. A chart has none.
fn statements_of<'a>(unit: &NamedUnit<'a>) -> &'a [Statement]
    ensures { result.now ≡ statements_of (named_by unit.now).declares }
{
    let body = match unit.kind {
        UnitKind::Block(pou) | UnitKind::Program(pou) => &pou.body,
        UnitKind::Function(function) => return function.statements.as_slice(),
        UnitKind::Type(_) => return &[],
    };
    match body {
        Written::Statements(statements) => statements.as_slice(),
        Written::Chart(_) => &[],
    }
}
