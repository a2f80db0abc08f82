//! X and T of the steps of a chart (2.6.2): whether a step is active, and for how long.
ghost use Rattle.std.specs.Prelude.{◌≡◌, OnOk};
ghost use Rattle.st_meaning.specs.Typing.{place_of, step_part};
ghost use Rattle.st_emit_expressions.specs.Emits.{Emits};
ghost use Rattle.st_emit_expressions.specs.Steps.{as_step, step_leaf_at, step_leaf_named};
ghost use Rattle.st_emit_expressions.specs.Trees.{whole_of};

use crate::index::emit_nil;
use crate::scope::Scope;
use st_code::{Code, Instr};
use st_tree::tree::{Part, Variable};
use st_types::is_same_name;
use st_values::Elem;
use std::alloc::AllocError;

/// What a part says of a step: for how long it has been active, where this is TRUE, else whether it is.
fn step_part(part: &[u8]) -> Option<bool>
    ensures { result ≡ step_part part.now }
{
    if is_same_name(b"X", part) {
        Some(false)
    } else if is_same_name(b"T", part) {
        Some(true)
    } else {
        None
    }
}

/// The type of this part of the step of this name, and its leaf.
fn step_named(scope: &Scope<'_>, name: &[u8], part: &[u8]) -> Option<(Elem, u32)>
    ensures { result ≡ step_leaf_named (whole_of scope.now).variables name.now
        (step_part part.now) }
{
    let is_time = step_part(part)?;
    let leaf = scope.step(is_time, name)?;
    let elem = if is_time { Elem::Time } else { Elem::Bool };
    Some((elem, leaf))
}

/// The type of X or T of a step, and its leaf, where the variable is written as one of these.
fn step_at(scope: &Scope<'_>, variable: &Variable) -> Option<(Elem, u32)>
    ensures { result ≡ step_leaf_at (whole_of scope.now).variables
        (place_of (whole_of scope.now) variable.now) }
{
    let parts = variable.parts.as_slice();
    if parts.len() != 1 {
        return None;
    }
    match &parts[0] {
        Part::Field(part) => step_named(
            scope,
            variable.name.spelling.as_slice(),
            part.spelling.as_slice(),
        ),
        Part::Subscripts(_, _) => None,
    }
}

/// The type of X or T of a step, where the variable is written as one of these.
pub(crate) fn step_type(scope: &Scope<'_>, variable: &Variable) -> Option<Elem>
    ensures { result ≡ (as_step (whole_of scope.now).variables
        (place_of (whole_of scope.now) variable.now)).own }
{
    let (elem, _) = step_at(scope, variable)?;
    Some(elem)
}

/// X or T of a step, where the variable is written as one of these, else 0.
pub(crate) fn emit_step_part(
    code: &mut Code,
    scope: &Scope<'_>,
    variable: &Variable,
    due: Elem,
) -> Result<(), AllocError>
    ensures { OnOk result (Emits (whole_of scope.now).variables due
        ((as_step (whole_of scope.now).variables
        (place_of (whole_of scope.now) variable.now)).as_type due) code.old code.new) }
{
    let Some((elem, leaf)) = step_at(scope, variable) else {
        emit_nil(code, scope, due)?;
        return Ok(());
    };
    if elem.is(due) {
        code.push(Instr::Get(leaf), 0)?;
    } else {
        emit_nil(code, scope, due)?;
    }
    Ok(())
}
