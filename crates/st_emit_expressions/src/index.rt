//! The code of values and of the distances of subscripts.
ghost use Rattle.std.specs.Prelude.{◌≡◌, ◌++◌, OnOk, length, reverse};
ghost use Rattle.st_values.specs.Values.{IsValue};
ghost use Rattle.st_meaning.specs.Typing.{nil};
ghost use Rattle.st_code.specs.Code.{added, cell_of, plain};
ghost use Rattle.st_emit_expressions.specs.Emits.{Emits, own_types};
ghost use Rattle.st_emit_expressions.specs.Places.{dimension_code, dimensions_code};
ghost use Rattle.st_emit_expressions.specs.Trees.{whole_of};

use crate::literal::cell;
use crate::own::own_or_lint;
use crate::scope::Scope;
use st_code::{Code, Instr};
use st_places::Dimension;
use st_tree::tree::Expression;
use st_values::{Elem, Value};
use std::alloc::AllocError;

/// A value.
pub fn emit_value(code: &mut Code, value: Value) -> Result<(), AllocError>
    requires { IsValue value }
    ensures { OnOk result (code.new ≡ code.old ++ reverse
        (plain (Instr.Push (cell_of value.bits)))) }
{
    code.push(Instr::Push(cell(value)), 0)
}

/// 0 of a type.
pub fn emit_nil(code: &mut Code, scope: &Scope<'_>, due: Elem) -> Result<(), AllocError>
    ensures { OnOk result (Emits (whole_of scope.now).variables due (nil due) code.old code.new) }
{
    let nil = Instr::Push(0);
    code.push(nil, 0)?;
    Ok(())
}

/// A distance is added to the one before it, where there is one.
pub(crate) fn emit_added(code: &mut Code, is_indexed: bool) -> Result<(), AllocError>
    ensures { OnOk result (code.new ≡ code.old ++ reverse (added is_indexed)) }
{
    if is_indexed {
        code.push(Instr::Add, 0)?;
    }
    Ok(())
}

/// The instruction for a subscript of this type.
fn dimension_instr(elem: Elem, dimension: Dimension, is_last: bool) -> Instr
    ensures { result ≡ dimension_code elem dimension is_last }
{
    let Dimension { last, stride, low } = dimension;
    if is_last {
        Instr::Index(elem, last, stride, low)
    } else {
        Instr::IndexBelow(elem, last, stride, low)
    }
}

/// The distances of subscripts.
pub(crate) fn emit_dimensions(
    code: &mut Code,
    scope: &Scope<'_>,
    line: u32,
    dimensions: &[Dimension],
    subscripts: &[Expression],
) -> Result<(), AllocError>
    requires { length dimensions.now ≡ length subscripts.now }
    ensures { OnOk result (code.new ≡ code.old ++ reverse
        (dimensions_code line (own_types (whole_of scope.now) subscripts.now) dimensions.now)) }
{
    if dimensions.is_empty() {
        code.push(Instr::Push(0), 0)?;
        return Ok(());
    }
    for i in 0..dimensions.len() {
        let elem = own_or_lint(scope, &subscripts[i]);
        let is_last = i + 1 == dimensions.len();
        code.push(dimension_instr(elem, dimensions[i], is_last), line)?;
    }
    Ok(())
}
