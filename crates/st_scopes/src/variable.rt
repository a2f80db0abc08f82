//! What variables are made of (2.4), and what is asked of what goes into them.
ghost use Rattle.std.specs.Prelude.{◌≡◌};
ghost use Rattle.st_scopes.specs.Declarations.{seen};
ghost use Rattle.st_types.specs.Inside.{declared_by};
ghost use Rattle.st_types.specs.Scopes.{component_of, may_hold_instances, must_be_value, placed, purpose_of, shape_due, symbol_of, variable_shape};

use crate::declaration::Declared;
use st_tree::tree::VarKind;
use st_types::{Due, Purpose, Shape, Symbol, TypeTable, UnitKind};

/// What the variables of such a block are for.
fn purpose_of(kind: VarKind) -> Purpose
    ensures { result ≡ purpose_of kind }
{
    match kind {
        VarKind::Internal => Purpose::Internal,
        VarKind::Constant => Purpose::Constant,
        VarKind::Input => Purpose::Input,
        VarKind::Output => Purpose::Output,
    }
}

/// Whether instances may stand there: under VAR of a function block or program.
pub fn may_hold_instances(unit: UnitKind, kind: VarKind) -> bool
    ensures { result ≡ may_hold_instances (declared_by unit.entry) kind }
{
    match unit {
        UnitKind::Block(_) | UnitKind::Program(_) => matches!(kind, VarKind::Internal),
        UnitKind::Type(_) | UnitKind::Function(_) => false,
    }
}

/// Whether an elementary type must stand there: in functions, and under VAR CONSTANT.
pub fn must_be_value(unit: UnitKind, kind: VarKind) -> bool
    ensures { result ≡ must_be_value (declared_by unit.entry) kind }
{
    matches!(unit, UnitKind::Function(_)) || matches!(kind, VarKind::Constant)
}

/// What a variable is made of; unknown where its type may not stand there.
fn placed<'s>(unit: UnitKind, kind: VarKind, shape: Shape<'s>) -> Shape<'s>
    ensures { result ≡ placed (declared_by unit.entry) kind shape.entry }
{
    let is_misplaced = shape.base.is_instance() && !may_hold_instances(unit, kind);
    if is_misplaced || must_be_value(unit, kind) && !shape.is_value() {
        Shape::unknown()
    } else {
        shape
    }
}

/// What a variable of the unit is made of.
pub fn variable_shape<'s>(types: &TypeTable, unit: UnitKind, variable: Declared<'s>) -> Shape<'s>
    ensures { result ≡ variable_shape types.now (declared_by unit.entry) (seen variable.entry) }
{
    let shape = types.shape_of(&variable.declaration.specification);
    placed(unit, variable.kind, shape)
}

/// What the name of a variable of the unit stands for.
pub fn symbol_of<'s>(types: &TypeTable, unit: UnitKind, variable: Declared<'s>) -> Symbol<'s>
    ensures { result ≡ symbol_of types.now (declared_by unit.entry) (seen variable.entry) }
{
    Symbol {
        purpose: purpose_of(variable.kind),
        shape: variable_shape(types, unit, variable),
    }
}

/// What the name of a member of a structure stands for. A structure holds no instances.
pub fn component_of<'s>(types: &TypeTable, member: Declared<'s>) -> Symbol<'s>
    ensures { result ≡ component_of types.now (seen member.entry) }
{
    let shape = types.shape_of(&member.declaration.specification);
    let shape = if shape.base.is_instance() {
        Shape::unknown()
    } else {
        shape
    };
    Symbol {
        purpose: Purpose::Internal,
        shape,
    }
}

/// What is asked of what goes into a variable.
pub fn shape_due(shape: &Shape) -> Due
    ensures { result ≡ shape_due shape.now }
{
    match shape.elem() {
        Some(elem) => Due::Type(elem),
        None => {
            if shape.base.is_unknown() {
                Due::Any
            } else {
                Due::NoValue
            }
        }
    }
}
