//! Which types are due inside an expression.

use st_check_expressions::{
    check_target, compares, elem_due, elem_of, is_unknown, name_due, position_due, selected_type,
};
use st_faults::FirstFault;
use st_scopes::Scope;
use st_tree::tree::{Argument, Constant, Expression, Identifier, Operation, Part, Variable};
use st_types::{Base, Callee, Due, Elements, Shape, or_lint};
use st_values::Elem;
use std::alloc::{AllocError, Global};

/// Whether an expression is made of numbers alone, which take the type that is due.
pub fn is_untyped(expression: &Expression) -> bool {
    match expression {
        Expression::Constant(Constant::Integer(_)) => true,
        Expression::Parenthesized(_, inner) | Expression::Negate(_, inner) => is_untyped(
            inner.get(),
        ),
        Expression::Chain(_, left, operations) => {
            !compares(operations.as_slice()) && is_untyped(left.get())
        }
        _ => false,
    }
}

/// The type that an expression has by itself.
pub fn own(
    alloc: Global,
    scope: &Scope<'_>,
    expression: &Expression,
) -> Result<Option<Elem>, AllocError> {
    if is_untyped(expression) {
        return Ok(None);
    }
    selected_type(alloc, scope, expression)
}

/// What is due of the operands of operators, where this is due of the whole.
pub fn operand_due(
    alloc: Global,
    scope: &Scope<'_>,
    left: &Expression,
    operations: &[Operation],
    due: Due,
) -> Result<Due, AllocError> {
    if !compares(operations) {
        return Ok(due);
    }
    if let Some(elem) = own(alloc, scope, left)? {
        return Ok(Due::Type(elem));
    }
    match operations.first() {
        Some(operation) => Ok(Due::Type(or_lint(own(alloc, scope, &operation.operand)?))),
        None => Ok(due),
    }
}

/// What is due inside an expression of which this is due.
pub fn inner_due(
    alloc: Global,
    scope: &Scope<'_>,
    expression: &Expression,
    due: Due,
) -> Result<Due, AllocError> {
    match due {
        Due::Type(_) => Ok(due),
        _ => Ok(elem_due(own(alloc, scope, expression)?)),
    }
}

/// What a variable that takes a value is.
pub fn target_shape<'a>(
    alloc: Global,
    scope: &Scope<'a>,
    variable: &Variable,
) -> Result<Shape<'a>, AllocError> {
    let mut ignored = FirstFault::new();
    check_target(alloc, scope, &[], variable, &mut ignored)
}

/// What is due of a value for a variable.
pub fn target_due(
    alloc: Global,
    scope: &Scope<'_>,
    variable: &Variable,
) -> Result<Due, AllocError> {
    let shape = target_shape(alloc, scope, variable)?;
    Ok(elem_due(elem_of(&shape)))
}

/// What is due of what goes into a variable of this shape.
fn shape_due(shape: &Shape<'_>) -> Due {
    if is_unknown(shape.base) {
        Due::Any
    } else {
        elem_due(elem_of(shape))
    }
}

/// What is due of the argument of this number, from 0, in a call of which this is due.
pub fn argument_due(
    scope: &Scope<'_>,
    callee: &Callee<'_>,
    argument: &Argument,
    number: usize,
    whole: Due,
) -> Due {
    match (callee, argument) {
        (Callee::Instance(base), Argument::Input(name, _)) => pin_due(scope, *base, name),
        (_, Argument::Input(name, _)) => name_due(callee, name),
        (_, Argument::Positional(_)) => position_due(callee, whole, number),
        (_, Argument::Output(_, _)) => Due::Any,
    }
}

/// What is due of a value for an input of an instance.
fn pin_due(scope: &Scope<'_>, base: Base, name: &Identifier) -> Due {
    match scope.member(base, name.spelling.as_slice()).symbol {
        Some(symbol) => shape_due(&symbol.shape),
        None => Due::Any,
    }
}

/// What a variable is before its part of this number.
pub fn reached<'a>(scope: &Scope<'a>, variable: &Variable, number: usize) -> Option<Shape<'a>> {
    let mut shape = scope.variable(variable.name.spelling.as_slice())?.shape;
    for part in variable.parts.as_slice().iter().take(number) {
        shape = selected(scope, &shape, part)?;
    }
    Some(shape)
}

/// What a part of something is.
fn selected<'a>(scope: &Scope<'a>, shape: &Shape<'a>, part: &Part) -> Option<Shape<'a>> {
    match part {
        Part::Field(name) => {
            let symbol = scope.member(shape.base, name.spelling.as_slice()).symbol?;
            Some(symbol.shape)
        }
        Part::Subscripts(_, _) => Some(Shape::plain(elements_of(scope, shape)?.element)),
    }
}

/// The subscripts and elements of an array.
pub fn elements_of<'a>(scope: &Scope<'a>, shape: &Shape<'a>) -> Option<Elements<'a>> {
    match shape.subscripts {
        Some(subscripts) => Some(Elements {
            subscripts,
            element: shape.base,
        }),
        None => scope.elements(shape.base),
    }
}
