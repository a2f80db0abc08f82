//! The code of expressions and places, from its last instruction to the first.
ghost use Rattle.std.specs.Option.{is_some};
ghost use Rattle.std.specs.Prelude.{◌≡◌, ◌++◌, IsTrue, OnOk, None, Some, false, length, reverse};
ghost use Rattle.st_meaning.specs.Sound.{is_fixed, term_type, types_in};
ghost use Rattle.st_meaning.specs.Operations.{unary_type};
ghost use Rattle.st_meaning.specs.Typing.{arguments_from, as_input, call_typed_in, input_at, place_of, prefixed, typed, variable_typed};
ghost use Rattle.st_meaning.specs.Wholes.{type_of};
ghost use Rattle.st_code.specs.Code.{base_of, parts_code, store_code, term_code, terms_code};
ghost use Rattle.st_emit_expressions.specs.Calls.{AreTyped, argument_code, argument_type, arguments_code, behind_argument, passed_in, positionals, taken_at};
ghost use Rattle.st_emit_expressions.specs.Emits.{Emits, own_types, terms_in};
ghost use Rattle.st_types.specs.Standard.{standard_of};
ghost use Rattle.st_emit_expressions.specs.Trees.{chain_of, operand_type, whole_of};

use crate::functions::{emit_behind, input_type, passed_count};
use crate::index::{emit_added, emit_dimensions, emit_nil, emit_value};
use crate::own::{own, own_of_front, own_or_lint, positional_count, takes_number};
use crate::places::{Place, constant_named, locate, stops};
use crate::scope::Scope;
use crate::steps::emit_step_part;
use crate::takes::{gives_type, takes_one};
use st_code::{Code, Instr};
use st_meaning::{Binary, Unary};
use st_operators::{is_comparison, takes};
use st_places::Function;
use st_references::value_written;
use st_tree::tree::{Argument, Call, Expression, Operation, Part, Variable};
use st_types::{Due, Standard, StandardFunction, or_lint, standard_due, standard_of};
use st_values::Elem;
use std::alloc::AllocError;

/// The type at which the two sides of an operator are taken, where this one is due of the whole.
fn operand_type(
    scope: &Scope<'_>,
    first: &Expression,
    front: &[Operation],
    operation: &Operation,
    due: Elem,
) -> Option<Elem>
    ensures { result ≡ operand_type operation.now.operator
        (chain_of (whole_of scope.now) first.now front.now).own
        (typed (whole_of scope.now) operation.now.operand).own due }
{
    if !is_comparison(operation.operator) {
        return if takes(operation.operator, due) {
            Some(due)
        } else {
            None
        };
    }
    if !Elem::Bool.is(due) {
        return None;
    }
    let left = own_of_front(scope, first, front);
    if left.is_some() {
        return Some(or_lint(left));
    }
    Some(own_or_lint(scope, &operation.operand))
}

/// The type at which an argument is taken, where this is due of it.
fn taken_at(scope: &Scope<'_>, due: Due, expression: &Expression) -> Elem
    ensures { result ≡ taken_at due (typed (whole_of scope.now) expression.now).own }
{
    match due {
        Due::Type(elem) => elem,
        _ => own_or_lint(scope, expression),
    }
}

/// The type that is due of the argument of this number.
fn argument_type(
    scope: &Scope<'_>,
    standard: Standard,
    due: Elem,
    number: usize,
    expression: &Expression,
) -> Elem
    ensures { result ≡ argument_type standard due number
        (typed (whole_of scope.now) expression.now).own }
{
    match standard {
        Standard::Function(function) => {
            taken_at(
                scope,
                standard_due(function, Due::Type(due), number),
                expression,
            )
        }
        Standard::Conversion(from, _) => from,
        Standard::Block(_) => due,
    }
}

/// What is done behind the argument of this number, which has this type.
fn behind_argument(standard: Standard, due: Elem, number: usize, elem: Elem) -> Option<Instr>
    ensures { result ≡ behind_argument standard due number elem }
{
    let function = match standard {
        Standard::Function(function) => function,
        Standard::Conversion(from, to) => return Some(Instr::Apply(Unary::Convert(to), from)),
        Standard::Block(_) => return None,
    };
    match function {
        StandardFunction::Abs => Some(Instr::Apply(Unary::Absolute, due)),
        StandardFunction::Sel if number == 2 => Some(Instr::Select),
        StandardFunction::Sel => None,
        _ if number == 0 => None,
        StandardFunction::Min => Some(Instr::Combine(Binary::Least, due, due)),
        StandardFunction::Max => Some(Instr::Combine(Binary::Greatest, due, due)),
        StandardFunction::Limit if number == 1 => {
            Some(Instr::Combine(Binary::Greatest, due, due))
        }
        StandardFunction::Limit => Some(Instr::Combine(Binary::Least, due, due)),
        StandardFunction::Shl => Some(Instr::Combine(Binary::ShiftLeft, due, elem)),
        StandardFunction::Shr => Some(Instr::Combine(Binary::ShiftRight, due, elem)),
        StandardFunction::Rol => Some(Instr::Combine(Binary::RotateLeft, due, elem)),
        StandardFunction::Ror => Some(Instr::Combine(Binary::RotateRight, due, elem)),
    }
}

/// An expression where this type is due.
#[cycle(emit)]
pub fn emit_expression(
    code: &mut Code,
    scope: &Scope<'_>,
    expression: &Expression,
    due: Elem,
) -> Result<(), AllocError>
    ensures { OnOk result (Emits (whole_of scope.now).variables due
        ((typed (whole_of scope.now) expression.now).as_type due) code.old code.new) }
{
    match expression {
        Expression::Constant(literal) => emit_value(code, value_written(due, literal))?,
        Expression::Variable(variable) => emit_variable(code, scope, variable, due)?,
        Expression::Call(call) => emit_call(code, scope, call, due)?,
        Expression::Parenthesized(_, inner) => {
            emit_expression(code, scope, inner.get(), due)?;
        }
        Expression::Negate(_, operand) => {
            emit_prefixed(code, scope, Unary::Negate, operand.get(), due)?;
        }
        Expression::Not(_, operand) => {
            emit_prefixed(code, scope, Unary::Complement, operand.get(), due)?;
        }
        Expression::Chain(_, first, operations) => {
            let operations = operations.as_slice();
            let mut due = due;
            let mut i = operations.len();
            while i > 0 {
                i -= 1;
                let operation = &operations[i];
                let Some(elem) = operand_type(scope, first.get(), &operations[..i], operation, due)
                else {
                    emit_nil(code, scope, due)?;
                    return Ok(());
                };
                let combine = Instr::Combine(Binary::Operator(operation.operator), elem, elem);
                code.push(combine, operation.position.line)?;
                emit_expression(code, scope, &operation.operand, elem)?;
                due = elem;
            }
            emit_expression(code, scope, first.get(), due)?;
        }
    }
    Ok(())
}

/// An operator before an operand.
#[cycle(emit)]
fn emit_prefixed(
    code: &mut Code,
    scope: &Scope<'_>,
    unary: Unary,
    operand: &Expression,
    due: Elem,
) -> Result<(), AllocError>
    requires { unary_type unary due ≡ due }
    ensures { OnOk result (Emits (whole_of scope.now).variables due
        ((prefixed unary (typed (whole_of scope.now) operand.now)).as_type due) code.old code.new) }
{
    if !takes_one(unary, due) {
        emit_nil(code, scope, due)?;
        return Ok(());
    }
    code.push(Instr::Apply(unary, due), 0)?;
    emit_expression(code, scope, operand, due)?;
    Ok(())
}

/// The value of a variable, of a part of a step, or of a constant.
#[cycle(emit)]
fn emit_variable(
    code: &mut Code,
    scope: &Scope<'_>,
    variable: &Variable,
    due: Elem,
) -> Result<(), AllocError>
    ensures { OnOk result (Emits (whole_of scope.now).variables due
        ((variable_typed (whole_of scope.now)
        (place_of (whole_of scope.now) variable.now)).as_type due) code.old code.new) }
{
    if let Some(value) = constant_named(scope, variable) {
        if value.elem.is(due) {
            emit_value(code, value)?;
        } else {
            emit_nil(code, scope, due)?;
        }
        return Ok(());
    }
    let Some(place) = locate(scope, variable) else {
        emit_step_part(code, scope, variable, due)?;
        return Ok(());
    };
    if !place.elem.is(due) {
        emit_nil(code, scope, due)?;
        return Ok(());
    }
    if place.is_fixed {
        code.push(Instr::Get(place.base), 0)?;
    } else {
        code.push(Instr::GetAt(place.base), 0)?;
        emit_parts(code, scope, variable)?;
    }
    Ok(())
}

/// How far the element that the subscripts of a place select stands behind the first.
#[cycle(emit)]
pub(crate) fn emit_parts(
    code: &mut Code,
    scope: &Scope<'_>,
    variable: &Variable,
) -> Result<(), AllocError>
    requires { IsTrue (is_some (type_of (whole_of scope.now).variables
        (place_of (whole_of scope.now) variable.now))) }
    ensures { OnOk result (code.new ≡ code.old ++ reverse
        (parts_code (whole_of scope.now).variables false (whole_of scope.now).variables
        (place_of (whole_of scope.now) variable.now))) }
{
    let all = stops(scope, variable)?;
    let parts = variable.parts.as_slice();
    let mut i = parts.len();
    while i > 0 {
        i -= 1;
        match &parts[i] {
            Part::Field(_) => {}
            Part::Subscripts(position, subscripts) => {
                let stop = all[i];
                let Some((dimensions, _)) = scope.elements(stop.node) else {
                    return Ok(());
                };
                emit_added(code, stop.is_indexed)?;
                emit_dimensions(
                    code,
                    scope,
                    position.line,
                    dimensions,
                    subscripts.as_slice(),
                )?;
                emit_alone(code, scope, subscripts.as_slice())?;
            }
        }
    }
    Ok(())
}

/// Expressions of which no type is due.
#[cycle(emit)]
fn emit_alone(
    code: &mut Code,
    scope: &Scope<'_>,
    expressions: &[Expression],
) -> Result<(), AllocError>
    ensures code { OnOk result (code.new ≡ code.old
        ++ reverse (terms_code (whole_of scope.now).variables
        (terms_in (whole_of scope.now) expressions.now))) }
    ensures types { OnOk result
        (types_in (whole_of scope.now).variables (terms_in (whole_of scope.now) expressions.now)
        ≡ own_types (whole_of scope.now) expressions.now) }
{
    let mut i = expressions.len();
    while i > 0 {
        i -= 1;
        let expression = &expressions[i];
        let due = or_lint(own(scope, expression));
        emit_expression(code, scope, expression, due)?;
    }
    Ok(())
}

/// A call of a function.
#[cycle(emit)]
fn emit_call(code: &mut Code, scope: &Scope<'_>, call: &Call, due: Elem) -> Result<(), AllocError>
    ensures { OnOk result (Emits (whole_of scope.now).variables due
        ((call_typed_in (whole_of scope.now) call.now).as_type due) code.old code.new) }
{
    let arguments = call.arguments.as_slice();
    let Some(standard) = standard_of(call.name.spelling.as_slice()) else {
        emit_function(code, scope, call, due)?;
        return Ok(());
    };
    let number = positional_count(scope, arguments);
    if !takes_number(standard, number) {
        emit_nil(code, scope, due)?;
        return Ok(());
    }
    if !gives_type(standard, due) {
        emit_nil(code, scope, due)?;
        return Ok(());
    }
    emit_arguments(code, scope, standard, due, number, arguments)?;
    Ok(())
}

/// Arguments, of which so many stand by position, and what is done behind each.
#[cycle(emit)]
fn emit_arguments(
    code: &mut Code,
    scope: &Scope<'_>,
    standard: Standard,
    due: Elem,
    number: usize,
    arguments: &[Argument],
) -> Result<(), AllocError>
    requires { number ≡ length (positionals (whole_of scope.now) arguments.now) }
    ensures code { OnOk result (code.new ≡ code.old
        ++ reverse (arguments_code (whole_of scope.now).variables standard due 0
        (positionals (whole_of scope.now) arguments.now))) }
    ensures types { OnOk result
        (AreTyped (whole_of scope.now).variables standard due 0
        (positionals (whole_of scope.now) arguments.now)) }
{
    let mut left = number;
    let mut i = arguments.len();
    while i > 0 {
        i -= 1;
        match &arguments[i] {
            Argument::Positional(expression) => {
                left -= 1;
                emit_argument(code, scope, standard, due, left, expression)?;
            }
            Argument::Input(_, _) => {}
            Argument::Output(_, _) => {}
        }
    }
    Ok(())
}

/// The argument of this number, and what is done behind it.
#[cycle(emit)]
fn emit_argument(
    code: &mut Code,
    scope: &Scope<'_>,
    standard: Standard,
    due: Elem,
    number: usize,
    expression: &Expression,
) -> Result<(), AllocError>
    ensures code { OnOk result (code.new ≡ code.old
        ++ reverse (argument_code (whole_of scope.now).variables standard due number
        (typed (whole_of scope.now) expression.now))) }
    ensures typed { OnOk result
        (term_type (whole_of scope.now).variables
        ((typed (whole_of scope.now) expression.now).as_type
        (argument_type standard due number (typed (whole_of scope.now) expression.now).own))
        ≡ argument_type standard due number (typed (whole_of scope.now) expression.now).own) }
{
    let elem = argument_type(scope, standard, due, number, expression);
    if let Some(instr) = behind_argument(standard, due, number, elem) {
        code.push(instr, 0)?;
    }
    emit_expression(code, scope, expression, elem)?;
    Ok(())
}

/// A call of a function of the text.
#[cycle(emit)]
fn emit_function(
    code: &mut Code,
    scope: &Scope<'_>,
    call: &Call,
    due: Elem,
) -> Result<(), AllocError>
    requires { standard_of call.now.name.spelling ≡ None }
    ensures { OnOk result (Emits (whole_of scope.now).variables due
        ((call_typed_in (whole_of scope.now) call.now).as_type due) code.old code.new) }
{
    let Some(function) = scope.function(call.name.spelling.as_slice()) else {
        emit_nil(code, scope, due)?;
        return Ok(());
    };
    if !function.result().is(due) {
        emit_nil(code, scope, due)?;
        return Ok(());
    }
    let arguments = call.arguments.as_slice();
    emit_behind(code, scope, function, arguments)?;
    emit_passed(code, scope, function, arguments)?;
    code.push(Instr::Step, call.name.position.line)?;
    Ok(())
}

/// The values of arguments.
#[cycle(emit)]
fn emit_passed(
    code: &mut Code,
    scope: &Scope<'_>,
    function: &Function<'_>,
    arguments: &[Argument],
) -> Result<(), AllocError>
    ensures { OnOk result (code.new ≡ code.old ++ reverse
        (terms_code (whole_of scope.now).variables
        (arguments_from function.now.inputs 0 (passed_in (whole_of scope.now) arguments.now)))) }
{
    let mut place = passed_count(scope, arguments);
    let mut number = arguments.len();
    while number > 0 {
        number -= 1;
        match &arguments[number] {
            Argument::Positional(expression) => {
                place -= 1;
                emit_value_of_input(code, scope, function, Some(place), expression)?;
            }
            Argument::Input(name, value) => {
                place -= 1;
                let input = function.input(name.spelling.as_slice());
                emit_value_of_input(code, scope, function, input, value.get())?;
            }
            Argument::Output(_, _) => {}
        }
    }
    Ok(())
}

/// The value of an argument that goes to the input of this number.
#[cycle(emit)]
fn emit_value_of_input(
    code: &mut Code,
    scope: &Scope<'_>,
    function: &Function<'_>,
    input: Option<usize>,
    expression: &Expression,
) -> Result<(), AllocError>
    ensures { OnOk result (code.new ≡ code.old ++ reverse
        (term_code (whole_of scope.now).variables
        (as_input (typed (whole_of scope.now) expression.now)
        (input_at function.now.inputs input)))) }
{
    let due = input_type(scope, function, input, expression);
    emit_expression(code, scope, expression, due)?;
    Ok(())
}

/// A store of what stands on the stack to the variable, which stands at this place.
pub fn emit_store(
    code: &mut Code,
    scope: &Scope<'_>,
    variable: &Variable,
    place: Place,
) -> Result<(), AllocError>
    requires elem { type_of (whole_of scope.now).variables
        (place_of (whole_of scope.now) variable.now) ≡ Some place.elem }
    requires base { place.base ≡ base_of (whole_of scope.now).variables
        (place_of (whole_of scope.now) variable.now) }
    requires fixed { place.is_fixed ≡ is_fixed (place_of (whole_of scope.now) variable.now) }
    ensures { OnOk result (code.new ≡ code.old ++ reverse
        (store_code (whole_of scope.now).variables place.elem
        (place_of (whole_of scope.now) variable.now))) }
{
    if place.is_fixed {
        code.push(Instr::Put(place.elem, place.base), 0)?;
    } else {
        code.push(Instr::PutAt(place.elem, place.base), 0)?;
        emit_parts(code, scope, variable)?;
    }
    Ok(())
}
