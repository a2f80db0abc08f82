//! What is said where a type is expected and another one found.

ghost use Rattle.std.specs.Prelude.{◌≡◌};
ghost use Rattle.st_type_messages.specs.Types.{conversion_cause, due_cause, initial_cause, whole_cause};

use crate::cause::Cause;
use crate::literals::range_of;
use crate::rows::tell;
use st_check_expressions::{compares, elem_of, is_unknown};
use st_messages::{Draft, Lexed, Slot};
use st_operators::{is_comparison, is_integer};
use st_scopes::{Declared, Scope, Tables};
use st_sites::{Site, elements_of, operand_due, own, reached, target_shape};
use st_tree::BinOp;
use st_tree::tree::{Constant, Expression, Operation, Part, VarKind, Variable};
use st_types::{Base, Due, Shape, UnitKind};
use st_values::{Class, Elem};
use std::alloc::{AllocError, Global};

/// Says which type is expected, and which is found.
pub fn explain_type(
    alloc: Global,
    draft: &mut Draft,
    lexed: Lexed<'_>,
    tables: &Tables<'_>,
    scope: &Scope<'_>,
    unit: usize,
    at: u32,
    site: Option<Site<'_>>,
) -> Result<(), AllocError> {
    match site {
        Some(Site::Expression(expression, due)) => {
            return say_expression(alloc, draft, lexed, scope, expression, due);
        }
        Some(Site::Target(variable)) => return say_target(alloc, draft, scope, variable),
        Some(Site::Part(variable, number)) => say_subscripts(draft, scope, variable, number),
        Some(Site::Label(constant, due) | Site::Initial(constant, due)) => {
            say_constant(draft, lexed, constant, due);
        }
        Some(Site::Association(association)) => {
            say_association(draft, scope, association.name.spelling.as_slice());
        }
        Some(Site::Type(name)) => {
            tell(
                draft,
                Cause::NoType,
                &[Slot::Name(name.spelling.as_slice())],
            );
        }
        Some(Site::Declared(_)) => say_declared(draft, lexed, tables, unit, at),
        _ => {}
    }
    Ok(())
}

/// Says why something can't be declared so.
fn say_declared(draft: &mut Draft, lexed: Lexed<'_>, tables: &Tables<'_>, unit: usize, at: u32) {
    let cause = declared_cause(tables, unit, at);
    tell(draft, cause, &[Slot::Name(lexed.spelling(at))]);
}

/// Why what is named at a token can't be declared so.
fn declared_cause(tables: &Tables<'_>, unit: usize, at: u32) -> Cause {
    if unit >= tables.len() {
        return Cause::Undeclarable;
    }
    match declared_at(tables.declared(unit), at) {
        Some(declared) => misdeclared(tables, tables.unit(unit).kind, declared),
        None => Cause::BeginsOtherwise,
    }
}

/// What is declared at the token of this number.
fn declared_at<'d, 'a>(declared: &'d [Declared<'a>], at: u32) -> Option<&'d Declared<'a>> {
    for variable in declared {
        if variable.name.position.number == at {
            return Some(variable);
        }
    }
    None
}

/// What is wrong with a declaration.
fn misdeclared(tables: &Tables<'_>, unit: UnitKind<'_>, declared: &Declared<'_>) -> Cause {
    let shape = tables.shape_of(&declared.declaration.specification);
    let is_function = matches!(unit, UnitKind::Function(_));
    let is_constant = matches!(declared.kind, VarKind::Constant);
    let is_compound = !shape.is_value() && !is_unknown(shape.base);
    if is_function && matches!(declared.kind, VarKind::Output) {
        Cause::FunctionOutput
    } else if (is_function || is_constant) && is_compound {
        Cause::NotSingle
    } else {
        initial_cause(shape.base)
    }
}

/// What is wrong with the initial value of a variable whose elements, or which itself, are this.
fn initial_cause(base: Base) -> Cause
    ensures { result ≡ initial_cause base }
{
    match base {
        Base::Block(_) | Base::Standard(_) => Cause::InstanceDeclared,
        Base::Structure(_) => Cause::StructureInitial,
        _ => Cause::ListTooLong,
    }
}

/// What is due, in words.
fn due_words<'d>(due: Due) -> Slot<'d> {
    match due {
        Due::Type(elem) => Slot::Bytes(elem.name()),
        Due::Integer => Slot::Words("an integer"),
        Due::NoValue => Slot::Words("nothing"),
        Due::Any => Slot::Words("a single value"),
    }
}

/// Says that a type is expected, what is found, and which conversion of this value would do, where there is one.
fn say_conversion(draft: &mut Draft, found: Elem, due: Due, value: &[u8]) {
    let range = match due {
        Due::Type(elem) => range_of(elem),
        _ => "",
    };
    let slots = [
        due_words(due),
        Slot::Bytes(found.name()),
        Slot::Bytes(value),
        Slot::Words(range),
    ];
    tell(draft, due_cause(found, due), &slots);
}

/// What is said where a type is found, and this is due.
fn due_cause(found: Elem, due: Due) -> Cause
    ensures { result ≡ due_cause found due }
{
    match due {
        Due::Type(elem) => conversion_cause(found, elem),
        Due::Integer => Cause::ExpectedInteger,
        Due::Any | Due::NoValue => Cause::Expected,
    }
}

/// What is said where a type is found, and another one is due.
fn conversion_cause(found: Elem, due: Elem) -> Cause
    ensures { result ≡ conversion_cause found due }
{
    if due.is(Elem::Bool) {
        Cause::ExpectedBool
    } else if due.is(Elem::Time) {
        Cause::ExpectedTime
    } else if found.is(Elem::Time) {
        Cause::FoundTime
    } else if found.limit() > due.limit() || (found.is_signed() && !due.is_signed()) {
        Cause::Wrapped
    } else {
        Cause::Converted
    }
}

/// Says why an expression isn't what is due.
fn say_expression(
    alloc: Global,
    draft: &mut Draft,
    lexed: Lexed<'_>,
    scope: &Scope<'_>,
    expression: &Expression,
    due: Due,
) -> Result<(), AllocError> {
    let (part, due) = part_at_fault(alloc, scope, expression, due)?;
    match part {
        Expression::Constant(constant) => say_constant(draft, lexed, constant, due),
        Expression::Variable(variable) => {
            let shape = target_shape(alloc, scope, variable)?;
            say_variable(draft, &shape, variable, due);
        }
        Expression::Negate(_, _) => say_untaken(draft, b"-", "integers and TIME", due),
        Expression::Not(_, _) => say_untaken(draft, b"NOT", "BOOL and bit strings", due),
        Expression::Call(call) => {
            let found = own(alloc, scope, part)?;
            say_call(draft, call.name.spelling.as_slice(), found, due);
        }
        Expression::Chain(_, _, operations) => {
            say_operators(draft, lexed, operations.as_slice(), due);
        }
        Expression::Parenthesized(_, _) => {}
    }
    Ok(())
}

/// The part of an expression that isn't what is due, and what is due of it: what stands in parentheses, or the first operand where its
/// operators give and take what is due.
fn part_at_fault<'e>(
    alloc: Global,
    scope: &Scope<'_>,
    expression: &'e Expression,
    due: Due,
) -> Result<(&'e Expression, Due), AllocError> {
    match expression {
        Expression::Parenthesized(_, inner) => part_at_fault(alloc, scope, inner.get(), due),
        Expression::Chain(_, left, operations) if fits(operations.as_slice(), due) => {
            let inside = operand_due(alloc, scope, left.get(), operations.as_slice(), due)?;
            part_at_fault(alloc, scope, left.get(), inside)
        }
        _ => Ok((expression, due)),
    }
}

/// Whether operators give and take what is due.
fn fits(operations: &[Operation], due: Due) -> bool {
    if compares(operations) {
        matches!(due, Due::Type(Elem::Bool))
    } else {
        untaken(operations, due).is_none()
    }
}

/// Says why a variable of this shape isn't what is due.
fn say_variable(draft: &mut Draft, shape: &Shape<'_>, variable: &Variable, due: Due) {
    match elem_of(shape) {
        Some(found) => say_conversion(draft, found, due, written(variable)),
        None => say_whole(draft, shape, variable),
    }
}

/// Says why a call of a function of this name, which gives this type, isn't what is due.
fn say_call(draft: &mut Draft, name: &[u8], found: Option<Elem>, due: Due) {
    match found {
        Some(found) if !is_due(found, due) => say_conversion(draft, found, due, b".."),
        _ => say_function(draft, name, due),
    }
}

/// Whether a type is what is due.
fn is_due(elem: Elem, due: Due) -> bool {
    match due {
        Due::Type(wanted) => elem.is(wanted),
        Due::Integer => is_integer(elem),
        Due::Any | Due::NoValue => true,
    }
}

/// A variable as it is written, where it has no parts.
fn written(variable: &Variable) -> &[u8] {
    if variable.parts.is_empty() {
        variable.name.spelling.as_slice()
    } else {
        b".."
    }
}

/// Says which types an operator takes, where another one is due.
fn say_untaken(draft: &mut Draft, operator: &[u8], taken: &'static str, due: Due) {
    let slots = [Slot::Name(operator), Slot::Words(taken), due_words(due)];
    tell(draft, Cause::Untaken, &slots);
}

/// Says that a standard function doesn't give what is due.
fn say_function(draft: &mut Draft, name: &[u8], due: Due) {
    tell(draft, Cause::NotGiven, &[Slot::Name(name), due_words(due)]);
}

/// Says why operators don't give or take what is due.
fn say_operators(draft: &mut Draft, lexed: Lexed<'_>, operations: &[Operation], due: Due) {
    let first = match operations.first() {
        Some(operation) => lexed.spelling(operation.position.number),
        None => b"",
    };
    match untaken(operations, due) {
        Some(taken) if !compares(operations) => say_untaken(draft, first, taken, due),
        _ => tell(draft, Cause::Compared, &[Slot::Name(first), due_words(due)]),
    }
}

/// What operators take, where they don't take what is due.
fn untaken(operations: &[Operation], due: Due) -> Option<&'static str> {
    let Due::Type(elem) = due else {
        return None;
    };
    for operation in operations {
        let taken = taken_by(operation.operator, elem);
        if taken.is_some() {
            return taken;
        }
    }
    None
}

/// What an operator takes, where it doesn't take this type.
fn taken_by(operator: BinOp, elem: Elem) -> Option<&'static str> {
    let class = elem.class();
    match operator {
        BinOp::Add | BinOp::Sub => match class {
            Class::Integer | Class::Duration => None,
            _ => Some("integers and TIME"),
        },
        BinOp::Mul | BinOp::Div | BinOp::Mod => match class {
            Class::Integer => None,
            _ => Some("integers"),
        },
        BinOp::And | BinOp::Or | BinOp::Xor => match class {
            Class::Boolean | Class::BitString => None,
            _ => Some("BOOL and bit strings"),
        },
        _ => {
            if is_comparison(operator) {
                Some("a side each, and is no part of a sum")
            } else {
                None
            }
        }
    }
}

/// Says why a literal isn't what is due.
fn say_constant(draft: &mut Draft, lexed: Lexed<'_>, constant: &Constant, due: Due) {
    match constant {
        Constant::Integer(number) => say_number(draft, lexed, number.position.number, due),
        Constant::Typed(_, value) => {
            let found = value.get().elem;
            let slots = [due_words(due), Slot::Bytes(found.name())];
            tell(draft, Cause::TypedLiteral, &slots);
        }
        Constant::Duration(_) => {
            let slots = [due_words(due), Slot::Bytes(Elem::Time.name())];
            tell(draft, Cause::FoundDuration, &slots);
        }
        Constant::Bool(position, _) => say_truth(draft, lexed.spelling(position.number), due),
    }
}

/// Says why TRUE or FALSE, as it is written, isn't what is due.
fn say_truth(draft: &mut Draft, written: &[u8], due: Due) {
    match due {
        Due::Type(elem) if !elem.is(Elem::Time) => {
            say_conversion(draft, Elem::Bool, due, written);
        }
        _ => {
            let slots = [due_words(due), Slot::Bytes(Elem::Bool.name())];
            tell(draft, Cause::Expected, &slots);
        }
    }
}

/// Says why the number at a token isn't what is due.
fn say_number(draft: &mut Draft, lexed: Lexed<'_>, at: u32, due: Due) {
    let (sign, number) = lexed.literal(at);
    let cause = match due {
        Due::Type(Elem::Time) => Cause::NumberForTime,
        _ => Cause::FoundNumber,
    };
    let slots = [
        due_words(due),
        Slot::Bytes(sign),
        Slot::Bytes(number),
        Slot::Bytes(lexed.spelling(at)),
    ];
    tell(draft, cause, &slots);
}

/// Says that a whole array, structure or instance stands for a value.
fn say_whole(draft: &mut Draft, shape: &Shape<'_>, variable: &Variable) {
    let name = variable.name.spelling.as_slice();
    tell(draft, whole_cause(shape), &[Slot::Name(name)]);
}

/// What is said of a whole array, structure or instance that stands for a value.
fn whole_cause(shape: &Shape<'_>) -> Cause
    ensures { result ≡ whole_cause shape.now }
{
    match shape.base {
        _ if shape.subscripts.is_some() => Cause::WholeArray,
        Base::Array(_) => Cause::WholeArray,
        Base::Structure(_) => Cause::WholeStructure,
        Base::Block(_) | Base::Standard(_) => Cause::WholeInstance,
        _ => Cause::NoValue,
    }
}

/// Says why a variable doesn't take a value.
fn say_target(
    alloc: Global,
    draft: &mut Draft,
    scope: &Scope<'_>,
    variable: &Variable,
) -> Result<(), AllocError> {
    let shape = target_shape(alloc, scope, variable)?;
    let name = variable.name.spelling.as_slice();
    match elem_of(&shape) {
        Some(elem) => {
            let slots = [Slot::Name(name), Slot::Bytes(elem.name())];
            tell(draft, Cause::OutputType, &slots);
        }
        None => say_whole(draft, &shape, variable),
    }
    Ok(())
}

/// Says why subscripts don't fit what stands before them.
fn say_subscripts(draft: &mut Draft, scope: &Scope<'_>, variable: &Variable, number: usize) {
    let name = Slot::Name(variable.name.spelling.as_slice());
    let Some(shape) = reached(scope, variable, number) else {
        return tell(draft, Cause::NoElements, &[name]);
    };
    let Some(elements) = elements_of(scope, &shape) else {
        return tell(draft, Cause::NoArray, &[name]);
    };
    let slots = [
        name,
        Slot::Number(elements.subscripts.len() as u64),
        Slot::Number(count_subscripts(variable, number) as u64),
    ];
    tell(draft, Cause::OtherSubscripts, &slots);
}

/// How many subscripts the part of this number of a variable has.
fn count_subscripts(variable: &Variable, number: usize) -> usize {
    match variable.parts.as_slice().get(number) {
        Some(Part::Subscripts(_, subscripts)) => subscripts.len(),
        _ => 0,
    }
}

/// Says why a step can't switch a variable.
fn say_association(draft: &mut Draft, scope: &Scope<'_>, name: &[u8]) {
    let found = match scope.variable(name) {
        Some(symbol) => elem_of(&symbol.shape),
        None => return tell(draft, Cause::SwitchedUnknown, &[Slot::Name(name)]),
    };
    match found {
        Some(elem) => {
            let slots = [Slot::Name(name), Slot::Bytes(elem.name())];
            tell(draft, Cause::SwitchedType, &slots);
        }
        None => tell(draft, Cause::SwitchedWhole, &[Slot::Name(name)]),
    }
}
