//! What is said of calls that don't fit what they call, and of EXIT.

use crate::cause::Cause;
use crate::names::{names_of, offer_parts, tell_near, tell_parts};
use crate::rows::{tell, tell_two};
use st_check_expressions::count_positionals;
use st_messages::{Draft, Lexed, Nearest, Slot};
use st_scopes::{Scope, Tables};
use st_sites::Site;
use st_tree::tree::{Argument, Call, Expression, Identifier, VarKind};
use st_types::{Base, Callee, Purpose, Signature, StandardFunction};
use std::alloc::{AllocError, Global};

/// Says why a call, or an EXIT, doesn't fit.
pub fn explain_call(
    alloc: Global,
    draft: &mut Draft,
    lexed: Lexed<'_>,
    tables: &Tables<'_>,
    scope: &Scope<'_>,
    at: u32,
    site: Option<Site<'_>>,
) -> Result<(), AllocError> {
    match site {
        Some(Site::Exit) => tell(draft, Cause::NoLoop, &[Slot::Name(lexed.spelling(at))]),
        Some(Site::Call(call)) => return say_statement(alloc, draft, tables, scope, call),
        Some(Site::Expression(expression, _)) => {
            if let Some(call) = first_call(expression) {
                return say_value(alloc, draft, tables, scope, call);
            }
        }
        _ => {}
    }
    Ok(())
}

/// The call with which an expression begins.
fn first_call(expression: &Expression) -> Option<&Call> {
    match expression {
        Expression::Call(call) => Some(call),
        Expression::Chain(_, left, _) => first_call(left.get()),
        _ => None,
    }
}

/// Says why a call statement doesn't fit.
fn say_statement(
    alloc: Global,
    draft: &mut Draft,
    tables: &Tables<'_>,
    scope: &Scope<'_>,
    call: &Call,
) -> Result<(), AllocError> {
    let name = call.name.spelling.as_slice();
    match scope.callee(name) {
        Callee::Instance(base) => return say_invocation(alloc, draft, tables, scope, base, call),
        Callee::Block => say_block(draft, name),
        _ => tell(draft, Cause::FunctionInvoked, &[Slot::Name(name)]),
    }
    Ok(())
}

/// Says that a function block is called in place of an instance.
fn say_block(draft: &mut Draft, name: &[u8]) {
    tell(
        draft,
        Cause::BlockInvoked,
        &[Slot::Name(name), Slot::Bytes(name)],
    );
}

/// The name of the function block of an instance.
fn block_name<'b>(tables: &'b Tables<'_>, base: Base) -> &'b [u8] {
    match base {
        Base::Standard(block) => block.name(),
        Base::Block(unit) if unit < tables.len() => tables.unit(unit).name.spelling.as_slice(),
        _ => b"it",
    }
}

/// Says why the arguments of an invocation don't fit.
fn say_invocation(
    alloc: Global,
    draft: &mut Draft,
    tables: &Tables<'_>,
    scope: &Scope<'_>,
    base: Base,
    call: &Call,
) -> Result<(), AllocError> {
    let arguments = call.arguments.as_slice();
    if count_positionals(arguments) != 0 {
        tell(draft, Cause::NoNames, &[]);
        tell_parts(alloc, draft, tables, base)?;
        tell(draft, Cause::WriteNames, &[]);
    } else if let Some((name, cause)) = first_misnamed(scope, base, arguments) {
        let spelling = name.spelling.as_slice();
        let block = Slot::Bytes(block_name(tables, base));
        tell_two(draft, cause, block, Slot::Name(spelling));
        tell_parts(alloc, draft, tables, base)?;
        let mut nearest = Nearest::new(alloc, spelling);
        offer_parts(&mut nearest, tables, base);
        tell_near(draft, Cause::Near, &nearest);
    } else {
        tell(draft, Cause::PinTwice, &[]);
    }
    Ok(())
}

/// The first name of an argument that is no input, or no output, of an instance, and which of them it isn't.
fn first_misnamed<'c>(
    scope: &Scope<'_>,
    base: Base,
    arguments: &'c [Argument],
) -> Option<(&'c Identifier, Cause)> {
    for argument in arguments {
        match argument {
            Argument::Input(name, _) if !is_pin(scope, base, name, Purpose::Input) => {
                return Some((name, Cause::NoInput));
            }
            Argument::Output(name, _) if !is_pin(scope, base, name, Purpose::Output) => {
                return Some((name, Cause::NoOutput));
            }
            _ => {}
        }
    }
    None
}

/// Whether a name is that of an input, or of an output.
fn is_pin(scope: &Scope<'_>, base: Base, name: &Identifier, purpose: Purpose) -> bool {
    match scope.member(base, name.spelling.as_slice()).symbol {
        Some(symbol) => symbol.purpose == purpose,
        None => false,
    }
}

/// Says why a call in an expression doesn't fit.
fn say_value(
    alloc: Global,
    draft: &mut Draft,
    tables: &Tables<'_>,
    scope: &Scope<'_>,
    call: &Call,
) -> Result<(), AllocError> {
    let name = call.name.spelling.as_slice();
    let count = call.arguments.as_slice().len();
    match scope.callee(name) {
        Callee::Instance(_) => tell(draft, Cause::InstanceValue, &[Slot::Name(name)]),
        Callee::Block => say_block(draft, name),
        Callee::Standard(function) => say_taken(draft, name, taken(function), count),
        Callee::Conversion(_, _) => say_taken(draft, name, "one argument", count),
        Callee::Own(signature) => return say_own(alloc, draft, tables, &signature, call),
        _ => {}
    }
    Ok(())
}

/// Which arguments a standard function takes.
fn taken(function: StandardFunction) -> &'static str {
    match function {
        StandardFunction::Abs => "one argument",
        StandardFunction::Min | StandardFunction::Max => "two or more arguments",
        StandardFunction::Limit => "three arguments, LIMIT(Least, Value, Most)",
        StandardFunction::Sel => "three arguments, SEL(Condition, IfFalse, IfTrue)",
        StandardFunction::Shl
        | StandardFunction::Shr
        | StandardFunction::Rol
        | StandardFunction::Ror => "two arguments, the bits and a count",
    }
}

/// Says which arguments a function takes, all by position, and how many there are.
fn say_taken(draft: &mut Draft, name: &[u8], taken: &'static str, count: usize) {
    let slots = [
        Slot::Name(name),
        Slot::Words(taken),
        Slot::Number(count as u64),
    ];
    tell(draft, Cause::OtherArguments, &slots);
}

/// Says why the arguments of a function of the text don't fit.
fn say_own(
    alloc: Global,
    draft: &mut Draft,
    tables: &Tables<'_>,
    signature: &Signature<'_>,
    call: &Call,
) -> Result<(), AllocError> {
    let name = call.name.spelling.as_slice();
    let arguments = call.arguments.as_slice();
    match first_misfit(signature, arguments) {
        Some(Argument::Output(_, _)) => {
            tell(draft, Cause::FunctionOutputs, &[Slot::Name(name)]);
            return Ok(());
        }
        Some(Argument::Input(input, _)) => {
            let input = input.spelling.as_slice();
            tell(
                draft,
                Cause::NoInput,
                &[Slot::Name(name), Slot::Name(input)],
            );
        }
        _ => {
            let slots = [
                Slot::Name(name),
                Slot::Number(signature.len() as u64),
                Slot::Number(arguments.len() as u64),
            ];
            tell(draft, Cause::OtherCount, &slots);
        }
    }
    tell_inputs(alloc, draft, tables, name)
}

/// The first argument that gives an output, or an input that the function hasn't.
fn first_misfit<'c>(signature: &Signature<'_>, arguments: &'c [Argument]) -> Option<&'c Argument> {
    for argument in arguments {
        let fits = match argument {
            Argument::Input(name, _) => signature.number_of(name.spelling.as_slice()).is_some(),
            Argument::Output(_, _) => false,
            Argument::Positional(_) => true,
        };
        if !fits {
            return Some(argument);
        }
    }
    None
}

/// Says which inputs a function of the text has.
fn tell_inputs(
    alloc: Global,
    draft: &mut Draft,
    tables: &Tables<'_>,
    name: &[u8],
) -> Result<(), AllocError> {
    if let Some(unit) = tables.number_of(name) {
        let inputs = names_of(alloc, tables, unit, VarKind::Input)?;
        tell(draft, Cause::Inputs, &[Slot::Words(inputs.as_str())]);
    }
    Ok(())
}
