//! The code of invocations of function blocks (3.3.2.2).
ghost use Rattle.std.specs.Prelude.{◌≡◌, ◌∷◌, ◌++◌, IfSome, OnOk, [], option_map, reverse};
ghost use Rattle.st_meaning.specs.Typing.{call_command, inputs_of, outputs_of, pin_of, place_typed};
ghost use Rattle.st_meaning.specs.Wholes.{type_of};
ghost use Rattle.st_code.specs.Code.{base_of, command_code, moves_code};
ghost use Rattle.st_emit_expressions.specs.Emits.{Emits};
ghost use Rattle.st_emit.specs.Instances.{instance_instr};
ghost use Rattle.st_emit.specs.Moves.{moves_of};
ghost use Rattle.st_emit_expressions.specs.Trees.{whole_of};

use st_code::{Code, Instr};
use st_emit_expressions::{Scope, emit_expression, emit_nil, emit_store, locate};
use st_tree::tree::{Argument, Call, Identifier};
use st_values::Elem;
use std::alloc::AllocError;

/// A call statement. Where the name is that of an instance, its inputs are stored, the block does what it does, and its outputs
/// are assigned.
pub(crate) fn emit_invocation(
    code: &mut Code,
    scope: &Scope<'_>,
    call: &Call,
) -> Result<(), AllocError>
    ensures { OnOk result (code.new ≡ code.old ++ reverse
        (command_code (whole_of scope.now).variables (call_command (whole_of scope.now) call.now)
        0 0)) }
{
    let line = call.name.position.line;
    let Some(block) = instance(scope, &call.name) else {
        return code.push(Instr::Step, line);
    };
    let arguments = call.arguments.as_slice();
    emit_moves(code, scope, &call.name, arguments, Moved::Outputs)?;
    code.push(block, 0)?;
    emit_moves(code, scope, &call.name, arguments, Moved::Inputs)?;
    code.push(Instr::Step, line)?;
    code.push(Instr::Step, line)
}

/// The instruction that runs the block of which the name is an instance.
fn instance(scope: &Scope<'_>, name: &Identifier) -> Option<Instr>
    ensures { result ≡ instance_instr (whole_of scope.now) name.now.spelling }
{
    let (first, node) = scope.select(scope.root(), name.spelling.as_slice())?;
    if let Some(block) = scope.block(node) {
        return Some(Instr::Invoke(block, first));
    }
    let unit = scope.instance(name.spelling.as_slice())?;
    Some(Instr::Enter(first, unit))
}

/// The type of an input or an output of an instance, and how many leaves stand before it.
fn pin(scope: &Scope<'_>, instance: &Identifier, name: &Identifier) -> Option<(Elem, u32)>
    ensures elem { option_map (λ found. found.0) result
        ≡ type_of (whole_of scope.now).variables (pin_of instance.now.spelling name.now.spelling) }
    ensures leaf { IfSome result
        (λ found. found.1 ≡ base_of (whole_of scope.now).variables
        (pin_of instance.now.spelling name.now.spelling)) }
{
    let (first, whole) = scope.select(scope.root(), instance.spelling.as_slice())?;
    let (before, node) = scope.select(whole, name.spelling.as_slice())?;
    let elem = scope.value(node)?;
    Some((elem, first + before))
}

/// What is moved of the arguments of an invocation.
#[derive(Clone, Copy)]
enum Moved {
    /// The inputs, before the block runs.
    Inputs,
    /// The outputs, after it.
    Outputs,
}

/// The inputs among arguments, or the outputs, each moved before the next is evaluated.
fn emit_moves(
    code: &mut Code,
    scope: &Scope<'_>,
    instance: &Identifier,
    arguments: &[Argument],
    moved: Moved,
) -> Result<(), AllocError>
    ensures { OnOk result (code.new ≡ code.old ++ reverse
        (moves_code (whole_of scope.now).variables
        (moves_of moved (whole_of scope.now) instance.now.spelling arguments.now))) }
{
    let mut i = arguments.len();
    while i > 0 {
        i -= 1;
        emit_move(code, scope, instance, &arguments[i], moved)?;
    }
    Ok(())
}

/// An argument, where it is an input or an output as is to be moved.
fn emit_move(
    code: &mut Code,
    scope: &Scope<'_>,
    instance: &Identifier,
    argument: &Argument,
    moved: Moved,
) -> Result<(), AllocError>
    ensures { OnOk result (code.new ≡ code.old ++ reverse
        (moves_code (whole_of scope.now).variables
        (moves_of moved (whole_of scope.now) instance.now.spelling (argument.now ∷ [])))) }
{
    match moved {
        Moved::Inputs => emit_input(code, scope, instance, argument),
        Moved::Outputs => emit_output(code, scope, instance, argument),
    }
}

/// An input, where it has a type.
fn emit_input(
    code: &mut Code,
    scope: &Scope<'_>,
    instance: &Identifier,
    argument: &Argument,
) -> Result<(), AllocError>
    ensures { OnOk result (code.new ≡ code.old ++ reverse
        (moves_code (whole_of scope.now).variables
        (inputs_of (whole_of scope.now) instance.now.spelling (argument.now ∷ [])))) }
{
    match argument {
        Argument::Input(name, value) => {
            let Some((elem, leaf)) = pin(scope, instance, name) else {
                return Ok(());
            };
            code.push(Instr::Put(elem, leaf), 0)?;
            emit_expression(code, scope, value.get(), elem)?;
            Ok(())
        }
        Argument::Positional(_) | Argument::Output(_, _) => Ok(()),
    }
}

/// An output, where the variable that takes it has a type.
fn emit_output(
    code: &mut Code,
    scope: &Scope<'_>,
    instance: &Identifier,
    argument: &Argument,
) -> Result<(), AllocError>
    ensures { OnOk result (code.new ≡ code.old ++ reverse
        (moves_code (whole_of scope.now).variables
        (outputs_of (whole_of scope.now) instance.now.spelling (argument.now ∷ [])))) }
{
    match argument {
        Argument::Output(name, variable) => {
            let Some(place) = locate(scope, variable.get()) else {
                return Ok(());
            };
            emit_store(code, scope, variable.get(), place)?;
            emit_pin(code, scope, instance, name, place.elem)?;
            Ok(())
        }
        Argument::Positional(_) | Argument::Input(_, _) => Ok(()),
    }
}

/// The value of an output where this type is due.
fn emit_pin(
    code: &mut Code,
    scope: &Scope<'_>,
    instance: &Identifier,
    name: &Identifier,
    due: Elem,
) -> Result<(), AllocError>
    ensures { let place = pin_of instance.now.spelling name.now.spelling in
        OnOk result (Emits (whole_of scope.now).variables due
        ((place_typed place (type_of (whole_of scope.now).variables place)).as_type due)
        code.old code.new) }
{
    let Some((elem, leaf)) = pin(scope, instance, name) else {
        emit_nil(code, scope, due)?;
        return Ok(());
    };
    if elem.is(due) {
        code.push(Instr::Get(leaf), 0)?;
    } else {
        emit_nil(code, scope, due)?;
    }
    Ok(())
}
