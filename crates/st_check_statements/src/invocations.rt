//! Call statements, which invoke instances of function blocks (3.3.2.2).
ghost use Rattle.std.specs.Prelude.{◌≡◌, IfOk, OnOk, map};
ghost use Rattle.std.specs.List.{flat_map, list_all};
ghost use Rattle.st_faults.specs.Faults.{offer_all};
ghost use Rattle.st_types.specs.Scopes.{scope_at};
ghost use Rattle.st_check_expressions.specs.Walk.{known_argument, known_arguments, known_call, known_variable};
ghost use Rattle.st_check_statements.specs.Invocations.{are_inputs, are_outputs, are_pins, call_statement_faults, invocation_faults, is_input, is_output, other_faults, output_faults, pin, pin_faults, statement_rule};

use crate::around::Around;
use crate::pins::{check_taker, input_due, is_input, is_output};
use st_check_expressions::{
    check_arguments, check_expression, check_target, count_positionals, has_repeated, input_names,
    offer_broken, output_names,
};
use st_faults::{FirstFault, Rule};
use st_scopes::Scope;
use st_tree::tree::{Argument, Call, Identifier, Variable};
use st_types::{Base, Callee, Due};
use std::alloc::{AllocError, Global};

/// Offers the faults of a call statement.
pub fn check_call_statement(
    alloc: Global,
    scope: &Scope<'_>,
    around: &Around<'_>,
    call: &Call,
    first: &mut FirstFault,
) -> Result<(), AllocError>
    ensures { OnOk result (first.new ≡ offer_all first.old
        (call_statement_faults (scope_at scope.now)
        around.now.counters (known_call (scope_at scope.now) call.now))) }
{
    match scope.callee(call.name.spelling.as_slice()) {
        Callee::Instance(base) => check_invocation(alloc, scope, around, base, call, first)?,
        callee => check_no_instance(alloc, scope, &callee, call, first)?,
    }
    Ok(())
}

/// The rule that a call statement breaks that invokes no instance.
fn statement_rule(callee: &Callee<'_>) -> Option<Rule>
    ensures { result ≡ statement_rule callee.now }
{
    match callee {
        Callee::Missing => Some(Rule::UnknownName),
        Callee::Faulty => None,
        _ => Some(Rule::CallMismatch),
    }
}

/// Offers the faults of a call statement that invokes no instance.
#[tactic(auto, unfolding(st_faults::specs::Faults::offer_all), using(st_faults::proofs::Least::offer_append))]
fn check_no_instance(
    alloc: Global,
    scope: &Scope<'_>,
    callee: &Callee<'_>,
    call: &Call,
    first: &mut FirstFault,
) -> Result<(), AllocError>
    ensures { OnOk result (first.new ≡ offer_all first.old
        (other_faults (known_call (scope_at scope.now) call.now) callee.now)) }
{
    // Typing rests on this rule in its cases `standard_block` and `own_block`.
    offer_broken(statement_rule(callee), call.name.position, first);
    check_arguments(
        alloc,
        scope,
        callee,
        Due::Any,
        call.arguments.as_slice(),
        first,
    )?;
    Ok(())
}

/// Offers the faults of an invocation of an instance.
#[tactic(auto, unfolding(st_faults::specs::Faults::offer_all), using(st_faults::proofs::Least::offer_append))]
fn check_invocation(
    alloc: Global,
    scope: &Scope<'_>,
    around: &Around<'_>,
    base: Base,
    call: &Call,
    first: &mut FirstFault,
) -> Result<(), AllocError>
    ensures { OnOk result (first.new ≡ offer_all first.old
        (invocation_faults (scope_at scope.now)
        around.now.counters (known_call (scope_at scope.now) call.now) base)) }
{
    let arguments = call.arguments.as_slice();
    let fits = are_pins(alloc, scope, base, arguments)?;
    // Typing rests on this rule in its cases `input` and `output`: each argument has the name of one. No case rests on it for a
    // name that stands twice.
    first.offer_when(!fits, call.name.position, Rule::CallMismatch);
    check_pins(alloc, scope, around, base, arguments, first)?;
    Ok(())
}

/// Whether all arguments have names: those of inputs, and those of outputs, none of them twice.
#[tactic(auto, using(st_check_expressions::proofs::Nodes::positionals_known, st_check_expressions::proofs::Nodes::inputs_known, st_check_expressions::proofs::Nodes::outputs_known, st_check_expressions::proofs::Nodes::empty_map))]
fn are_pins(
    alloc: Global,
    scope: &Scope<'_>,
    base: Base,
    arguments: &[Argument],
) -> Result<bool, AllocError>
    ensures { IfOk result (λ fits. fits ≡ are_pins (scope_at scope.now)
        base (known_arguments (scope_at scope.now) arguments.now)) }
{
    if count_positionals(arguments) != 0 {
        return Ok(false);
    }
    let inputs = input_names(alloc, arguments)?;
    let outputs = output_names(alloc, arguments)?;
    Ok(are_inputs(alloc, scope, base, &inputs)? && are_outputs(alloc, scope, base, &outputs)?)
}

/// Whether each of these names is that of an input, and none stands twice.
#[tactic(auto, using(crate::proofs::Names::all_names))]
fn are_inputs(
    alloc: Global,
    scope: &Scope<'_>,
    base: Base,
    names: &[&Identifier],
) -> Result<bool, AllocError>
    ensures { IfOk result (λ fits. fits ≡ are_inputs (scope_at scope.now)
        base (map (λ n. n.now) names.now)) }
{
    if has_repeated(alloc, names)? {
        return Ok(false);
    }
    Ok(all_inputs(scope, base, names))
}

/// Whether each of these names is that of an input.
fn all_inputs(scope: &Scope<'_>, base: Base, names: &[&Identifier]) -> bool
    ensures { result ≡ list_all (λ n. is_input (pin (scope_at scope.now) base n.now)) names.now }
{
    names.iter().all(|name| is_input(scope, base, name))
}

/// Whether each of these names is that of an output, and none stands twice.
#[tactic(auto, using(crate::proofs::Names::all_names))]
fn are_outputs(
    alloc: Global,
    scope: &Scope<'_>,
    base: Base,
    names: &[&Identifier],
) -> Result<bool, AllocError>
    ensures { IfOk result (λ fits. fits ≡ are_outputs (scope_at scope.now)
        base (map (λ n. n.now) names.now)) }
{
    if has_repeated(alloc, names)? {
        return Ok(false);
    }
    Ok(all_outputs(scope, base, names))
}

/// Whether each of these names is that of an output.
fn all_outputs(scope: &Scope<'_>, base: Base, names: &[&Identifier]) -> bool
    ensures { result ≡ list_all (λ n. is_output (pin (scope_at scope.now) base n.now)) names.now }
{
    names.iter().all(|name| is_output(scope, base, name))
}

/// Offers the faults of the arguments of an invocation.
#[tactic(auto, unfolding(st_faults::specs::Faults::offer_all))]
fn check_pins(
    alloc: Global,
    scope: &Scope<'_>,
    around: &Around<'_>,
    base: Base,
    arguments: &[Argument],
    first: &mut FirstFault,
) -> Result<(), AllocError>
    ensures { OnOk result (first.new ≡ offer_all first.old
        (flat_map (pin_faults (scope_at scope.now) base around.now.counters)
        (known_arguments (scope_at scope.now) arguments.now))) }
{
    'arguments: for argument in arguments {
        check_pin(alloc, scope, around, base, argument, first)?;
    }
    Ok(())
}

/// Offers the faults of an argument of an invocation.
#[tactic(auto, unfolding(st_faults::specs::Faults::offer_all), using(st_faults::proofs::Least::offer_append))]
fn check_pin(
    alloc: Global,
    scope: &Scope<'_>,
    around: &Around<'_>,
    base: Base,
    argument: &Argument,
    first: &mut FirstFault,
) -> Result<(), AllocError>
    ensures { OnOk result (first.new ≡ offer_all first.old
        (pin_faults (scope_at scope.now)
        base around.now.counters (known_argument (scope_at scope.now) argument.now))) }
{
    match argument {
        Argument::Positional(value) => check_expression(alloc, scope, value, Due::Any, first)?,
        Argument::Input(name, value) => {
            let due = input_due(scope, base, name);
            check_expression(alloc, scope, value.get(), due, first)?;
        }
        Argument::Output(name, variable) => {
            check_output(alloc, scope, around, base, name, variable.get(), first)?;
        }
    }
    Ok(())
}

/// Offers the faults of a variable that takes the output of this name.
fn check_output(
    alloc: Global,
    scope: &Scope<'_>,
    around: &Around<'_>,
    base: Base,
    name: &Identifier,
    variable: &Variable,
    first: &mut FirstFault,
) -> Result<(), AllocError>
    ensures { OnOk result (first.new ≡ offer_all first.old
        (output_faults (scope_at scope.now)
        base around.now.counters name.now (known_variable (scope_at scope.now) variable.now))) }
{
    let target = check_target(alloc, scope, around.counters, variable, first)?;
    check_taker(scope, base, name, variable.name.position, &target, first);
    Ok(())
}
