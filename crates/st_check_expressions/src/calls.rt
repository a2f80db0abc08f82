//! Calls in expressions (2.5.1.4): which arguments a function takes, and what is asked of them.
ghost use Rattle.std.specs.Prelude.{◌≡◌, ◌&&◌, ◌||◌, IfOk, Some, map, not};
ghost use Rattle.std.specs.List.{list_all};
ghost use Rattle.std.specs.Option.{is_some};
ghost use Rattle.st_faults.specs.Faults.{offer_all};
ghost use Rattle.st_types.specs.OwnTypes.{gives, position_due};
ghost use Rattle.st_types.specs.Scopes.{elem_due};
ghost use Rattle.st_types.specs.Signatures.{input_number};
ghost use Rattle.st_check_expressions.specs.Calls.{are_own_arguments, broken, gives_due, is_faulty, is_input_of, is_repeated, mismatch, name_due, rule_by, takes_arguments};
ghost use Rattle.st_check_expressions.specs.Nodes.{rule_of};

use crate::arguments::{count_positionals, input_names, output_names};
use crate::names::has_repeated;
use st_faults::{FirstFault, Rule};
use st_tree::tree::{Argument, Identifier, Position};
use st_types::{Callee, Due, Signature, function_gives, standard_due, takes_count};
use st_values::Elem;
use std::alloc::{AllocError, Global};

// ---- which arguments a function takes

/// Whether all names are those of inputs of a function.
fn are_inputs(signature: &Signature<'_>, names: &[&Identifier]) -> bool
    ensures { result ≡ list_all (λ n. is_some (input_number signature.now.inputs n.now.spelling))
        names.now }
{
    names.iter().all(|name| signature.number_of(name.spelling.as_slice()).is_some())
}

/// Whether a function of the text takes arguments that stand by the names of inputs, some or all.
#[tactic(auto, using(crate::proofs::Counts::all_inputs))]
fn takes_names(
    alloc: Global,
    signature: &Signature<'_>,
    names: &[&Identifier],
) -> Result<bool, AllocError>
    ensures { IfOk result (λ takes. takes ≡ (not (is_repeated (map (λ n. n.now) names.now))
        && list_all (is_input_of signature.now) (map (λ n. n.now) names.now))) }
{
    if has_repeated(alloc, names)? {
        return Ok(false);
    }
    Ok(are_inputs(signature, names))
}

/// Whether a function of the text takes so many arguments by position, and those by the names of inputs: all by position, or
/// all by name, where some may be left out.
fn takes_own(
    alloc: Global,
    signature: &Signature<'_>,
    count: usize,
    names: &[&Identifier],
) -> Result<bool, AllocError>
    ensures { IfOk result (λ takes. takes ≡ are_own_arguments signature.now count
        (map (λ n. n.now) names.now)) }
{
    if names.is_empty() {
        return Ok(count == 0 || count == signature.len());
    }
    if count != 0 {
        return Ok(false);
    }
    takes_names(alloc, signature, names)
}

/// Whether a callee takes so many arguments by position, and those by the names of inputs.
fn takes_arguments(
    alloc: Global,
    callee: &Callee<'_>,
    count: usize,
    names: &[&Identifier],
) -> Result<bool, AllocError>
    ensures { IfOk result (λ takes. takes ≡ takes_arguments callee.now count
        (map (λ n. n.now) names.now)) }
{
    match callee {
        Callee::Standard(function) => Ok(names.is_empty() && takes_count(*function, count)),
        Callee::Conversion(_, _) => Ok(names.is_empty() && count == 1),
        Callee::Own(signature) => takes_own(alloc, signature, count, names),
        _ => Ok(false),
    }
}

/// The rule that a call breaks at its name, with so many arguments by position, and those by the names of inputs and of
/// outputs. A function has no outputs.
fn rule_by(
    alloc: Global,
    callee: &Callee<'_>,
    count: usize,
    inputs: &[&Identifier],
    outputs: &[&Identifier],
) -> Result<Option<Rule>, AllocError>
    ensures { IfOk result (λ rule. rule ≡ rule_by callee.now count (map (λ n. n.now) inputs.now)
        (map (λ n. n.now) outputs.now)) }
{
    match callee {
        Callee::Missing => Ok(Some(Rule::UnknownName)),
        Callee::Faulty => Ok(None),
        _ => {
            let takes = takes_arguments(alloc, callee, count, inputs)?;
            Ok(mismatch(outputs.is_empty() && takes))
        }
    }
}

/// The rule that is broken unless the arguments fit.
fn mismatch(fits: bool) -> Option<Rule>
    ensures { result ≡ mismatch fits }
{
    if fits { None } else { Some(Rule::CallMismatch) }
}

/// The rule that a call breaks at its name.
pub fn call_rule(
    alloc: Global,
    callee: &Callee<'_>,
    arguments: &[Argument],
) -> Result<Option<Rule>, AllocError>
    ensures { IfOk result (λ rule. rule ≡ rule_of callee.now arguments.now) }
{
    let count = count_positionals(arguments);
    let inputs = input_names(alloc, arguments)?;
    let outputs = output_names(alloc, arguments)?;
    let rule = rule_by(alloc, callee, count, &inputs, &outputs)?;
    Ok(rule)
}

/// Whether a callee is a variable whose type can't be known.
fn is_faulty(callee: &Callee<'_>) -> bool
    ensures { result ≡ is_faulty callee.now }
{
    matches!(callee, Callee::Faulty)
}

/// Whether the type of a call can't be known.
pub fn is_unknown_call(
    alloc: Global,
    callee: &Callee<'_>,
    arguments: &[Argument],
) -> Result<bool, AllocError>
    ensures { IfOk result (λ unknown. unknown ≡ (is_some (rule_of callee.now arguments.now)
        || is_faulty callee.now)) }
{
    let rule = call_rule(alloc, callee, arguments)?;
    Ok(rule.is_some() || is_faulty(callee))
}

// ---- what is asked of arguments

/// What is asked where a type is due, or one that can't be known.
pub fn elem_due(elem: Option<Elem>) -> Due
    ensures { result ≡ elem_due elem }
{
    match elem {
        Some(elem) => Due::Type(elem),
        None => Due::Any,
    }
}

/// What is asked of the argument of this number, from 0, where `whole` is asked of the call.
pub fn position_due(callee: &Callee<'_>, whole: Due, number: usize) -> Due
    ensures { result ≡ position_due callee.now whole number }
{
    match callee {
        Callee::Standard(function) => standard_due(*function, whole, number),
        Callee::Conversion(from, _) => Due::Type(*from),
        Callee::Own(signature) => signature.due_at(number),
        _ => Due::Any,
    }
}

/// What is asked of an argument by the name of an input.
pub fn name_due(callee: &Callee<'_>, name: &Identifier) -> Due
    ensures { result ≡ name_due callee.now name.now.spelling }
{
    match callee {
        Callee::Own(signature) => input_due(signature, name),
        _ => Due::Any,
    }
}

/// What is asked of the input of this name.
fn input_due(signature: &Signature<'_>, name: &Identifier) -> Due
    ensures { result ≡ name_due (Callee.Own signature.now) name.now.spelling }
{
    match signature.number_of(name.spelling.as_slice()) {
        Some(number) => signature.due_at(number),
        None => Due::Any,
    }
}

// ---- what a call gives

/// Whether a callee gives the type.
fn gives(callee: &Callee<'_>, elem: Elem) -> bool
    ensures { result ≡ gives callee.now elem }
{
    match callee {
        Callee::Standard(function) => function_gives(*function, elem),
        Callee::Conversion(_, to) => to.is(elem),
        Callee::Own(signature) => signature.result().is(elem),
        _ => true,
    }
}

/// Whether a callee gives the type that is due, or that can't be known.
fn gives_due(callee: &Callee<'_>, due: Option<Elem>) -> bool
    ensures { result ≡ gives_due callee.now due }
{
    match due {
        Some(elem) => gives(callee, elem),
        None => true,
    }
}

/// Whether a call that breaks this rule gives the type that is due, or that can't be known, or its own type can't be known.
pub fn fits_call(callee: &Callee<'_>, rule: Option<Rule>, due: Option<Elem>) -> bool
    ensures { result ≡ (is_some rule || is_faulty callee.now || gives_due callee.now due) }
{
    rule.is_some() || is_faulty(callee) || gives_due(callee, due)
}

/// Offers that a rule is broken at a name.
#[tactic(auto, unfolding(st_faults::specs::Faults::offer_all))]
pub fn offer_broken(rule: Option<Rule>, position: Position, first: &mut FirstFault)
    ensures { first.new ≡ offer_all first.old (broken position rule) }
{
    if let Some(rule) = rule {
        // Typing rests on this rule in its cases `function`, `conversion` and `own`, and for statements in `invocation`.
        first.offer(position, rule);
    }
}
