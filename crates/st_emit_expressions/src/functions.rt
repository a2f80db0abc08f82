//! The inputs of functions of the text in calls (2.5.1): which argument goes to which input, and the code behind the arguments.
ghost use Rattle.std.specs.Prelude.{◌≡◌, ◌<◌, ◌++◌, IfOk, OnOk, get_or, length, option_map, reverse, slice_get, ℕ};
ghost use Rattle.std.specs.List.{All};
ghost use Rattle.st_values.specs.Values.{IsValue};
ghost use Rattle.st_code.specs.Code.{are_in_order, call_code, input_code, inputs_code};
ghost use Rattle.st_emit_expressions.specs.Calls.{passed_in};
ghost use Rattle.st_emit_expressions.specs.Functions.{AreFirst, destination_list, destinations, first_noted, input_type, sources_in};
ghost use Rattle.st_emit_expressions.specs.Trees.{whole_of};
ghost use Rattle.st_meaning.specs.Typing.{argument_typed, go_to, input_at, is_number, source_of, typed};
ghost use Rattle.st_meaning.specs.Wholes.{Called, Input as Taken};

use crate::index::emit_value;
use crate::numbers::narrow;
use crate::own::own_or_lint;
use crate::scope::Scope;
use st_code::{Code, Instr};
use st_places::Function;
use st_tree::tree::{Argument, Expression};
use st_values::{Elem, Value};
use std::alloc::AllocError;

/// The type of the result of the function of the text of this name.
pub(crate) fn result_named(scope: &Scope<'_>, name: &[u8]) -> Option<Elem>
    ensures { result ≡ option_map (λ (function : Called). function.result)
        ((whole_of scope.now).functions name.now) }
{
    let function = scope.function(name)?;
    Some(function.result())
}

/// The value that the input of this number begins with.
fn initial(function: &Function<'_>, number: usize) -> Option<Value>
    ensures { result ≡ option_map (λ (input : Taken). input.initial)
        (slice_get function.now.inputs number) }
{
    function.initials().get(number).copied()
}

/// The type that is due of an argument that goes to the input of this number.
pub(crate) fn input_type(
    scope: &Scope<'_>,
    function: &Function<'_>,
    input: Option<usize>,
    expression: &Expression,
) -> Elem
    ensures { result ≡ input_type (typed (whole_of scope.now) expression.now).own
        (input_at function.now.inputs input) }
{
    let Some(number) = input else {
        return own_or_lint(scope, expression);
    };
    match initial(function, number) {
        Some(value) => value.elem,
        None => own_or_lint(scope, expression),
    }
}

/// How many arguments have values.
pub(crate) fn passed_count(scope: &Scope<'_>, arguments: &[Argument]) -> usize
    ensures { result ≡ length (passed_in (whole_of scope.now) arguments.now) }
{
    let mut count = 0;
    for argument in arguments {
        match argument {
            Argument::Positional(_) | Argument::Input(_, _) => count += 1,
            Argument::Output(_, _) => {}
        }
    }
    count
}

/// To which input an argument goes that has this place among those with values, where it is one of them.
fn destination(
    scope: &Scope<'_>,
    function: &Function<'_>,
    place: usize,
    argument: &Argument,
) -> Option<Option<usize>>
    ensures { go_to function.now.inputs place (argument_typed (whole_of scope.now) argument.now)
        ≡ destination_list result }
{
    match argument {
        Argument::Positional(_) => Some(Some(place)),
        Argument::Input(name, _) => Some(function.input(name.spelling.as_slice())),
        Argument::Output(_, _) => None,
    }
}

/// Whether it is this number.
fn is_number(number: usize, found: Option<usize>) -> bool
    ensures { result ≡ is_number number found }
{
    match found {
        Some(other) => other == number,
        None => false,
    }
}

/// Whether the arguments are the inputs, one after the other.
fn are_in_order(scope: &Scope<'_>, function: &Function<'_>, arguments: &[Argument]) -> bool
    ensures { result ≡ are_in_order (length (passed_in (whole_of scope.now) arguments.now))
        0 (sources_in (whole_of scope.now) function.now arguments.now) }
{
    let mut place = 0;
    for argument in arguments {
        if let Some(input) = destination(scope, function, place, argument) {
            if !is_number(place, input) {
                return false;
            }
            place += 1;
        }
    }
    function.initials().len() == place
}

/// Notes that the argument of this place goes to an input, unless an earlier one does.
fn note_first(all: &mut Vec<Option<usize>>, input: Option<usize>, place: usize)
    ensures { all.new.items ≡ first_noted all.old.items input place }
{
    let Some(number) = input else {
        return;
    };
    if number < all.len() {
        if all[number].is_none() {
            all[number] = Some(place);
        }
    }
}

/// Of no input an argument that goes to it.
fn none_noted(scope: &Scope<'_>, function: &Function<'_>) -> Result<Vec<Option<usize>>, AllocError>
    ensures number { IfOk result (λ all. length all.items ≡ length function.now.inputs) }
    ensures none { IfOk result (λ all. (number : ℕ) → get_or all.items number None ≡ None) }
{
    let mut all = scope.list();
    for _ in 0..function.initials().len() {
        all.push(None)?;
    }
    Ok(all)
}

/// Of each input the first argument that goes to it.
fn first_arguments(
    scope: &Scope<'_>,
    function: &Function<'_>,
    arguments: &[Argument],
) -> Result<Vec<Option<usize>>, AllocError>
    ensures { IfOk result (λ all. AreFirst (length function.now.inputs)
        (destinations (whole_of scope.now) function.now arguments.now) all.items) }
{
    let mut all = none_noted(scope, function)?;
    let mut place = 0;
    for argument in arguments {
        if let Some(input) = destination(scope, function, place, argument) {
            note_first(&mut all, input, place);
            place += 1;
        }
    }
    Ok(all)
}

/// The value of the input of this number, above so many arguments: that of the first argument that goes to it, or else what it begins
/// with.
fn emit_source(
    code: &mut Code,
    function: &Function<'_>,
    arguments: u32,
    number: u32,
    first: Option<usize>,
) -> Result<(), AllocError>
    requires in_range { All (λ (input : Taken). IsValue input.initial) function.now.inputs }
    requires number { number < length function.now.inputs }
    ensures { OnOk result ((input : Taken) → slice_get function.now.inputs number ≡ Some input
        → code.new ≡ code.old ++ reverse (input_code arguments number
        (source_of input.initial first))) }
{
    let Some(place) = first else {
        return match initial(function, number as usize) {
            Some(value) => emit_value(code, value),
            None => Ok(()),
        };
    };
    let after = (arguments as usize).saturating_sub(1).saturating_sub(place);
    code.push(Instr::Pick(narrow(number as usize + after)?), 0)
}

/// The values of all inputs, above so many arguments, where this is the first argument of each.
fn emit_sources(
    code: &mut Code,
    scope: &Scope<'_>,
    function: &Function<'_>,
    arguments: &[Argument],
    count: u32,
    first: &[Option<usize>],
) -> Result<(), AllocError>
    requires in_range { All (λ (input : Taken). IsValue input.initial) function.now.inputs }
    requires first { AreFirst (length function.now.inputs)
        (destinations (whole_of scope.now) function.now arguments.now) first.now }
    ensures { OnOk result (code.new ≡ code.old ++ reverse
        (inputs_code count 0 (sources_in (whole_of scope.now) function.now arguments.now))) }
{
    let mut number = narrow(first.len())?;
    while number > 0 {
        number -= 1;
        emit_source(code, function, count, number, first[number as usize])?;
    }
    Ok(())
}

/// The call of a function behind its arguments: as they stand where they are the inputs in order, else with the inputs above them.
pub(crate) fn emit_behind(
    code: &mut Code,
    scope: &Scope<'_>,
    function: &Function<'_>,
    arguments: &[Argument],
) -> Result<(), AllocError>
    requires { All (λ (input : Taken). IsValue input.initial) function.now.inputs }
    ensures { OnOk result (code.new ≡ code.old ++ reverse
        (call_code function.now.number (length (passed_in (whole_of scope.now) arguments.now))
        (sources_in (whole_of scope.now) function.now arguments.now))) }
{
    let unit = narrow(function.number())?;
    let count = narrow(passed_count(scope, arguments))?;
    if are_in_order(scope, function, arguments) {
        return code.push(Instr::Call(unit, count, 0), 0);
    }
    let inputs = narrow(function.initials().len())?;
    code.push(Instr::Call(unit, inputs, count), 0)?;
    let first = first_arguments(scope, function, arguments)?;
    emit_sources(code, scope, function, arguments, count, first.as_slice())?;
    Ok(())
}
