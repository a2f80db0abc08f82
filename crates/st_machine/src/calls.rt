//! Calls of functions.
ghost use Rattle.std.specs.Prelude.{◌≡◌, ◌≤◌, ◌+◌, drop, get_or, length, IfOk, IsTrue};
ghost use Rattle.st_code.specs.Machine.{are_cells_in, values_in};
ghost use Rattle.st_machine.specs.Functions.{begun_by, CallOf, given_by, GivesAs};
ghost use Rattle.st_machine.specs.Levels.{rooms_of};
ghost use Rattle.st_meaning.specs.Meaning.{no_value};

use crate::function::Function;
use crate::run::Halt;
use crate::stacks::Level;
use st_code::Instr;
use st_instructions::local::{load, perform};
use st_instructions::{NO_VALUE, Stack, place_after, value_in};
use st_meaning::Start;
use st_values::{Elem, Value};

/// Calls the function of this number. It takes so many inputs off the stack, and so many numbers below them are taken away with
/// them; what it gives is put there. There is a level for each one up to that of the function. It gives how many steps are left.
///
/// # Errors
/// At a fault, with the unit that it is in: this one, or one that its body called.
pub(crate) fn call(
    number: u32,
    inputs: u32,
    below: u32,
    functions: &[Function],
    stack: &mut Stack,
    levels: &mut [Level],
    limit: u32,
) -> Result<u32, Halt>
    requires may { CallOf number inputs below functions.now (rooms_of levels.old) stack.old }
    ensures gives { (called : CallOf number inputs below functions.now (rooms_of levels.old)
        stack.old)
        → GivesAs (given_by called.said number inputs stack.old.0 limit)
        (drop (inputs + below) stack.old.0) stack.new.0 result }
    ensures steps { IfOk result (λ left. left ≤ limit) }
    ensures room { stack.new.1 ≡ stack.old.1 }
    ensures rooms { rooms_of levels.new ≡ rooms_of levels.old }
{
    let function = &functions[number as usize];
    let instrs = function.code().instrs();
    let (lower, upper) = levels.split_at_mut(function.level());
    let level = &mut upper[0];
    let own = &mut level.stack;
    let variables = level.variables.as_mut_slice();
    set_variables(function, stack.newest(inputs as usize), variables);
    stack.lower(inputs as usize + below as usize);
    own.clear();
    let mut left = limit;
    let mut place = 0;
    while place < instrs.len() {
        if let Instr::Call(unit, inputs, below) = instrs[place] {
            left = call(unit, inputs, below, functions, own, lower, left)?;
            place += 1;
            continue;
        }
        let to = perform(&instrs[place], variables, own, &mut left);
        match place_after(to, place) {
            Ok(other) => place = other,
            Err(kind) => {
                let line = function.code().line(place);
                let unit = Some(number as usize);
                return Err(Halt { kind, line, unit });
            }
        }
    }
    stack.push(load(variables, 0));
    Ok(left)
}

/// Sets the variables of a function as a call of it begins, where its inputs have these cells.
fn set_variables(function: &Function, cells: &[i64], variables: &mut [Value])
    requires cells { IsTrue (are_cells_in function.now.inputs cells.now) }
    requires room { length variables.old ≡ length function.now.starts }
    ensures { variables.new
        ≡ begun_by function.now.starts (values_in function.now.inputs cells.now) }
{
    let inputs = function.inputs();
    let starts = function.starts();
    let mut next = 0;
    for (i, start) in starts.iter().enumerate() {
        match *start {
            Start::Input => {
                variables[i] = input_at(inputs, cells, next);
                next += 1;
            }
            Start::Value(value) => variables[i] = value,
        }
    }
}

/// The value of the input of this number, where there is one.
fn input_at(inputs: &[Elem], cells: &[i64], number: usize) -> Value
    requires { length cells.now ≡ length inputs.now }
    ensures { result ≡ get_or (values_in inputs.now cells.now) number no_value }
{
    if number < inputs.len() {
        value_in(inputs[number], cells[number])
    } else {
        NO_VALUE
    }
}
