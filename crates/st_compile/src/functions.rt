//! The code of functions, and the values that their variables begin with; and how many variables they have.
ghost use Rattle.std.specs.Prelude.{[], ◌≡◌, ◌||◌, IfOk, map, not, true};
ghost use Rattle.st_check.specs.Programs.{level_in, order_of, text_of};
ghost use Rattle.st_leaves.specs.Bounds.{HasBounds};
ghost use Rattle.st_machine.specs.Levels.{no_room};
ghost use Rattle.st_meaning.specs.Offsets.{HasSmallArrays};
ghost use Rattle.st_meaning.specs.Units.{function_at};
ghost use Rattle.st_places.specs.Parts.{is_function, is_small_function_in, whole_in};
ghost use Rattle.st_types.specs.Inside.{named_by};
ghost use Rattle.st_types.specs.Names.{unit_at, units_of};
ghost use Rattle.st_compile.specs.Programs.{function_room, function_view, most_taken, types_taken};
ghost use Rattle.st_compile.specs.Small.{functions_are_small};

use crate::bodies::body_of;
use st_check::Program;
use st_code::Code;
use st_machine::{Function, Room};
use st_places::Tables;
use st_types::{NamedUnit, UnitKind};
use st_values::Elem;
use std::alloc::{AllocError, Global};

/// What is made of a function.
#[derive(Drop)]
pub(crate) struct Made {
    pub(crate) function: Function,
    /// The room that it needs.
    pub(crate) room: Room,
}

/// What is made of a unit of this number: its code at its level, where it is a function that has room for its variables. Else it has no
/// code, and stands above all levels. It is refused for want of memory alone.
pub(crate) fn function_of(
    alloc: Global,
    program: &Program,
    unit: &NamedUnit<'_>,
    tables: &Tables<'_>,
    number: usize,
    level: usize,
    inputs: usize,
) -> Result<Made, AllocError>
    requires found { unit_at (units_of (text_of program.now)) number ≡ Some (named_by unit.now) }
    requires tables { tables.now.text ≡ text_of program.now }
    requires bounds { HasBounds (whole_in tables.now number).variables }
    requires arrays { is_function (named_by unit.now).declares ≡ true
        → HasSmallArrays (whole_in tables.now number).variables }
    requires level { level ≡ level_in (order_of program.now) number }
    requires inputs { inputs ≡ most_taken (units_of (text_of program.now)) }
    ensures function { IfOk result
        (λ made. made.function ≡ function_view (units_of (text_of program.now))
        (order_of program.now) number (named_by unit.now)) }
    ensures room { IfOk result (λ made. made.room
        ≡ function_room (units_of (text_of program.now)) number (named_by unit.now)) }
{
    if !tables.is_small_function(number) {
        let none = program.order().len() * 2;
        return Ok(nothing(alloc, none));
    }
    let body = body_of(alloc, unit, tables, number, inputs)?;
    let begins = tables.starts(number);
    let mut starts = Vec::new(alloc);
    starts.extend_from_slice(begins)?;
    let taken = types_taken(alloc, tables, number)?;
    let room = Room {
        stack: body.depth,
        variables: begins.len(),
    };
    let function = Function::new(body.code, level, taken, starts);
    Ok(Made { function, room })
}

/// No code, on this level.
fn nothing(alloc: Global, level: usize) -> Made
    ensures function { result.function
        ≡ record { code = []; level = level; inputs = []; starts = [] } }
    ensures room { result.room ≡ no_room }
{
    let code = Code::new(alloc);
    let function = Function::new(code, level, Vec::new(alloc), Vec::new(alloc));
    let room = Room {
        stack: 0,
        variables: 0,
    };
    Made { function, room }
}

/// The types of the inputs of the function that the unit of this number is.
fn types_taken(alloc: Global, tables: &Tables<'_>, number: usize) -> Result<Vec<Elem>, AllocError>
    ensures { IfOk result (λ types. types.items ≡ types_taken
        (function_at (units_of tables.now.text) number)) }
{
    let mut types = Vec::new(alloc);
    if let Some(function) = tables.function_at(number) {
        'initials: for value in function.initials() {
            types.push(value.elem)?;
        }
    }
    Ok(types)
}

/// How many inputs a function of the text takes at most, among this number of units.
pub(crate) fn most_taken(program: &Program, units: &[NamedUnit<'_>], tables: &Tables<'_>) -> usize
    requires units { map named_by units.now ≡ units_of (text_of program.now) }
    requires tables { tables.now.text ≡ text_of program.now }
    ensures { result ≡ most_taken (units_of (text_of program.now)) }
{
    let _checked = program.units();
    let mut most = 0;
    'units: for number in 0..units.len() {
        if let Some(function) = tables.function_at(number) {
            most = function.initials().len().max(most);
        }
    }
    most
}

/// Whether all functions of the text have at most 999,999 variables, their results among them.
pub(crate) fn functions_are_small(
    program: &Program,
    units: &[NamedUnit<'_>],
    tables: &Tables<'_>,
) -> bool
    requires units { map named_by units.now ≡ units_of (text_of program.now) }
    requires tables { tables.now.text ≡ text_of program.now }
    ensures { result ≡ functions_are_small program.now }
{
    let _checked = program.units();
    'units: for number in 0..units.len() {
        if !function_is_small(&units[number], tables, number) {
            return false;
        }
    }
    true
}

/// Whether a unit, which has this number in the tables, has at most 999,999 variables, if it is a function.
fn function_is_small(unit: &NamedUnit<'_>, tables: &Tables<'_>, number: usize) -> bool
    ensures { result ≡ (not (is_function (named_by unit.now).declares)
        || is_small_function_in tables.now number) }
{
    !matches!(unit.kind, UnitKind::Function(_)) || tables.is_small_function(number)
}
