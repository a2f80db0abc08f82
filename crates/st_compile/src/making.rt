//! What an image keeps of a program: its code and that of its function blocks and functions, its charts, the room that they need, and
//! the names of its units.
ghost use Rattle.std.specs.Prelude.{◌≡◌, IfOk, map, true};
ghost use Rattle.st_check.specs.Programs.{text_of};
ghost use Rattle.st_compile.specs.Programs.{program_code, program_depth, program_names, program_rooms, program_units};
ghost use Rattle.st_compile.specs.Small.{functions_are_small};
ghost use Rattle.st_types.specs.Inside.{named_by};
ghost use Rattle.st_types.specs.Names.{units_of};

use crate::bodies::main_body;
use crate::functions::{functions_are_small, most_taken};
use crate::units::bodies_of;
use st_check::Program;
use st_code::Fused;
use st_machine::{Room, Units};
use st_places::Tables;
use st_tree::Name;
use st_types::{NamedUnit, TypeTable};
use std::alloc::{AllocError, Global};

/// What is made of a program.
#[derive(Drop)]
pub(crate) struct Made {
    /// The code of its body, with its table.
    pub(crate) code: Fused,
    /// Its function blocks, functions and charts, by the numbers of their units.
    pub(crate) units: Units,
    /// For how many numbers the stack of its body needs room.
    pub(crate) depth: usize,
    /// The room of each level.
    pub(crate) rooms: Vec<Room>,
    /// The names of its units, as they are declared.
    pub(crate) names: Vec<Name>,
}

/// What is made of a program. It is refused for want of memory, and where a function has more variables than code can tell apart.
pub(crate) fn made_of(alloc: Global, program: &Program) -> Result<Made, AllocError>
    ensures code { IfOk result (λ made. made.code ≡ program_code program.now) }
    ensures units { IfOk result (λ made. made.units ≡ program_units program.now) }
    ensures depth { IfOk result (λ made. made.depth ≡ program_depth program.now) }
    ensures rooms { IfOk result (λ made. made.rooms.items ≡ program_rooms program.now) }
    ensures names { IfOk result (λ made. made.names.items ≡ program_names program.now) }
    ensures small { IfOk result (λ made. functions_are_small program.now ≡ true) }
{
    let table = TypeTable::new(alloc, program.units())?;
    let units = table.units();
    let tables = Tables::of(alloc, program)?;
    if !functions_are_small(program, units, &tables) {
        return Err(AllocError);
    }
    let inputs = most_taken(program, units, &tables);
    let main = main_body(alloc, program, units, &tables, inputs)?;
    let bodies = bodies_of(alloc, program, units, &tables, inputs)?;
    let names = names_of(alloc, program, units)?;
    let code = Fused::of(alloc, main.code)?;
    Ok(Made {
        code,
        units: bodies.units,
        depth: main.depth,
        rooms: bodies.rooms,
        names,
    })
}

/// The names of the units of a program.
fn names_of(
    alloc: Global,
    program: &Program,
    units: &[NamedUnit<'_>],
) -> Result<Vec<Name>, AllocError>
    requires { map named_by units.now ≡ units_of (text_of program.now) }
    ensures { IfOk result (λ names. names.items ≡ program_names program.now) }
{
    let mut names = Vec::with_capacity(alloc, units.len())?;
    let _checked = program.units();
    'units: for unit in units {
        names.push(Name::of(unit.name.spelling.as_slice()).unwrap())?;
    }
    Ok(names)
}
