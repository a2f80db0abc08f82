//! The function blocks, the functions and the charts of a program, and the room of the levels.
ghost use Rattle.std.specs.Prelude.{◌≡◌, ◌<◌, IfOk, length, map, slice_index_or, ℕ};
ghost use Rattle.st_check.specs.Programs.{level_in, order_of, text_of};
ghost use Rattle.st_types.specs.Inside.{named_by};
ghost use Rattle.st_types.specs.Names.{units_of};
ghost use Rattle.st_compile.specs.Programs.{block_room, function_room, most_taken, numbered, program_blocks, program_functions, program_rooms, program_units};

use crate::bodies::block_of;
use crate::charts::charts_of;
use crate::functions::function_of;
use crate::levels::{in_order, levels_of};
use st_check::Program;
use st_code::Fused;
use st_machine::{Block, Function, Room, Units};
use st_places::{Tables, units_are_sound};
use st_types::NamedUnit;
use std::alloc::{AllocError, Global};

/// The code of the units that a program runs beside its own.
#[derive(Drop)]
pub(crate) struct Bodies {
    pub(crate) units: Units,
    /// The room of each level.
    pub(crate) rooms: Vec<Room>,
}

/// The function blocks, by the numbers of the units, each with the room that it needs.
#[derive(Drop)]
struct Blocks {
    blocks: Vec<Block>,
    rooms: Vec<Room>,
}

/// The functions, by the numbers of the units, each with the room that it needs.
#[derive(Drop)]
struct Functions {
    functions: Vec<Function>,
    rooms: Vec<Room>,
}

/// The code of the function blocks and functions of a program, which take so many inputs at most, and its charts. They are refused for
/// want of memory alone.
pub(crate) fn bodies_of(
    alloc: Global,
    program: &Program,
    units: &[NamedUnit<'_>],
    tables: &Tables<'_>,
    inputs: usize,
) -> Result<Bodies, AllocError>
    requires units { map named_by units.now ≡ units_of (text_of program.now) }
    requires tables { tables.now.text ≡ text_of program.now }
    requires inputs { inputs ≡ most_taken (units_of (text_of program.now)) }
    ensures units { IfOk result (λ bodies. bodies.units ≡ program_units program.now) }
    ensures rooms { IfOk result (λ bodies. bodies.rooms.items ≡ program_rooms program.now) }
{
    let order = program.order();
    let levels = levels_of(alloc, order, units.len())?;
    let functions = functions_of(alloc, program, units, tables, &levels, inputs)?;
    let blocks = blocks_of(alloc, program, units, tables, &levels, inputs)?;
    let charts = charts_of(alloc, program, tables, units.len())?;
    let rooms = in_order(alloc, order, &functions.rooms, &blocks.rooms)?;
    Ok(Bodies {
        units: Units::new(blocks.blocks, functions.functions, charts),
        rooms,
    })
}

/// The function blocks of a program, which stand above all functions.
fn blocks_of(
    alloc: Global,
    program: &Program,
    units: &[NamedUnit<'_>],
    tables: &Tables<'_>,
    levels: &[usize],
    inputs: usize,
) -> Result<Blocks, AllocError>
    requires units { map named_by units.now ≡ units_of (text_of program.now) }
    requires tables { tables.now.text ≡ text_of program.now }
    requires inputs { inputs ≡ most_taken (units_of (text_of program.now)) }
    requires all { length levels.now ≡ length units.now }
    requires places { (number : ℕ) → number < length units.now
        → slice_index_or levels.now number 0 ≡ level_in (order_of program.now) number }
    ensures blocks { IfOk result (λ made. made.blocks.items ≡ program_blocks program.now) }
    ensures rooms { IfOk result
        (λ made. made.rooms.items
        ≡ numbered (block_room (units_of (text_of program.now)))
        0 (units_of (text_of program.now))) }
{
    units_are_sound();
    let first = program.order().len();
    let mut blocks = Vec::with_capacity(alloc, units.len())?;
    let mut rooms = Vec::with_capacity(alloc, units.len())?;
    'units: for number in 0..units.len() {
        let body = block_of(alloc, &units[number], tables, number, inputs)?;
        let code = Fused::of(alloc, body.code)?;
        blocks.push(Block::new(code, first + levels[number]))?;
        rooms.push(Room {
            stack: body.depth,
            variables: 0,
        })?;
    }
    Ok(Blocks { blocks, rooms })
}

/// The functions of a program.
fn functions_of(
    alloc: Global,
    program: &Program,
    units: &[NamedUnit<'_>],
    tables: &Tables<'_>,
    levels: &[usize],
    inputs: usize,
) -> Result<Functions, AllocError>
    requires units { map named_by units.now ≡ units_of (text_of program.now) }
    requires tables { tables.now.text ≡ text_of program.now }
    requires inputs { inputs ≡ most_taken (units_of (text_of program.now)) }
    requires all { length levels.now ≡ length units.now }
    requires places { (number : ℕ) → number < length units.now
        → slice_index_or levels.now number 0 ≡ level_in (order_of program.now) number }
    ensures functions { IfOk result (λ made. made.functions.items ≡ program_functions program.now) }
    ensures rooms { IfOk result
        (λ made. made.rooms.items
        ≡ numbered (function_room (units_of (text_of program.now)))
        0 (units_of (text_of program.now))) }
{
    units_are_sound();
    let _checked = program.units();
    let mut functions = Vec::with_capacity(alloc, units.len())?;
    let mut rooms = Vec::with_capacity(alloc, units.len())?;
    'units: for number in 0..units.len() {
        let level = levels[number];
        let made = function_of(
            alloc,
            program,
            &units[number],
            tables,
            number,
            level,
            inputs,
        )?;
        functions.push(made.function)?;
        rooms.push(made.room)?;
    }
    Ok(Functions { functions, rooms })
}
