//! Images: programs with their layouts, their code and the room that it needs.
ghost use Rattle.std.specs.Prelude.{◌≡◌, IfOk, true};
ghost use Rattle.st_check.specs.Programs.{leaves_of_program};
ghost use Rattle.st_compile.specs.Programs.{HasRoom, faulty_name, greatest_depth, program_code, program_units};
ghost use Rattle.st_compile.specs.Small.{functions_are_small};
ghost use Rattle.st_compile.specs.Typed.{HasTypedCode};
ghost use Rattle.st_listing.specs.Worded.{IsWorded};

mod apart;

use crate::making::made_of;
use crate::{checked_programs_are_typed, typings_are_one};
use st_check::Program;
use st_code::Fused;
use st_layout::Layout;
use st_listing::OfProgram;
use st_machine::{Room, Stacks, Units};
use st_tree::Name;
use std::alloc::{AllocError, Global};
use std::marker::Model;

/// A program, the layout of its leaves, the code of its body and of its function blocks and functions, and its charts.
#[derive(Drop)]
pub struct Image {
    program: Program,
    layout: Layout,
    code: Fused,
    /// The function blocks, functions and charts, by the numbers of their units.
    units: Units,
    /// For how many numbers the stack of its own code needs room.
    depth: usize,
    /// The room of each level.
    rooms: Vec<Room>,
    /// The names of its units, as they are declared.
    names: Vec<Name>,
}

impl Model for Image {
    ghost use Rattle.std.specs.Coded.{codes};
    ghost use Rattle.std.specs.Prelude.{◌≡◌, true};
    ghost use Rattle.st_check.specs.Programs.{ProgramView, leaves_of_program};
    ghost use Rattle.st_compile.specs.Programs.{program_code, program_depth, program_names, program_rooms, program_units};
    ghost use Rattle.st_compile.specs.Small.{functions_are_small};
    ghost use Rattle.st_listing.specs.Worded.{IsWorded};
    ghost use Rattle.st_tree.specs.contracts.tree.expression.Expression as expression;
    ghost use Rattle.st_tree.specs.contracts.tree.statement.Statement as statement;

    ghost Value = { ProgramView };

    ghost coded = { Prim.hlevel (codes, statement.the_row.coded, expression.the_row.coded) };

    ghost view = { λ image. image.program };

    ghost invariant = { λ image. (image.layout ≡ leaves_of_program image.program) × (image.code ≡ program_code image.program) × (image.units ≡ program_units image.program) × (image.depth ≡ program_depth image.program) × (image.rooms.items ≡ program_rooms image.program) × (image.names.items ≡ program_names image.program) × (functions_are_small image.program ≡ true) × IsWorded image.program };
}

/// The image of a program. Its code is that of the one typing of the program, which drops nothing of it.
///
/// It is refused for want of memory, and where a function of its text has more than 999,999 variables. No text of at most 1,048,576
/// bytes has such a function: each name in it takes two bytes at least, with what stands behind it.
pub fn compile(alloc: Global, program: Program) -> Result<Image, AllocError>
    ensures program { IfOk result (λ image. image ≡ program) }
    ensures typed { IfOk result (λ image. HasTypedCode image) }
{
    checked_programs_are_typed();
    typings_are_one();
    let _main = program.main();
    let layout = Layout::of(alloc, &program)?;
    let made = made_of(alloc, &program)?;
    Ok(Image {
        program,
        layout,
        code: made.code,
        units: made.units,
        depth: made.depth,
        rooms: made.rooms,
        names: made.names,
    })
}

impl Image {
    /// The checked program that the code was made of.
    pub fn program(&self) -> &Program
        ensures { result.now ≡ self.now }
    {
        &self.program
    }

    /// Tells that the program is checked, and that all names on the ways to its leaves are words.
    pub fn tell_worded(&self)
        ensures { IsWorded self.now }
    {
        let _program = &self.program;
    }

    /// The layout of the program's leaves.
    pub fn layout(&self) -> &Layout
        ensures { result.now ≡ leaves_of_program self.now }
    {
        &self.layout
    }

    /// How many numbers there are at most on a stack while the program runs.
    pub fn depth(&self) -> usize
        ensures { result ≡ greatest_depth self.now }
    {
        let mut depth = self.depth;
        'levels: for room in &self.rooms {
            depth = depth.max(room.stack);
        }
        depth
    }

    /// Stacks with room to run the program. They are refused for want of memory alone.
    pub fn stacks(&self, alloc: Global) -> Result<Stacks, AllocError>
        ensures { IfOk result (λ stacks. HasRoom self.now stacks) }
    {
        Stacks::with_room(alloc, self.depth, &self.rooms, self.units.chart_room())
    }

    /// The code of the program's body.
    pub(crate) fn code(&self) -> &Fused
        ensures { result.now ≡ program_code self.now }
    {
        &self.code
    }

    /// The function blocks, functions and charts of its text, by the numbers of their units. None of the functions has more variables
    /// than code can tell apart.
    pub(crate) fn units(&self) -> &Units
        ensures units { result.now ≡ program_units self.now }
        ensures small { functions_are_small self.now ≡ true }
    {
        &self.units
    }

    /// The name of the unit that a fault is in, as it is declared: of the one of this number, which was invoked or called, or else of the program.
    pub(crate) fn faulty(&self, unit: Option<usize>) -> Name
        ensures { result ≡ faulty_name self.now unit }
    {
        let number = unit.unwrap_or(self.program.main());
        match self.names.get(number) {
            Some(name) => *name,
            None => Name::of(&[]).unwrap(),
        }
    }
}
