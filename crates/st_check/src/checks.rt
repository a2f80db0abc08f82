//! The check of a text.
ghost use Rattle.std.specs.Prelude.{◌≡◌, IfErr, IfOk};
ghost use Rattle.st_check.specs.Answers.{Explains};
ghost use Rattle.st_check.specs.Faults.{IsAccepted, is_main, program_named};
ghost use Rattle.st_check.specs.Programs.{IsChecked, IsProgram, main_of, text_of};
ghost use Rattle.st_types.specs.Inside.{named_by};
ghost use Rattle.st_types.specs.Names.{units_of};

use crate::fault::CheckFault;
use crate::faults::ordered;
use crate::is_too_large;
use crate::program::Program;
use st_faults::{Fault, Rule};
use st_scopes::Tables;
use st_tree::tree::Unit;
use st_types::{NamedUnit, UnitKind, is_same_name};
use std::alloc::Global;

/// The text as its first program of this name, ignoring case, or its first fault, in time linear in the text.
///
/// Faults come in the order of their tokens, and at one token in that of the rules' numbers. The size of the program
/// is asked where there is no other fault, and whether there is a program where there is none at all.
pub fn check(alloc: Global, units: Vec<Unit>, main: &[u8]) -> Result<Program, CheckFault>
    ensures text { IfOk result (λ program. text_of program ≡ units.items) }
    ensures checked { IfOk result (λ program. IsChecked program) }
    ensures accepted { IfOk result (λ program. IsAccepted units.items main.now (main_of program)) }
    ensures fault { IfErr result (Explains units.items main.now) }
{
    let (number, order) = checked(alloc, &units, main)?;
    Ok(Program::new(units, number, order))
}

/// The number of the program of this name, and an order of the units.
fn checked(alloc: Global, text: &[Unit], main: &[u8]) -> Result<(usize, Vec<usize>), CheckFault>
    ensures program { IfOk result (λ found. IsProgram text.now found.0 found.1.items) }
    ensures accepted { IfOk result (λ found. IsAccepted text.now main.now found.0) }
    ensures fault { IfErr result (Explains text.now main.now) }
{
    let tables = Tables::new(alloc, text)?;
    let order = ordered(alloc, &tables)?;
    let Some(number) = program_named(&tables, main) else {
        return Err(CheckFault::NoProgram);
    };
    // No case of typing rests on the rules of the size of a program and of its name.
    if is_too_large(alloc, &tables, &order, number)? {
        let position = tables.unit(number).name.position;
        let rule = Rule::LimitPassed;
        return Err(CheckFault::of(Fault { position, rule }));
    }
    Ok((number, order))
}

/// The number of the first program of this name, ignoring case.
pub fn program_named(tables: &Tables<'_>, name: &[u8]) -> Option<usize>
    ensures { result ≡ program_named (units_of tables.now) name.now }
{
    let units = tables.units();
    units.iter().position(|unit| is_main(unit, name))
}

/// Whether the unit is a program of this name, ignoring case.
fn is_main(unit: &NamedUnit<'_>, name: &[u8]) -> bool
    ensures { result ≡ is_main name.now (named_by unit.now) }
{
    matches!(unit.kind, UnitKind::Program(_)) && is_same_name(name, unit.name.spelling.as_slice())
}
