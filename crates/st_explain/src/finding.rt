//! What the rules find in a text that is in the grammar.
ghost use Rattle.std.specs.Prelude.{IfOk};
ghost use Rattle.st_check.specs.Programs.{IsOrdered};
ghost use Rattle.st_explain.specs.Findings.{Finds};

use st_check::{Unordered, is_too_large, ordered, program_named, type_sizes};
use st_faults::{Fault, Rule};
use st_leaves::Size;
use st_scopes::Tables;
use std::alloc::{AllocError, Global};

/// What the rules find in a text.
#[derive(Clone, Copy)]
pub enum Finding {
    /// No rule is broken.
    Nothing,
    /// A rule is broken at a token.
    Fault(Fault),
    /// The program passes a limit at its name, and has this size.
    TooLarge(Fault, Size),
    /// There is no program of the name.
    NoProgram,
}

/// What the rules find first in a text, as a program of this name.
pub fn first_finding(alloc: Global, tables: &Tables<'_>, main: &[u8]) -> Result<Finding, AllocError>
    ensures { IfOk result (Finds tables.now main.now) }
{
    match ordered(alloc, tables) {
        Ok(order) => size_of(alloc, tables, &order, main),
        Err(Unordered::Fault(fault)) => Ok(Finding::Fault(fault)),
        Err(Unordered::Memory) => Err(AllocError),
    }
}

/// What is found of the size and the name of the program, where no unit has a fault.
fn size_of(
    alloc: Global,
    tables: &Tables<'_>,
    order: &[usize],
    main: &[u8],
) -> Result<Finding, AllocError>
    requires { IsOrdered tables.now order.now }
    ensures { IfOk result (Finds tables.now main.now) }
{
    let Some(number) = program_named(tables, main) else {
        return Ok(Finding::NoProgram);
    };
    if is_too_large(alloc, tables, order, number)? {
        let sizes = type_sizes(alloc, tables, order)?;
        let size = sizes.get(number).copied().unwrap_or(Size::none());
        let position = tables.unit(number).name.position;
        let rule = Rule::LimitPassed;
        return Ok(Finding::TooLarge(Fault { position, rule }, size));
    }
    Ok(Finding::Nothing)
}
