//! The code of a body.
ghost use Rattle.std.specs.Prelude.{◌≡◌, IfOk};
ghost use Rattle.st_meaning.specs.Offsets.{IsSmall};
ghost use Rattle.st_meaning.specs.Typing.{body_of};
ghost use Rattle.st_code.specs.Code.{body_code};
ghost use Rattle.st_places.specs.Parts.{whole_in};

use crate::statements::emit_statements;
use st_code::Code;
use st_emit_expressions::Scope;
use st_places::Tables;
use st_tree::tree::Statement;
use std::alloc::{AllocError, Global};

/// The code of a body of statements of the unit of this number. It is refused for want of memory alone, as which a number in a call
/// counts that an instruction has no room for.
pub fn emit_body(
    alloc: Global,
    tables: &Tables<'_>,
    unit: usize,
    statements: &[Statement],
) -> Result<Code, AllocError>
    requires small { IsSmall (whole_in tables.now unit).variables }
    ensures { IfOk result (λ code. code ≡ body_code (whole_in tables.now unit).variables
        (body_of (whole_in tables.now unit) statements.now)) }
{
    let scope = Scope::new(alloc, tables, unit);
    let mut code = Code::new(alloc);
    emit_statements(&mut code, &scope, statements, 0, 0)?;
    code.reverse();
    Ok(code)
}
