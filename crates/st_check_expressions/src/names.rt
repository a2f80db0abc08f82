//! Names that stand twice.
ghost use Rattle.std.specs.Prelude.{◌≡◌, IfOk, map};
ghost use Rattle.st_check_expressions.specs.Calls.{is_repeated};

use st_tree::tree::Identifier;
use st_types::NameTable;
use std::alloc::{AllocError, Global};

/// Whether one of these names stands twice, ignoring case.
pub fn has_repeated(alloc: Global, names: &[&Identifier]) -> Result<bool, AllocError>
    ensures { IfOk result (λ repeated. repeated ≡ is_repeated (map (λ n. n.now) names.now)) }
{
    let mut seen = NameTable::new(alloc);
    'names: for name in names {
        let spelling = name.spelling.as_slice();
        if seen.find(spelling).is_some() {
            return Ok(true);
        }
        seen.push(spelling)?;
    }
    Ok(false)
}
