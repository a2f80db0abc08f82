//! The names that charts store, as they are declared (2.6.4.4).
ghost use Rattle.std.specs.Prelude.{◌≡◌, IfOk, map};
ghost use Rattle.st_leaves.specs.Charts.{as_declared, spelled, stored_by, variable_names};
ghost use Rattle.st_scopes.specs.Declarations.{seen};

use crate::spellings::Spellings;
use st_leaves::stored_names;
use st_scopes::Declared;
use st_tree::Word;
use st_tree::tree::ChartElement;
use std::alloc::{AllocError, Global};

/// The names that a chart with these elements stores, as they are declared, in a unit that declares these variables.
pub(crate) fn names_stored<'a>(
    alloc: Global,
    variables: &[Declared<'a>],
    elements: &'a [ChartElement],
) -> Result<Vec<&'a Word>, AllocError>
    ensures { IfOk result (λ names. spelled names.items
        ≡ stored_by (variable_names (map seen variables.now)) elements.now) }
{
    let stored = stored_names(alloc, elements)?;
    if stored.is_empty() {
        return Ok(stored);
    }
    let declared = Spellings::new(alloc, variables, elements)?;
    respelled(alloc, &declared, stored.as_slice())
}

/// These names as they are declared.
fn respelled<'a>(
    alloc: Global,
    declared: &Spellings<'a>,
    names: &[&'a Word],
) -> Result<Vec<&'a Word>, AllocError>
    ensures { IfOk result (λ words. spelled words.items
        ≡ map (as_declared declared.now) (spelled names.now)) }
{
    let mut words = Vec::with_capacity(alloc, names.len())?;
    'names: for name in names {
        words.push(declared.of(*name))?;
    }
    Ok(words)
}
