//! A row of the graph: numbers of units.
ghost use Rattle.std.specs.Prelude.{◌≡◌, ◌++◌, OnOk};
ghost use Rattle.st_references.specs.References.{listed};

use st_tree::List;
use std::alloc::AllocError;

/// Adds the number of a unit, where one was found.
pub fn add_found(found: Option<usize>, row: &mut List<usize>) -> Result<(), AllocError>
    ensures { OnOk result (row.new ≡ row.old ++ listed found) }
{
    if let Some(number) = found {
        row.push(number)?;
    }
    Ok(())
}
