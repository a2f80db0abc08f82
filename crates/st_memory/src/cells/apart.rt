//! What the cells of a memory hold: the fields that are named here and no others.
ghost use Rattle.std.specs.Prelude.{◌≡◌};

use crate::cells::Cells;
use st_values::Value;

/// Takes cells apart. The pattern names all their fields: a value a leaf, and whether each leaf is forced.
fn cells_apart(cells: &Cells) -> (&[Value], &[bool])
    ensures values { result.0.now ≡ cells.now.values.items }
    ensures forced { result.1.now ≡ cells.now.forced.items }
{
    let Cells { values, forced } = cells;
    (values.as_slice(), forced.as_slice())
}
