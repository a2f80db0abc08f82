//! How many leaves what has a type has.
ghost use Rattle.std.specs.Prelude.{◌≡◌, ◌≤◌, List, min};
ghost use Rattle.st_leaves.specs.Places.{count};
ghost use Rattle.st_places.specs.Parts.{inside};
ghost use Rattle.st_check.specs.Sized.{IsSized, size_at};
ghost use Rattle.st_types.specs.Names.{Named};

use st_leaves::{MAX_COUNT, Size, standard_size};
use st_types::Base;

/// Of this type, where the table has the sizes of arrays, structures and function blocks by their units. The number stops at
/// 1,000,000.
pub(crate) fn leaves_of(sizes: &[Size], base: Base) -> u64
    ensures count { (units : List Named) → IsSized units sizes.now base
        → result ≡ min (count (inside units base)) 1000000 }
    ensures most { result ≤ 1000000 }
{
    match base {
        Base::Unknown => 0,
        Base::Elementary(_) => 1,
        Base::Standard(block) => standard_size(block).leaves.min(MAX_COUNT),
        Base::Array(unit) | Base::Structure(unit) | Base::Block(unit) => {
            size_at(sizes, unit).leaves.min(MAX_COUNT)
        }
    }
}

/// The size of the unit of this number.
fn size_at(sizes: &[Size], unit: usize) -> Size
    ensures { result ≡ size_at sizes.now unit }
{
    match sizes.get(unit) {
        Some(size) => *size,
        None => Size::none(),
    }
}
