//! Types without leaves, by their sizes.
ghost use Rattle.std.specs.Prelude.{◌≡◌, [], ℕ, IsTrue};
ghost use Rattle.st_check.specs.Sized.{IsSized, size_at, type_leaves, unit_of};
ghost use Rattle.st_types.specs.Names.{units_of};
ghost use Rattle.st_types.specs.Types.{type_at};

use st_leaves::Size;
use st_scopes::Tables;
use st_types::Base;

/// Whether the sizes tell that what has this base has no leaves. The table has the sizes of types, by the numbers of the units.
pub(crate) fn is_empty(tables: &Tables<'_>, sizes: &[Size], base: Base) -> bool
    requires { (i : ℕ) → IsSized (units_of tables.now) sizes.now (type_at (units_of tables.now) i) }
    ensures { IsTrue result → type_leaves (units_of tables.now) base ≡ [] }
{
    match unit_of(base) {
        Some(unit) => base == tables.type_at(unit) && size_at(sizes, unit).leaves == 0,
        None => base.is_unknown(),
    }
}

/// The unit that declares an array, a structure or a function block.
fn unit_of(base: Base) -> Option<usize>
    ensures { result ≡ unit_of base }
{
    match base {
        Base::Array(unit) | Base::Structure(unit) | Base::Block(unit) => Some(unit),
        Base::Unknown | Base::Elementary(_) | Base::Standard(_) => None,
    }
}

/// The size of the unit of this number.
fn size_at(sizes: &[Size], unit: usize) -> Size
    ensures { result ≡ size_at sizes.now unit }
{
    match sizes.get(unit) {
        Some(size) => *size,
        None => Size::none(),
    }
}
