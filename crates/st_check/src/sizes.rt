//! The size of a program.
ghost use Rattle.std.specs.Prelude.{◌≡◌, ◌<◌, IfOk, List, Some, length};
ghost use Rattle.st_leaves.specs.Charts.{LeafBelow};
ghost use Rattle.st_leaves.specs.Leaves.{leaves_of};
ghost use Rattle.st_leaves.specs.Limits.{is_too_large, sizes_of};
ghost use Rattle.st_references.specs.Graphs.{IsOrder};
ghost use Rattle.st_references.specs.References.{graph_of};
ghost use Rattle.st_leaves.specs.Sizes.{IsSize};
ghost use Rattle.st_types.specs.Names.{Named, unit_at, units_of};

use crate::units::{type_sizes, unit_size};
use st_leaves::Size;
use st_scopes::Tables;
use std::alloc::{AllocError, Global};

/// How many leaves a program may have.
pub const MAX_LEAVES: u64 = 65_536;

/// How many bytes the values of its leaves may take.
pub const MAX_IMAGE_BYTES: u64 = 524_288;

/// How many bytes the path of a leaf may have, with the program's name.
pub const MAX_PATH_BYTES: u64 = 255;

/// Whether the leaves of the unit of this number are more than 65,536, take more than 524,288 bytes, or one of them has a path
/// of more than 255 bytes, which begins with the unit's name.
///
/// The units are sized in an order in which each stands after all that it contains. Nothing is listed, so the time is
/// linear in the text, however many leaves there are.
pub fn is_too_large(
    alloc: Global,
    tables: &Tables<'_>,
    order: &[usize],
    unit: usize,
) -> Result<bool, AllocError>
    requires order { IsOrder (graph_of (units_of tables.now)) order.now }
    requires unit { unit < length (units_of tables.now) }
    ensures { IfOk result (λ answer. (named : Named) → unit_at (units_of tables.now) unit ≡ Some named
        → answer ≡ is_too_large (length named.name.spelling) (leaves_of (units_of tables.now) named.declares)) }
{
    let sizes = type_sizes(alloc, tables, order)?;
    let size = unit_size(alloc, tables, &sizes, unit)?;
    Ok(exceeds(size, tables.unit(unit).name.spelling.as_slice().len()))
}

/// Whether leaves of this size are too many or too large, or the path of one is too long with a name of so many bytes before
/// it.
fn exceeds(size: Size, name_len: usize) -> bool
    ensures { (leaves : List LeafBelow) → IsSize size (sizes_of leaves)
        → result ≡ is_too_large name_len leaves }
{
    size.leaves > MAX_LEAVES
        || size.bytes > MAX_IMAGE_BYTES
        || (size.leaves > 0 && size.longest.saturating_add(name_len as u64) > MAX_PATH_BYTES)
}
