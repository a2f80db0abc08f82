//! How large the leaves of a part of a program are.
ghost use Rattle.std.specs.Prelude.{List, [], ◌∷◌, ◌++◌, codes};
ghost use Rattle.st_leaves.specs.Sizes.{IsSize};
ghost use Rattle.st_leaves.specs.Charts.{LeafBelow, below, kept_under, named};
ghost use Rattle.st_leaves.specs.Limits.{sizes_of};

use crate::Size;
use st_values::Elem;

/// Of a variable of an elementary type: one leaf, whose path ends here.
pub fn leaf_size(elem: Elem) -> Size
    ensures { IsSize result (sizes_of (record { path = []; elem = elem } ∷ [])) }
{
    Size::of_leaf(u64::from(elem.width()))
}

/// Of a part with these leaves, below `.` and its name.
pub fn named_size(name: &[u8], inside: Size) -> Size
    ensures { (leaves : List LeafBelow) → IsSize inside (sizes_of leaves)
        → IsSize result (sizes_of (below (codes "." ++ name.now) leaves)) }
{
    inside.below(name.len() as u64 + 1)
}

/// Of one leaf below `.` and its name.
pub(crate) fn named_leaf_size(name: &[u8], elem: Elem) -> Size
    ensures { IsSize result (sizes_of (named name.now elem ∷ [])) }
{
    named_size(name, leaf_size(elem))
}

/// Of one leaf that is kept under this name, below `.$`.
pub(crate) fn kept_leaf_size(name: &[u8], elem: Elem) -> Size
    ensures { IsSize result (sizes_of (kept_under name.now elem ∷ [])) }
{
    leaf_size(elem).below(name.len() as u64 + 2)
}
