//! The dimensions of arrays (2.4.1).
ghost use Rattle.std.specs.Prelude.{◌≡◌, ◌*◌, ◌≤◌, IfOk, IsTrue, List as Items, min, ℕ};
ghost use Rattle.st_tree.specs.Literals.{number_of};
ghost use Rattle.st_leaves.specs.Places.{extent, extent_of};
ghost use Rattle.st_places.specs.Dimensions.{AreLimited, IsLimited};
ghost use Rattle.st_tree.specs.declared.tree.declaration.Subrange.{Subrange as Range};
ghost use Rattle.st_values.specs.Values.{in_range};
ghost use Rattle.st_values.specs.declared.elem.Elem.TheVariants as elems;

use crate::node::Dimension;
use st_leaves::{Choices, MAX_COUNT, number_written};
use st_tree::List;
use st_tree::tree::{SignedInteger, Subrange};
use std::alloc::{AllocError, Global};

/// The dimensions of an array, and how many leaves it has. The number stops at 1,000,000.
#[derive(Drop)]
pub(crate) struct Dimensions {
    pub items: List<Dimension>,
    pub count: u64,
}

/// Of an array with these subscripts, each of whose elements has so many leaves.
pub(crate) fn dimensions_of(
    alloc: Global,
    ranges: &[Subrange],
    element: u64,
) -> Result<Dimensions, AllocError>
    requires { element ≤ 1000000 }
    ensures items { IfOk result
        (λ all. (size : ℕ) → element ≡ min size 1000000 → AreLimited size ranges.now all.items) }
    ensures count { IfOk result
        (λ all. (size : ℕ) → element ≡ min size 1000000
        → all.count ≡ min (extent ranges.now * size) 1000000) }
    ensures most { IfOk result (λ all. all.count ≤ 1000000) }
{
    let mut items = Vec::with_capacity(alloc, ranges.len())?;
    let mut count = element;
    let mut left = ranges.len();
    'dimensions: while left > 0 {
        left -= 1;
        let range = &ranges[left];
        items.push(dimension(range, count))?;
        count = product(extent_of(range), count);
    }
    items.reverse();
    Ok(Dimensions {
        items: List { items },
        count,
    })
}

/// A subscript where two elements are so many leaves apart.
fn dimension(range: &Subrange, stride: u64) -> Dimension
    requires { stride ≤ 1000000 }
    ensures { (size : ℕ) (ranges : Items Range) → stride ≡ min (extent ranges * size) 1000000
        → IsLimited size range.now ranges result }
{
    Dimension {
        last: extent_of(range).min(65_536).saturating_sub(1) as u16,
        stride: stride as u32,
        low: low_of(range.lower),
    }
}

/// How many numbers there are from the lower bound to the upper one. It stops at 1,000,000.
fn extent_of(range: &Subrange) -> u64
    ensures { result ≡ min (extent_of range.now) 1000000 }
{
    Choices::of_subrange(number_written(range.lower), number_written(range.upper)).count
}

/// The number that is written, where it is one of LINT.
fn low_of(written: SignedInteger) -> i64
    ensures { IsTrue (in_range elems.Lint (number_of written)) → result ≡ number_of written }
{
    let magnitude = written.magnitude.get().min(1 << 63) as i128;
    if written.is_negative {
        -magnitude as i64
    } else {
        magnitude.min(i128::from(i64::MAX)) as i64
    }
}

/// A product of counts that stop at 1,000,000. It stops there too.
fn product(a: u64, b: u64) -> u64
    ensures { (m n : ℕ) → a ≡ min m 1000000 → b ≡ min n 1000000 → result ≡ min (m * n) 1000000 }
{
    a.saturating_mul(b).min(MAX_COUNT)
}
