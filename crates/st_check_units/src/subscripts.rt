//! The subscripts of arrays (2.3.3.1).
ghost use Rattle.std.specs.Prelude.{◌≡◌};
ghost use Rattle.std.specs.List.{flat_map};
ghost use Rattle.st_faults.specs.Faults.{offer_all};
ghost use Rattle.st_check_units.specs.Subscripts.{array_size, bound_of, is_upper, subrange_faults, subrange_size};
ghost use Rattle.st_check_units.specs.Counted.{counted};

use st_faults::{FirstFault, Rule};
use st_tree::tree::{SignedInteger, Subrange};
use st_values::Elem;

/// The number of a bound, where it is one of LINT.
fn bound(number: &SignedInteger) -> Option<i128>
    ensures { result ≡ bound_of number.now }
{
    let limit = Elem::Lint.limit();
    let distance = number.magnitude.get();
    if distance < limit {
        let magnitude = distance as i128;
        Some(if number.is_negative {
            -magnitude
        } else {
            magnitude
        })
    } else if number.is_negative && distance == limit {
        Some(-(distance as i128))
    } else {
        None
    }
}

/// Whether there is an upper bound, and it isn't below the lower one.
fn is_upper(lower: Option<i128>, upper: Option<i128>) -> bool
    ensures { result ≡ is_upper lower upper }
{
    match (lower, upper) {
        (_, None) => false,
        (None, Some(_)) => true,
        (Some(lower), Some(upper)) => lower <= upper,
    }
}

/// Offers the faults of the bounds of a subscript.
#[tactic(auto, unfolding(st_faults::specs::Faults::offer_all), using(st_faults::proofs::Least::offer_append))]
fn check_subrange(range: &Subrange, first: &mut FirstFault)
    ensures { first.new ≡ offer_all first.old (subrange_faults range.now) }
{
    let lower = bound(&range.lower);
    let upper = bound(&range.upper);
    // No case of typing rests on these two rules.
    first.offer_when(lower.is_none(), range.lower.position, Rule::OutOfRange);
    first.offer_when(
        !is_upper(lower, upper),
        range.upper.position,
        Rule::OutOfRange,
    );
}

/// Offers the faults of the bounds of subscripts.
#[tactic(auto, unfolding(st_faults::specs::Faults::offer_all), using(st_faults::proofs::Least::offer_append))]
pub fn check_subranges(ranges: &[Subrange], first: &mut FirstFault)
    ensures { first.new ≡ offer_all first.old (flat_map subrange_faults ranges.now) }
{
    for range in ranges {
        check_subrange(range, first);
    }
}

/// How many values a subscript has, where its bounds are right.
fn subrange_size(range: &Subrange) -> Option<u128>
    ensures { result ≡ subrange_size range.now }
{
    let lower = bound(&range.lower)?;
    let upper = bound(&range.upper)?;
    let more = u128::try_from(upper - lower).ok()?;
    Some(more + 1)
}

/// How many elements the subscripts select, where all are right and the number is below 2^128.
pub fn array_size(ranges: &[Subrange]) -> Option<u128>
    ensures { result ≡ counted (array_size ranges.now) }
{
    let mut size: u128 = 1;
    for range in ranges {
        size = size.checked_mul(subrange_size(range)?)?;
    }
    Some(size)
}
