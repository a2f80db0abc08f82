//! How large the leaves of arrays are (2.4.1).
ghost use Rattle.std.specs.Prelude.{◌≡◌, ◌+◌, List, length, map};
ghost use Rattle.st_leaves.specs.Sizes.{AreChoices, IsSize};
ghost use Rattle.st_leaves.specs.Subscripts.{texts_between, value_of};
ghost use Rattle.st_leaves.specs.Charts.{LeafBelow};
ghost use Rattle.st_tree.specs.Literals.{number_of};
ghost use Rattle.st_leaves.specs.Leaves.{array_leaves, choices, number_written};
ghost use Rattle.st_leaves.specs.Limits.{sizes_of};

use crate::{Choices, Number, Size};
use st_tree::tree::{SignedInteger, Subrange};

/// Of an array with these subscripts, each of whose elements has such leaves.
pub fn array_size(subscripts: &[Subrange], element: Size) -> Size
    ensures { (leaves : List LeafBelow) → IsSize element (sizes_of leaves)
        → IsSize result (sizes_of (array_leaves subscripts.now leaves)) }
{
    element.times(element_texts(subscripts))
}

/// The texts of subscripts with the brackets around them. One `[` or `,` stands before each subscript, and `]` after the last.
fn element_texts(subscripts: &[Subrange]) -> Choices
    ensures { AreChoices result (map (λ text. length text + 2) (choices subscripts.now)) }
{
    if subscripts.is_empty() {
        return Choices::of_text(2);
    }
    let separator = Choices::of_text(1);
    let mut texts = Choices::of_text(0);
    'subscripts: for range in subscripts {
        texts = texts.times(separator).times(subscript_texts(*range));
    }
    texts.times(separator)
}

/// The texts of one subscript.
fn subscript_texts(range: Subrange) -> Choices
    ensures { AreChoices result (texts_between (number_of range.lower) (number_of range.upper)) }
{
    Choices::of_subrange(number_written(range.lower), number_written(range.upper))
}

/// The number that is written, as subscripts are counted.
pub fn number_written(written: SignedInteger) -> Number
    ensures { result ≡ number_written written }
{
    Number {
        is_negative: written.is_negative,
        magnitude: written.magnitude.get(),
    }
}
