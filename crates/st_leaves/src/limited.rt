//! Sizes of lists of leaves.
ghost use Rattle.std.specs.Prelude.{◌≡◌, ◌+◌, ◌++◌, ◌∷◌, [], List, max, min, ℕ};
ghost use Rattle.st_leaves.specs.Sizes.{AreChoices, IsSize, LeafSize, below, copies, leaf, longest_path, pairs};

/// Each count stops here. It is above the limits of a program.
pub const MAX_COUNT: u64 = 1_000_000;

/// How many leaves there are, how many bytes they take, and how many bytes the longest of their paths has. Each stops at
/// 1,000,000.
#[derive(Clone, Copy, Debug, PartialEq, Eq)]
pub struct Size {
    pub leaves: u64,
    pub bytes: u64,
    pub longest: u64,
}

/// The texts by which the elements of an array are chosen: how many there are, and how many bytes the longest has. Each stops
/// at 1,000,000.
#[derive(Clone, Copy, Debug, PartialEq, Eq)]
pub struct Choices {
    pub count: u64,
    pub longest: u64,
}

impl Size {
    /// The size of what has no leaves.
    pub fn none() -> Size
        ensures { IsSize result [] }
    {
        Size {
            leaves: 0,
            bytes: 0,
            longest: 0,
        }
    }

    /// Of one leaf of so many bytes, whose path ends here.
    pub fn of_leaf(bytes: u64) -> Size
        ensures { IsSize result (leaf 0 bytes ∷ []) }
    {
        Size {
            leaves: 1,
            bytes: at_most(bytes),
            longest: 0,
        }
    }

    /// Of these leaves, and then others.
    pub fn beside(self, other: Size) -> Size
        ensures { (xs ys : List LeafSize) → IsSize self xs → IsSize other ys
            → IsSize result (xs ++ ys) }
    {
        Size {
            leaves: at_most(self.leaves.saturating_add(other.leaves)),
            bytes: at_most(self.bytes.saturating_add(other.bytes)),
            longest: larger(self.longest, other.longest),
        }
    }

    /// Of these leaves below a part of so many bytes.
    pub fn below(self, bytes: u64) -> Size
        ensures { (xs : List LeafSize) → IsSize self xs → IsSize result (below bytes xs) }
    {
        Size {
            leaves: self.leaves,
            bytes: self.bytes,
            longest: self.longest_below(bytes),
        }
    }

    /// Of one copy of these leaves below each of some parts.
    pub fn times(self, choices: Choices) -> Size
        ensures { (texts : List ℕ) (xs : List LeafSize) → AreChoices choices texts → IsSize self xs
            → IsSize result (copies texts xs) }
    {
        Size {
            leaves: at_most(self.leaves.saturating_mul(choices.count)),
            bytes: at_most(self.bytes.saturating_mul(choices.count)),
            longest: if choices.count == 0 {
                0
            } else {
                self.longest_below(choices.longest)
            },
        }
    }

    /// How many bytes the longest path has below a part of so many bytes.
    fn longest_below(self, bytes: u64) -> u64
        ensures { (xs : List LeafSize) → IsSize self xs
            → result ≡ min (longest_path (below bytes xs)) 1000000 }
    {
        if self.leaves == 0 {
            0
        } else {
            at_most(self.longest.saturating_add(bytes))
        }
    }
}

impl Choices {
    /// Of one text of so many bytes.
    pub fn of_text(bytes: u64) -> Choices
        ensures { AreChoices result (bytes ∷ []) }
    {
        Choices {
            count: 1,
            longest: at_most(bytes),
        }
    }

    /// Of each of these texts before each of those.
    pub fn times(self, other: Choices) -> Choices
        ensures { (texts more : List ℕ) → AreChoices self texts → AreChoices other more
            → AreChoices result (pairs texts more) }
    {
        let count = at_most(self.count.saturating_mul(other.count));
        Choices {
            count,
            longest: if count == 0 {
                0
            } else {
                at_most(self.longest.saturating_add(other.longest))
            },
        }
    }
}

pub(crate) fn at_most(count: u64) -> u64
    ensures { result ≡ min count 1000000 }
{
    if count < MAX_COUNT { count } else { MAX_COUNT }
}

pub(crate) fn larger(a: u64, b: u64) -> u64
    ensures { result ≡ max a b }
{
    if a < b { b } else { a }
}
