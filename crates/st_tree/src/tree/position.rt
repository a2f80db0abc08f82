//! Where a node stands, and names.
use crate::word::Word;

/// Where a token stands.
#[derive(Clone, Copy, Debug, PartialEq, Eq)]
pub struct Position {
    /// The number of the token in the text. The first is 0, and a text has at most 2^20.
    pub number: u32,
    /// The line on which it begins. The first is 1.
    pub line: u32,
}

/// A name, spelled as in the text. Names are the same where they differ in case only.
#[derive(Drop)]
pub struct Identifier {
    pub position: Position,
    pub spelling: Word,
}
