//! Why a text isn't accepted.
ghost use Rattle.std.specs.Prelude.{◌≡◌};
ghost use Rattle.st_tokens.specs.declared.fault.SyntaxFault.TheVariants.{Memory};

use std::alloc::{AllocError, AllocFailed};
use thiserror::Error;

/// Why a text has no tokens, or its tokens no program.
///
/// A line counts from 1 and ends with its line feed.
#[derive(Clone, Copy, Debug, PartialEq, Eq, Error)]
pub enum SyntaxFault {
    /// Memory ran out.
    #[error("out of memory")]
    Memory,
    /// No token begins here, or a comment that begins here doesn't end.
    #[error("S1 line {line}")]
    NoToken { line: u32 },
    /// The tokens aren't in the grammar.
    #[error("S2 line {line}")]
    NotInGrammar { line: u32 },
    /// A level is opened inside as many as may be open.
    #[error("S3 line {line}")]
    TooDeep { line: u32 },
    /// The text is longer than a text may be.
    #[error("S4 line 1")]
    TooLong,
}

impl From<AllocError> for SyntaxFault {
    ghost from_gives = { λ _ fault. fault ≡ Memory };

    fn from(_: AllocError) -> SyntaxFault {
        SyntaxFault::Memory
    }
}

impl<T: Drop> From<AllocFailed<T>> for SyntaxFault {
    ghost from_gives = { λ _ fault. fault ≡ Memory };

    fn from(_failed: AllocFailed<T>) -> SyntaxFault {
        SyntaxFault::Memory
    }
}
