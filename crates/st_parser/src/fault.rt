//! Why tokens aren't read.
ghost use Rattle.std.specs.Prelude.{◌≡◌};
ghost use Rattle.st_parser.specs.Grammar.Faults.{in_text, line_or};
ghost use Rattle.st_parser.specs.declared.fault.ReadFault.TheVariants.{Memory};

use st_tokens::SyntaxFault;
use st_tree::tree::Position;
use std::alloc::{AllocError, AllocFailed};

/// Why what is due isn't read from the next tokens.
#[derive(Clone, Copy)]
pub enum ReadFault {
    /// Memory ran out.
    Memory,
    /// The grammar doesn't have the next token, which stands here. Or there is none, since the text ends.
    NotInGrammar { place: Option<Position> },
    /// The next token, which stands here, opens a level inside as many as may be open. Or there is none.
    TooDeep { place: Option<Position> },
}

impl ReadFault {
    /// The fault of a text whose last byte stands on this line.
    pub fn in_text(self, last_line: u32) -> SyntaxFault
        ensures { result ≡ in_text last_line self }
    {
        match self {
            ReadFault::Memory => SyntaxFault::Memory,
            ReadFault::NotInGrammar { place } => SyntaxFault::NotInGrammar {
                line: line_or(last_line, place),
            },
            ReadFault::TooDeep { place } => SyntaxFault::TooDeep {
                line: line_or(last_line, place),
            },
        }
    }
}

/// The line of a token, or the text's last line where there is no token.
fn line_or(last_line: u32, place: Option<Position>) -> u32
    ensures { result ≡ line_or last_line place }
{
    match place {
        Some(position) => position.line,
        None => last_line,
    }
}

impl From<AllocError> for ReadFault {
    ghost from_gives = { λ _ fault. fault ≡ Memory };

    fn from(_: AllocError) -> ReadFault {
        ReadFault::Memory
    }
}

impl<T: Drop> From<AllocFailed<T>> for ReadFault {
    ghost from_gives = { λ _ fault. fault ≡ Memory };

    fn from(_failed: AllocFailed<T>) -> ReadFault {
        ReadFault::Memory
    }
}
