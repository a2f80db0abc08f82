//! Takes a text apart into its tokens (IEC 61131-3:2003, 2.1 and 2.2), or says at which line none begins.
#![tactic(auto)]

mod comment;
mod duration;
mod fault;
mod keyword;
mod literal;
mod run;
mod scan;
mod symbol;
mod token;
mod word;

pub use fault::SyntaxFault;
pub use keyword::Keyword;
pub use scan::{MAX_TEXT_BYTES, tokens, tokens_are_one_list};
pub use symbol::Symbol;
pub use token::{Kind, Spelling, Token};
