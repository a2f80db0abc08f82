//! How messages to people look: a heading that editors find, the line of a text with a caret under what is meant, notes and help. It
//! finds which bytes of a text are a token and where a place stands, which name is near another, and what to write in the place of what
//! the standard, its other editions or other languages have and this language hasn't. It knows no rule of the language.
#![tactic(auto)]

mod draft;
mod form;
mod left_out_names;
mod lexed;
mod lexeme;
mod nearest;
mod other_words;
mod place;
mod saying;
mod shown;
mod skip;
mod source;

pub use draft::Draft;
pub use form::{
    Code, Words, push_code, push_diagnosis, push_heading, push_help, push_note, push_quoted,
};
pub use left_out_names::{FUNCTION_NAMES, TYPE_NAMES, function_left_out, type_left_out};
pub use lexed::Lexed;
pub use lexeme::{Lexeme, lexemes};
pub use nearest::Nearest;
pub use other_words::{Row, left_out, other_word};
pub use place::{Place, last_line, line_span, place_after};
pub use saying::{CauseRow, Saying, Slot, saying_at, words_of};
pub use shown::push_shown;
pub use source::{Span, push_line, push_source};
