//! Says that no text reaches the bounds of what is made of it: how many variables functions have, how many parts charts have, and which
//! numbers instructions have. So what is made of a text is refused for want of memory alone.
#![tactic(auto)]

mod laws;

pub use laws::{arguments_take_tokens, short_programs_have_small_functions, short_texts_fit_code};
