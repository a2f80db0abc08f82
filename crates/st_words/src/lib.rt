//! Reads the words of the command line by `clap`. It stands on no other crate of the repository.
#![tactic(auto)]

mod words;

pub use words::{DEFAULT_STEPS, MAX_STEPS, Manner, Order, VERSION, Verb, read_order, read_words};
