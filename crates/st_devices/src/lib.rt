//! Reads bytes, lines and words from devices, and writes bytes to them.
//!
//! A [`Source`] gives bytes and a [`Sink`] takes them, over readers, writers or memory. An [`Input`] takes lines off a source.
#![tactic(auto)]

mod devices;
mod input;
mod memory_sink;
mod memory_source;
mod reader_source;
mod words;
mod writer_sink;
mod writing;

pub use devices::{DeviceFault, Sink, Source};
pub use input::{Found, Input, MAX_LINE_BYTES};
pub use memory_sink::Sheet;
pub use memory_source::Bytes;
pub use reader_source::FromReader;
pub use words::{is_space_or_tab, skip_blanks, split_word};
pub use writer_sink::ToWriter;
pub use writing::write_all;
