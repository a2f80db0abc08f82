//! Holds sessions: it does an operator's commands, line by line from a [`Source`], and writes the replies to a [`Sink`]. A check and a
//! layout of a text are answered here too.
#![tactic(auto)]

mod change;
mod check;
mod conversation;
mod grade;
mod layout;
mod listing;
mod observer;
mod reply;
mod run;
mod scanning;

pub use check::check_text;
pub use conversation::{Outcome, session, session_observed};
pub use grade::Grade;
pub use layout::layout_text;
pub use observer::{Exchange, Observer, Silent};
pub use reply::Upshot;
pub use run::{
    ACCEPTED, DEVICE_FAILED, LINE_REFUSED, NO_MEMORY, NO_PROGRAM, run_text, run_text_observed,
};
pub use st_control as control;
pub use st_devices::{
    Bytes, DeviceFault, FromReader, MAX_LINE_BYTES, Sheet, Sink, Source, ToWriter,
};
pub use st_lines::commands_come_in_parts;
