//! Gives the elementary types, their values, and the texts of values (IEC 61131-3:2003, 2.2 and 2.3.1). A value is put as a text, and a
//! text is read as a value.
#![tactic(auto)]

mod compact;
mod duration;
mod elem;
mod number;
mod put;
mod read;
mod value;
mod word;

pub use compact::{CompactValue, Integer, Natural};
pub use duration::{interval_is_its_parts, read_interval};
pub use elem::{Class, Elem};
pub use number::{digits_are_their_number, read_digits};
pub use put::put_value;
pub use read::{BadValue, read_value, text_is_read_back};
pub use value::{Value, is_value, truth, wrap};
