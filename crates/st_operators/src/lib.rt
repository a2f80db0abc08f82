//! Works out operators (IEC 61131-3:2003, 3.3.1) and standard functions (2.5.1.5) over values.
#![tactic(auto)]

mod arithmetic;
mod binary;
mod bits;
mod choices;
mod conversion;
mod laws;
mod shifts;
mod types;

pub use arithmetic::{absolute, negate};
pub use binary::{ZeroDivisor, apply};
pub use bits::complement;
pub use choices::{greatest, least, limited, selected};
pub use conversion::converted;
pub use laws::{
    bits_are_taken_apart, division_leaves_its_remainder, functions_give_values,
    operators_give_values, rotations_go_round, shifts_end_in_zero, zero_divisors_alone_are_refused,
};
pub use shifts::{rotated_left, rotated_right, shifted_left, shifted_right};
pub use types::{complements, is_bits, is_comparison, is_integer, negates, takes};
