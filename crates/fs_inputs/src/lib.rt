//! Files of inputs: a JSON object from the names of inputs to their values.
//!
//! The value of a scalar is a JSON whole number of 64 bits, or a string of decimal digits without a
//! needless zero, with a `-` before them where the number is below 0. The value of an array is an object
//! from such strings to such values. An input that is not named is 0, or 0 at each index.
//!
//! Promises: the inputs that the bytes of a JSON file spell, or the first refusal.
//!
//! Rules: `specs/Numbers`, `specs/InputMembers`, `specs/Refusals`.
#![tactic(auto)]

mod faults;
mod files;
mod laws;
mod numbers;
mod values;

pub use faults::{Fault, InputError};
pub use files::read_inputs;
pub use laws::a_number_has_one_spelling;
