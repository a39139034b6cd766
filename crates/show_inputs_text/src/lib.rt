//! Files of inputs that show a difference of two machines: written as JSON, read back, and tried.
//!
//! Promises: `differing_inputs`: a file of inputs that show a difference, read back and tried.
//!
//! Rules: `specs/InputTexts`.
#![tactic(auto)]

pub mod differing;
mod values;
