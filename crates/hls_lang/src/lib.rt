//! Programs of the small behavioural language, read from texts and compiled to machines that do what the programs do.
//!
//! Promises: `compile`: the parts of a program and their machine, which does what the program does, or the first rule
//! that they break.
//!
//! Rules: `specs/Refusals`.
#![tactic(auto)]

pub mod compile;

pub use hls_program_parts::{program, well_formed};
pub use hls_program_text::{fault, read_program};
