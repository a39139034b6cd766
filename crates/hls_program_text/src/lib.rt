//! Programs of the small behavioural language, from their bytes.
//!
//! Promises: `read_program`: the program that bytes spell, or their first fault.
//!
//! Rules: `specs/Refusals`.
#![tactic(auto)]

mod assignments;
mod blocks;
mod declarations;
mod expressions;
pub mod fault;
mod marks;
mod parse;
mod parts;
mod read;

pub use read::read_program;
