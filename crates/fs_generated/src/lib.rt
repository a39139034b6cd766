//! Pairs of machines of any size, made by a rule.
//!
//! Promises: two machines of a size from 1 to 300, as stated parts spell them.
//!
//! Rules: `specs/Generated`.
#![tactic(auto)]

pub mod generate;
mod names;
mod parts;
mod states;
