//! What runs answer, as text.
//!
//! Promises: the texts of ends, stops, replays and counterexamples; whether two ends have the same outputs.
//!
//! Rules: `specs/ContentTexts`, `specs/ItemTexts`, `specs/EndTexts`.
//!
//! Words:
//! - item (of a text): the name of an output, ` = `, and what it holds
#![tactic(auto)]

pub mod counterexample;
pub mod ends;
mod items;
pub mod laws;
pub mod memory;
pub mod replay;
mod shown;
