//! The words of the command line: what they ask, by the definition of a command line that `clap` has.
//!
//! Promises: what words ask, exactly by `clap`'s definition of the command line; usage only for words that are not
//! taken.
//!
//! Rules: `specs/AskedWords`, `src/laws`.
//!
//! Words:
//! - asked: what taken words of the command line ask
//! - word (of a call): a text of the command line
#![tactic(auto)]

pub mod asking;
pub mod laws;
pub mod matched;
mod reading;
pub mod words;
