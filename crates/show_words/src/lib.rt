//! The words of the command line of `fsmd_show`: what they ask to see, by the definition of a command line that `clap` has.
//!
//! Promises: what words ask to see, exactly by `clap`'s definition of the command line.
//!
//! Rules: `specs/ViewCommandLine`, `specs/ViewWords`, `src/laws`.
//!
//! Words:
//! - view: what `fsmd_show` is asked to show
#![tactic(auto)]

pub mod asking;
mod command_line;
pub mod laws;
mod reading;
pub mod words;
