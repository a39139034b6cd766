//! The command line of the program, built for `clap`.
//!
//! Promises: the command line as its definition says.
//!
//! Rules: `specs/CommandLine`, `specs/SubcommandShapes`.
#![tactic(auto)]

pub mod building;
pub mod command_line;
pub mod subcommands;
