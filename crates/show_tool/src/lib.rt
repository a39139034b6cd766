//! The views of `fsmd_show`: their files in order, and what is put.
//!
//! Promises: `drive_show`: all that is promised of a call; `run_program`: the program as a whole.
//!
//! Rules: `specs/Views`, `specs/ViewCalls`.
#![tactic(auto)]

mod answers;
pub mod drive;
pub mod program;
mod put;
mod views;
