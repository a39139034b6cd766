//! Runs of machines, step by step.
//!
//! Promises: `trace_text`: a line for each step of a run, exactly.
//!
//! Rules: `specs/Traces`, `specs/TraceLaws`.
//!
//! Words:
//! - place (of a run): a state with a store
//! - trace (of a run): the lines of its steps, in order
#![tactic(auto)]

pub mod laws;
mod lines;
mod steps;
pub mod traces;
