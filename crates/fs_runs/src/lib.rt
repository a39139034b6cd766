//! Runs of machines on inputs: one step, and all steps up to the first return to the reset state.
//!
//! Promises: `run` and `step` answer exactly what `fs_model/specs/Runs` and `Touched` say.
//!
//! Rules: `specs/Outcomes`, `specs/StepLaws`.
//!
//! Words:
//! - outcome (of a run): it ends, has no return within the steps, or leaves 128 bits
//! - told (of outputs): contents in order of declaration say what each output's name holds
#![tactic(auto)]

pub mod laws;
pub mod run;
pub mod step;

pub use fs_stores::{changes, inputs, store, values};
