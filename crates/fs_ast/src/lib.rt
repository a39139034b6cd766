//! Machines from their parts: built, with the branches and the numbers of their states, where no rule is broken.
//!
//! The rules that parts keep stand in `fs_rules`; its definitions are passed on by `specs/`.
//!
//! Promises: `Machine::build` gives the machine that well-formed parts spell, and what is sound; `build_lawful`: the machine
//! of parts that break no rule; `lawful_where`: parts keep all rules where the machine that they spell does and is nowhere
//! endless.
//!
//! Rules: `specs/Shapes`, `specs/Branches`, `src/laws`, `proofs/LawfulParts`.
#![tactic(auto)]

pub mod build;
mod constants;
pub mod lawful_machines;
pub mod laws;
pub mod machine;
mod shape_rules;

pub use fs_model::{name, parts};
pub use fs_rules::check;
