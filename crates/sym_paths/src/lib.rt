//! Paths of a machine over a vector of normal forms: their conditions and what they leave (symbolic execution of
//! paths between cutpoints: Karfa and others, IEEE TCAD 2008).
//!
//! Promises: a path over a vector: its conditions are true exactly where the store that the vector means takes it, and
//! the vector after it means the store in which it ends.
//!
//! Rules: `specs/Evaluation`, `specs/Execution`, `src/laws`.
//!
//! Words:
//! - arrive: to execute a path of each machine that moves, from a fact's vector
//! - condition (of a path): a normal literal over a vector, true where the path is taken
//! - post: conditions, and a vector where they are true
#![tactic(auto)]

pub mod assignments;
pub mod evaluation;
pub mod execution;
pub mod laws;
