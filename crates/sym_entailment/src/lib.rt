//! What arrives by paths where a fact holds, and what of a fact it entails.
//!
//! Promises: what arrives by paths, and what of a fact a post does not entail; what one machine's path gives, whatever the
//! other machine does, and whether two such paths are refuted together.
//!
//! Rules: `sym_paths/specs/Execution`, `sym_facts/specs/Entailment`, `specs/Outcomes`, `src/laws`.
#![tactic(auto)]

pub mod arrival;
pub mod entailment;
pub mod laws;
pub mod outcomes;
