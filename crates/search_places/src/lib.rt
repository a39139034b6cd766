//! The nodes of a search, each with what is kept of it.
//!
//! Promises: nodes by their points in order of making, and the moves of a node.
//!
//! Rules: `specs/NodeRecords`, `specs/NodeChanges`, `specs/Moves`.
#![tactic(auto)]

pub mod moves;
pub mod node_state;
pub mod nodes;
