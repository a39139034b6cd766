//! The certificate of a closed table, or a cycle in which one machine moves alone.
//!
//! Promises: `close`: a closed table's certificate, or a cycle of lone moves.
//!
//! Rules: `specs/Closings`.
#![tactic(auto)]

pub(crate) mod certify;
pub mod closing;
pub(crate) mod covered;
pub(crate) mod lone;
pub(crate) mod modes;
pub(crate) mod node_table;
pub(crate) mod places;
