//! The items of a search that wait, the least of which comes next.
//!
//! Promises: the least item that waits, and which items wait after one was put in or taken out.
//!
//! Rules: `specs/ItemOrder`.
//!
//! Words:
//! - item (of a search): a node whose mode is to be found, or a move of it that is to be tried
#![tactic(auto)]

pub mod item;
pub mod waiting;
