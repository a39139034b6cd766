//! Certificates as JSON: the values that are read of their bytes, without what no certificate has.
//!
//! Promises: the JSON of a certificate has its form and keeps its limits, or why not.
//!
//! Rules: `specs/Trim`, `specs/Refusals`, `specs/WrittenJson`.
//!
//! Words:
//! - level (of a value): how deep it stands: the file, a member of it, a node, a member of a node, or deeper
#![tactic(auto)]

pub mod faults;
mod level;
mod numbers;
mod openings;
pub mod reader;
mod short_list;
mod short_object;
mod skip;
mod trim;
