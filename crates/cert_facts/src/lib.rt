//! The fact of a node of a certificate: what its equations and its conditions, as texts, make.
//!
//! Promises: `read_fact`: the fact that a node spells, or the first rule that is broken; the parts of a value.
//!
//! Rules: `specs/JsonParts`, `specs/PartAnswers`, `specs/FactReading`.
#![tactic(auto)]

pub mod context;
mod equations;
pub mod fact;
pub mod faults;
mod forms;
pub mod parts;
