//! The facts of a second search: those that are made of claims, and what facts leave open.
//!
//! Promises: `fact_of`, `first_fact`, `open_paths`, `some_meets_several`, `outputs_differ`: calls are safe and end, and no more
//! is promised.
#![tactic(auto)]

pub mod facts;
pub mod first_facts;
mod literals;
pub mod open_paths;
pub mod outputs;

pub use search_strengthening_solutions::weeding;
