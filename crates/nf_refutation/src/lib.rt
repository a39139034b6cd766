//! Which lists of literals are refuted, found by their directions, and which literals of a list clash.
//!
//! Promises: `is_refuted`: whether n literals are refuted, in n log n comparisons; `refuted`: which two of them clash
//! first.
//!
//! Rules: `specs/BoundTables`.
#![tactic(auto)]

mod bound_table;
pub mod refutation;
