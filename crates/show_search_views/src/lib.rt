//! The search of two machines, shown: what led to its answer, and its table as a graph.
//!
//! Promises: `explain`: the answer that two machines get, with what led to it; `search_picture`: the picture of the search
//! of two machines.
//!
//! Rules: `specs/Why`, `specs/SearchPictures`.
#![tactic(auto)]

mod edges;
mod marks;
pub mod pictures;
mod table_nodes;
pub mod why;

pub use show_certificate_lines::obligations;
