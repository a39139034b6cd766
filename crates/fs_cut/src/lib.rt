//! Where runs of a machine are cut, and the paths between these points.
//!
//! Promises: points with their paths; each run is cut in exactly one way; runs go along paths; the texts of points and
//! paths.
//!
//! Rules: `specs/Paths`, `specs/Covers`, `specs/Cuts`, `specs/PathTexts`.
//!
//! Words:
//! - cover: the points of a machine, each with its paths
//! - cut: the one way to part a run into paths
//! - effect (of a path): what its steps make of a store, one after the other
//! - path: a branch of a point, and then states with one branch, up to the next point
//! - point: the start, a state other than the reset state with more than one branch, or the return to the reset state
#![tactic(auto)]

pub mod cover;
pub mod laws;
pub mod make_cover;
pub mod memory;
pub mod path_text;
pub mod points;
mod walk;

pub use fs_ast::machine;
