//! What holds at the first visits of pairs of points, along runs of both machines over symbols.
//!
//! Promises: `visit_points`: calls are safe and end, and no more is promised.
#![tactic(auto)]

pub mod visits;
