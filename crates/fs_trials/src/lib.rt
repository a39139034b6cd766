//! Candidate inputs of two machines, and the first that shows a difference.
//!
//! Promises: the pool, the candidates, and the least stated candidate that shows a difference, or that none does.
//!
//! Rules: `specs/Pool`, `specs/Candidates`, `specs/Differences`.
//!
//! Words:
//! - candidate: inputs that are tried for a difference
//! - candidate, further: one of 256 that come after those of the pool
//! - candidate, signed: one of the last 64 further ones; with pool numbers of both signs, and entries below index 0
//! - candidate, stated: one of a pool, or a further one; counted from 0
//! - pool: the values that candidates are made of
#![tactic(auto)]

pub mod candidates;
pub mod differences;
pub mod pool;
