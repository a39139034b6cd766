//! The outside of the program: files and sinks by trait, in memory, and on the system.
//!
//! Promises: what is held, put and written, and when a fault may come.
//!
//! Rules: `specs/Outside`, `specs/Writers`.
//!
//! Words:
//! - fault (of files, of a sink): a failure that a count records
//! - held (of a name): what is told of it: nothing known, no file, or a file of these bytes
//! - loaded (of a name): `load` was called with it, whatever that gave
//! - told (of files, of a sink): what names hold and which were loaded, or what a sink got and its room, and the counts of faults
#![tactic(auto)]

pub mod disk;
pub mod memory;
pub mod outside;
pub mod put_all;
pub mod recorded;
pub mod sinks;
pub mod writers;
