//! What each command answers, from what was read of its files.
//!
//! Promises: what each command answers to bytes and machines.
//!
//! Rules: `specs/MachineFiles`, `specs/Readings`, `specs/Unread`, `specs/Refusals`, `specs/JsonKeys`, `specs/Shrinks`,
//! `specs/Links`, `specs/Follows`.
//!
//! Words:
//! - content (of a file): what was read of it: its bytes, or it could not be read
//! - link (of a chain): the next machine, and a certificate of the last one and it
//! - reading (of files): the content of each file of a call that was opened, in the order of work
#![tactic(auto)]

pub mod bindings;
pub mod compare;
pub mod generated;
pub mod links;
pub mod pair;
pub mod programs;
pub mod reading;
pub mod refused;
pub mod runs;
pub mod schedules;
pub mod shrinks;

pub use fsmd_pair_answers::judge;
