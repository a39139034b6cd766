//! A machine whose basic blocks are scheduled: they are traced, in time linear in the branches, filled by `hls_block_filling`,
//! and put in rows.
//!
//! Promises: `schedule`: the scheduled parts and their machine, which behaves as before and is within the units, with a
//! report of each basic block; or the first state and unit of which too much is used. `count_arrivals`, `firsts`,
//! `trace_block`: exactly the basic blocks of the definition.
//!
//! Rules: `specs/Arrivals`, `specs/Reports`, `specs/TracedBlocks`, `specs/RowMoves`.
#![tactic(auto)]

pub mod arrivals;
pub mod blocks;
pub mod copies;
mod moves;
mod parts;
mod plans;
pub mod scheduling;

pub use hls_unit_counts::{Unit, UnitError, Units, read_units};
pub use scheduling::{LineReport, SchedError, Scheduled, schedule};
