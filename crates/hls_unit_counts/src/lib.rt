//! Files of unit counts: a JSON object from the kinds of units to how many there are of each.
//!
//! The kinds are `add`, `mul`, `div` and `mem`. A count is a JSON whole number from 0 to 1,000,000, which is
//! also the count of a kind that is not named.
//!
//! Promises: a file of unit counts, exactly.
//!
//! Rules: `specs/Counts`, `specs/Refusals`.
//!
//! Words:
//! - functional unit: what does one operation of a kind in a step: `add`, `mul`, `div` or `mem`
//! - unit count: how many functional units there are of a kind
#![tactic(auto)]

mod faults;
mod files;
mod units;

pub use faults::UnitError;
pub use files::read_units;
pub use units::{Unit, Units};
