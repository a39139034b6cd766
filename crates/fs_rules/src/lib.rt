//! The rules that the parts of a machine keep, what the parts declare, and the first broken rule.
//!
//! Promises: the first broken rule of parts, and the numbers of names.
//!
//! Rules: `specs/Rules`, `specs/MachineOfParts`.
//!
//! Words:
//! - fault (of parts): the first broken rule, with its line
//! - lawful (of parts): no rule is broken
//! - rank (of a rule): its place in the order of rules
#![tactic(auto)]

pub mod check;
pub mod checked;
pub mod faults;
pub mod names;
pub mod rules;
pub mod scope;
pub mod uncut_cycles;
