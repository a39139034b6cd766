//! Equations that a propagated fact gets, and the conditions that it keeps, over new meanings of symbols.
//!
//! Promises: ties, values over held symbols, solutions for a symbol, and the conditions that are kept, exactly, or the
//! first event.
//!
//! Rules: `specs/Ties`, `specs/Equations`.
//!
//! Words:
//! - held (of a symbol): a new meaning stands for it
//! - tie: an equation of one freed position by another
#![tactic(auto)]

pub mod bare_symbols;
pub mod conditions;
pub mod equations;
pub mod held_symbols;
pub mod solutions;
pub mod splits;
pub mod ties;
pub mod values;
