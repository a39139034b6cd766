//! Literals in normal form.
//!
//! Promises: literals with exact bounds, negation, clash, implication, what refuted means, exact by direction; which
//! are in normal form, which are the same, their sizes.
//!
//! Rules: `specs/Literals`, `specs/Bounds`, `specs/NormalLiterals`.
//!
//! Words:
//! - clash: of two normal literals: they have one direction and no integer meets both, or one is False
//! - implied: of a literal by a list: it is True, or the list has a False, or each integer that meets the list's
//!   literals of its direction meets it
//! - literal (normal): a direction with a kind and a bound, or True or False
//! - refuted: of conditions: one is False, or no integer meets all of them that bound some direction
#![tactic(auto)]

pub mod clashes;
pub mod copies;
mod divisors;
mod intervals;
pub mod kind;
pub mod laws;
pub mod literals;
pub mod normal;
pub mod normalize;
pub mod primitive;
