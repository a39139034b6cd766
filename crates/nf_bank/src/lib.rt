//! Interned atoms.
//!
//! Promises: atoms by number: two numbers are equal exactly where the atoms are; terms by the numbers of the atoms in
//! them.
//!
//! Rules: `specs/Atoms`, `specs/AtomNumbers`, `specs/AtomGraphs`.
//!
//! Words:
//! - bank: different atoms, each by one number
//! - closed (of a bank): with an atom the atoms in it are there
//! - node (of a bank): what is in an atom, by the numbers of the atoms in it
#![tactic(auto)]

pub mod bank;
pub mod items;
pub mod laws;
pub mod node;
pub mod numbering;
mod trees;
