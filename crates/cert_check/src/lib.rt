//! The checker of certificates: the obligations of a certificate in order, up to the first that does not hold.
//!
//! Promises: `verify` tells the verdict on a lawful certificate's obligations exactly, and `Yes` shows the same
//! behaviour.
//!
//! Rules: `specs/Progress`, `specs/View`.
#![tactic(auto)]

mod lookup;
mod make_table;
mod moves;
mod node_index;
mod outputs;
mod progress;
mod table;
pub mod verdict;
pub mod verify;
