//! The first stated candidate that shows a difference of two machines.

use crate::machines::reading::machine;
use fs_ast::machine::Machine;
use fs_pair::positions::same_interface;
use fs_trials::differences::{Found, first_difference};
use std::alloc::Global;

/// The first stated candidate that shows a difference within 1,000 steps. Nothing at all where the interfaces are not the same,
/// or there is no memory.
pub fn first_found(alloc: Global, left: &Machine, right: &Machine) -> Option<Option<Found>> {
    let pairing = same_interface(alloc, left, right).ok()?;
    first_difference(alloc, left, right, &pairing, 1_000).ok()
}

/// The same of two texts' machines.
pub fn first_of_texts(alloc: Global, left: &str, right: &str) -> Option<Option<Found>> {
    let left = machine(alloc, left).ok()?;
    let right = machine(alloc, right).ok()?;
    first_found(alloc, &left, &right)
}
