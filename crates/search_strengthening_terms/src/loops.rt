//! In how many loops each state of a machine stands.

use crate::order::{PointOrder, order_places, place_of};
use fs_ast::machine::Machine;
use fs_cut::cover::Point;
use fs_model::parts::{Branch, StateId};
use nf_terms::stop::NoMemory;
use std::alloc::Global;

// The places to which branches lead; a run ends at the reset state.
fn ends_of(alloc: Global, machine: &Machine, branches: &[Branch]) -> Result<Vec<usize>, NoMemory> {
    let mut ends = Vec::new(alloc);
    for branch in branches {
        if branch.target.0 != machine.reset().0 {
            ends.push(place_of(Point::At(branch.target)))?;
        }
    }
    Ok(ends)
}

// For each place the places to which the branches of its state lead.
fn edges_of(alloc: Global, machine: &Machine) -> Result<Vec<Vec<usize>>, NoMemory> {
    let mut edges = Vec::new(alloc);
    for _ in 0..place_of(Point::At(StateId(0))) {
        edges.push(Vec::new(alloc))?;
    }
    for state in 0..machine.state_count() {
        edges.push(ends_of(alloc, machine, machine.branches(StateId(state)))?)?;
    }
    Ok(edges)
}

// The places of all states of a machine.
fn places_of(alloc: Global, machine: &Machine) -> Result<Vec<usize>, NoMemory> {
    let mut places = Vec::new(alloc);
    for state in 0..machine.state_count() {
        places.push(place_of(Point::At(StateId(state))))?;
    }
    Ok(places)
}

/// All states of a machine in order, those between cutpoints too, so that it tells in how many loops each stands. The one refusal
/// is out of memory.
pub fn order_states(alloc: Global, machine: &Machine) -> Result<PointOrder, NoMemory> {
    let all = places_of(alloc, machine)?;
    let edges = edges_of(alloc, machine)?;
    order_places(alloc, all.as_slice(), edges.as_slice())
}
