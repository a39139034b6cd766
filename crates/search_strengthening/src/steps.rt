//! The steps of a search.

use crate::modes::see_mode;
use crate::moves::{Step, try_move};
use crate::ways::NodeWays;
use nf_terms::stop::NoMemory;
use search_strengthening_facts::outputs::{Written, outputs_differ};
use search_strengthening_tables::nodes::{ClaimedNode, Standing};
use search_strengthening_tables::ranks::ranks_of;
use search_strengthening_tables::sides::Sides;
use search_strengthening_tables::state::{State, take_overfull, try_next_plan};
use search_strengthening_terms::stop::Stop;
use search_tables::ranking::Ranking;
use std::alloc::Global;

// The most steps of a search.
const STEP_LIMIT: u32 = 16_777_216;

// The first move of a node that does not keep the table.
fn first_move(
    alloc: Global,
    sides: &Sides<'_>,
    state: &mut State,
    ways: &mut NodeWays,
    place: usize,
    count: usize,
) -> Result<Step, Stop> {
    for number in 0..count {
        match try_move(alloc, sides, state, ways, place, number)? {
            Step::Keeps => {}
            other => return Ok(other),
        }
    }
    Ok(Step::Keeps)
}

// How many moves the node at a place has, where its mode is known.
fn move_count(state: &State, place: usize) -> Option<usize> {
    let node = state.nodes.get(place)?;
    match node.mode {
        Some(_) => Some(node.moves.len()),
        None => None,
    }
}

// The first step at a node that does not keep the table.
fn step_at(
    alloc: Global,
    sides: &Sides<'_>,
    state: &mut State,
    ways: &mut NodeWays,
    place: usize,
) -> Result<Step, Stop> {
    if move_count(state, place).is_none() && see_mode(alloc, sides, state, place)? {
        return Ok(Step::Clears);
    }
    match move_count(state, place) {
        Some(count) => first_move(alloc, sides, state, ways, place, count),
        None => Ok(Step::Keeps),
    }
}

// Whether at a node an output that may not be written any more has another form than the right variable of its name.
fn differs_for_good(
    alloc: Global,
    sides: &Sides<'_>,
    node: &ClaimedNode,
) -> Result<bool, NoMemory> {
    let written = Written {
        left: sides.left.live.written_behind(node.left),
        right: sides.right.live.written_behind(node.right),
    };
    let (a, b) = (sides.left.machine, sides.right.machine);
    outputs_differ(alloc, a, b, &node.fact, written)
}

// Where the node at a place was reached from, at its first turn, if outputs differ there for good.
fn failing_component(
    alloc: Global,
    sides: &Sides<'_>,
    state: &State,
    place: usize,
) -> Result<Option<Standing>, NoMemory> {
    let Some(node) = state.nodes.get(place) else {
        return Ok(None);
    };
    if node.mode.is_none() && differs_for_good(alloc, sides, node)? {
        return Ok(Some(node.source));
    }
    Ok(None)
}

// Where the next step is looked for after a step at a place: what stands before a node that is added stays settled.
fn place_after(place: usize, step: Step) -> usize {
    match step {
        Step::Adds { place: added } => place.min(added),
        Step::Weakens { .. } | Step::Clears => 0,
        Step::Keeps => place.saturating_add(1),
    }
}

// Makes the first step at a node that stands there, and answers where the next one is looked for. Where its component, or the one
// in which too much was changed, can't go on, it is cleared, and the next plan tried there.
fn make_step_at(
    alloc: Global,
    sides: &Sides<'_>,
    state: &mut State,
    ways: &mut NodeWays,
    place: usize,
    standing: Standing,
) -> Result<usize, Stop> {
    match step_at(alloc, sides, state, ways, place) {
        Ok(step) => Ok(place_after(place, step)),
        Err(Stop::Bound) => {
            let failing = take_overfull(state).unwrap_or(standing);
            try_next_plan(state, failing)?;
            Ok(0)
        }
        Err(stop) => Err(stop),
    }
}

// Makes the first step at a node. At its first turn all before it is settled: where outputs differ there for good, the component
// from which it was reached is cleared, and the next plan tried there.
fn make_step(
    alloc: Global,
    sides: &Sides<'_>,
    state: &mut State,
    ways: &mut NodeWays,
    place: usize,
) -> Result<usize, Stop> {
    if let Some(failing) = failing_component(alloc, sides, state, place)? {
        try_next_plan(state, failing)?;
        return Ok(0);
    }
    match state.nodes.get(place) {
        Some(node) => {
            let standing = node.standing;
            make_step_at(alloc, sides, state, ways, place, standing)
        }
        None => Ok(place),
    }
}

// Makes steps until none changes the table. `Bound` comes where a component can't go on by any plan, `Exhausted` where the work
// is used up.
fn make_steps(alloc: Global, sides: &Sides<'_>, state: &mut State) -> Result<(), Stop> {
    let mut ways = NodeWays::new(alloc);
    let mut place = 0;
    for _ in 0..STEP_LIMIT {
        if place >= state.nodes.len() {
            return Ok(());
        }
        place = make_step(alloc, sides, state, &mut ways, place)?;
    }
    Err(Stop::Bound)
}

// Tries the next plan in the component of the first node of a cycle. `Bound` comes where there is none.
fn leave_cycle(state: &mut State, cycle: &[u32]) -> Result<(), Stop> {
    let Some(first) = cycle.first() else {
        return Err(Stop::Bound);
    };
    let Some(node) = state.nodes.get(*first as usize) else {
        return Err(Stop::Bound);
    };
    let standing = node.standing;
    try_next_plan(state, standing)
}

/// Makes steps until none changes the table and no machine moves alone in a cycle, and answers the ranks of the nodes. `Bound`
/// comes where a component can't go on by any plan, `Exhausted` where the work is used up.
pub fn close(alloc: Global, sides: &Sides<'_>, state: &mut State) -> Result<Vec<u32>, Stop> {
    for _ in 0..STEP_LIMIT {
        make_steps(alloc, sides, state)?;
        match ranks_of(alloc, state.nodes.as_slice())? {
            Some(Ranking::Ranks(ranks)) => return Ok(ranks),
            Some(Ranking::Cycle(cycle)) => leave_cycle(state, cycle.as_slice())?,
            None => return Err(Stop::Bound),
        }
    }
    Err(Stop::Bound)
}
