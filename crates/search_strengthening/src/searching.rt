//! One search for a closed table.

use crate::steps::close;
use nf_terms::stop::NoMemory;
use search_strengthening_claims::visited::VisitedPoints;
use search_strengthening_tables::flags::Flags;
use search_strengthening_tables::nodes::ClaimedNode;
use search_strengthening_tables::sides::Sides;
use search_strengthening_tables::state::{Plan, State, begin, settled_part};
use search_strengthening_terms::stop::Stop;
use search_strengthening_terms::work::Work;
use std::alloc::Global;

// The most units of work of the searches of two machines, beside those of their points.
const WORK: u64 = 2_000_000;

// The units of work that each point of the machines adds.
const WORK_OF_POINT: u64 = 15_000;

// The most units of work of the searches of two machines.
const WORK_LIMIT: u64 = 10_000_000;

/// The most units of work of the searches of two machines.
pub fn work_of(sides: &Sides<'_>) -> u64 {
    let points = (sides.left.cover.points().len() as u64).saturating_add(
        sides.right.cover.points().len() as u64,
    );
    WORK_LIMIT.min(WORK.saturating_add(points.saturating_mul(WORK_OF_POINT)))
}

/// A closed table, with the ranks of its nodes.
#[derive(Drop)]
pub struct Closed {
    pub nodes: Vec<ClaimedNode>,
    pub ranks: Vec<u32>,
}

/// What a search found: a closed table, or else what it has kept of pairs of points, and the nodes of the components that it has
/// settled.
#[derive(Drop)]
pub enum Found {
    Closed(Closed),
    Open {
        flags: Vec<Flags>,
        settled: Vec<ClaimedNode>,
    },
}

// What a search found that could not close its table.
fn left_open(state: State) -> Found {
    let (settled, flags) = settled_part(state);
    Found::Open { flags, settled }
}

/// Searches for a closed table of two machines by these plans for its components, after visits; where what is
/// claimed at deleted nodes is remembered or not. It takes at most so much of the work that is left. The
/// one refusal is out of memory.
pub fn search_by_plans(
    alloc: Global,
    sides: &Sides<'_>,
    work: &mut Work,
    most: u64,
    plans: Vec<Plan>,
    visited: Vec<VisitedPoints>,
    remembers: bool,
) -> Result<Found, NoMemory> {
    let most = most.min(work.left());
    let mut state = begin(alloc, sides, Work::of(most), plans, visited, remembers)?;
    let ended = close(alloc, sides, &mut state);
    work.give(most.saturating_sub(state.work.left()));
    match ended {
        Ok(ranks) => {
            let State { nodes, .. } = state;
            Ok(Found::Closed(Closed { nodes, ranks }))
        }
        Err(Stop::Bound | Stop::Exhausted) => Ok(left_open(state)),
        Err(Stop::NoMemory) => Err(NoMemory),
    }
}
