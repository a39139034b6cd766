//! Moves, tried.

use crate::ways::{NodeWays, post_by_ways};
use fs_cut::cover::{Path, Point};
use nf_refutation::refutation::is_refuted;
use search_strengthening_facts::facts::fact_of;
use search_strengthening_facts::first_facts::{FirstFact, first_fact};
use search_strengthening_facts::weeding::weed;
use search_strengthening_tables::cases::{Arrival, CaseMove};
use search_strengthening_tables::nodes::{ClaimedNode, NodeMove, Settled, Standing, find};
use search_strengthening_tables::sides::{Covered, Sides};
use search_strengthening_tables::state::{State, add, change_fact, known_claims, plan_at, stands};
use search_strengthening_tables::told::Live;
use search_strengthening_terms::stop::{Stop, within_limits};
use search_strengthening_terms::work::Work;
use std::alloc::Global;
use sym_entailment::arrival::arrive;
use sym_entailment::entailment::entails;
use sym_paths::execution::Post;

// The units of work of a state on a path.
const STATE_UNITS: u64 = 32;

// So many moves of a node are tried each by its own paths.
const FEW_MOVES: usize = 4;

// A move that is tried: the place and the standing of its node, its number there, its points and paths, and the points at which
// it arrives.
#[derive(Clone, Copy)]
struct Tried {
    place: usize,
    number: usize,
    source: Standing,
    by: CaseMove,
    left: Point,
    right: Point,
}

/// What a step does.
#[derive(Clone, Copy)]
pub enum Step {
    /// It keeps the table.
    Keeps,
    /// It adds the node at this place.
    Adds { place: usize },
    /// It weakens the node at this place.
    Weakens { place: usize },
    /// It clears a part of the table.
    Clears,
}

// A path of a point by its number.
fn path_by<'c>(machine: &'c Covered<'_>, point: Point, number: Option<usize>) -> Option<&'c Path> {
    machine.cover.from(point).get(number?)
}

// The point to which a side comes.
fn end_of(from: Point, path: Option<&Path>) -> Point {
    match path {
        Some(path) => path.to,
        None => from,
    }
}

// Whether a move is settled: its arrival is refuted, or entailed a fact that is still in the table.
fn is_settled(state: &State, tried: NodeMove) -> bool {
    match tried.settled {
        Settled::Open => false,
        Settled::Refuted => true,
        Settled::Held { version } => stands(state, version),
    }
}

// Notes what is known of a move.
fn settle(nodes: &mut [ClaimedNode], tried: Tried, settled: Settled) {
    if let Some(node) = nodes.get_mut(tried.place) {
        if let Some(open) = node.moves.get_mut(tried.number) {
            open.settled = settled;
        }
    }
}

// The units of work of a path: those of so many states.
fn units_of_path(path: Option<&Path>) -> u64 {
    match path {
        Some(path) => (path.states.len() as u64).saturating_mul(STATE_UNITS),
        None => 0,
    }
}

// The units of work of a move of a node by these paths.
fn units_of_move(node: &ClaimedNode, left: Option<&Path>, right: Option<&Path>) -> u64 {
    node.units
        .saturating_add(units_of_path(left))
        .saturating_add(units_of_path(right))
}

// What arrives from a node by these paths, each executed for this move alone, unless it is refuted. `Bound` comes where an
// operation meets a limit.
fn post_by_paths(
    alloc: Global,
    sides: &Sides<'_>,
    node: &ClaimedNode,
    left: Option<&Path>,
    right: Option<&Path>,
) -> Result<Option<Post>, Stop> {
    let (a, b) = (sides.left.machine, sides.right.machine);
    let post = within_limits(arrive(alloc, a, b, &node.fact, left, right))?;
    if is_refuted(alloc, post.conds.as_slice())? {
        Ok(None)
    } else {
        Ok(Some(post))
    }
}

// What arrives from a node by these paths, unless it is refuted. `Bound` comes where an operation meets a limit.
fn post_by(
    alloc: Global,
    sides: &Sides<'_>,
    work: &mut Work,
    ways: &mut NodeWays,
    node: &ClaimedNode,
    left: Option<&Path>,
    right: Option<&Path>,
) -> Result<Option<Post>, Stop> {
    work.spend(units_of_move(node, left, right))?;
    match (left, right) {
        (Some(left), Some(right)) if node.moves.len() > FEW_MOVES => {
            post_by_ways(alloc, sides, ways, node, left, right)
        }
        _ => post_by_paths(alloc, sides, node, left, right),
    }
}

// Adds the node of a case at which a post arrives first.
fn add_target(
    alloc: Global,
    sides: &Sides<'_>,
    state: &mut State,
    post: &Post,
    tried: Tried,
    case: usize,
) -> Result<Step, Stop> {
    let Tried {
        left,
        right,
        source,
        ..
    } = tried;
    let live = sides.live_positions(alloc, left, right)?;
    let (remembered, visited) = (state.remembered.as_slice(), state.visited.as_slice());
    let known = known_claims(remembered, visited, left, right, case);
    let FirstFact { claims, fact } = first_fact(
        alloc,
        &mut state.work,
        &sides.universe,
        &live,
        sides.pairing,
        post,
        known,
    )?;
    let place = add(
        alloc,
        sides,
        state,
        (left, right),
        case,
        source,
        claims,
        fact,
    )?;
    Ok(Step::Adds { place })
}

// Weakens the node at a place so that a post entails its fact. `Bound` comes where the post leaves the claims as they are,
// though it does not entail the fact that was made of them.
fn weaken(
    alloc: Global,
    sides: &Sides<'_>,
    state: &mut State,
    post: &Post,
    source: Standing,
    place: usize,
) -> Result<Step, Stop> {
    let Some(node) = state.nodes.get_mut(place) else {
        return Ok(Step::Keeps);
    };
    let work = &mut state.work;
    let (universe, p) = (&sides.universe, sides.pairing);
    let count = p.positions().len();
    if !weed(alloc, work, universe, count, &mut node.claims, post)? {
        return Err(Stop::Bound);
    }
    let fact = fact_of(alloc, work, universe, p, &node.claims)?;
    change_fact(state, place, source, fact)?;
    Ok(Step::Weakens { place })
}

// Whether a post entails the fact of a node. `Bound` comes where an operation meets a limit.
fn is_entailed(
    alloc: Global,
    work: &mut Work,
    post: &Post,
    node: &ClaimedNode,
) -> Result<bool, Stop> {
    work.spend(node.units)?;
    let missing = within_limits(entails(alloc, post, &node.fact))?;
    Ok(missing.equations.is_empty() && missing.conds.is_empty())
}

// The case of a post: where both machines are done there is one.
fn case_of(
    alloc: Global,
    sides: &Sides<'_>,
    state: &mut State,
    post: &Post,
    tried: Tried,
) -> Result<usize, Stop> {
    let kind = plan_at(state, sides.standing(tried.left, tried.right, 0)).kind;
    if kind.is_none() || (tried.left.is_done() && tried.right.is_done()) {
        return Ok(0);
    }
    let arrival = Arrival {
        kind,
        live: Live {
            left: sides.left.live.at(tried.left),
            right: sides.right.live.at(tried.right),
        },
        source: tried.source.case,
        by: tried.by,
    };
    let (cases, work) = (&mut state.cases, &mut state.work);
    cases.case_after(alloc, work, &sides.told, arrival, post)
}

// What a move does whose post is not refuted.
fn meet(
    alloc: Global,
    sides: &Sides<'_>,
    state: &mut State,
    post: &Post,
    tried: Tried,
) -> Result<Step, Stop> {
    let case = case_of(alloc, sides, state, post, tried)?;
    let Some(target) = find(state.nodes.as_slice(), tried.left, tried.right, case) else {
        return add_target(alloc, sides, state, post, tried, case);
    };
    let Some(node) = state.nodes.get(target) else {
        return Ok(Step::Keeps);
    };
    let version = node.version;
    if !is_entailed(alloc, &mut state.work, post, node)? {
        return weaken(alloc, sides, state, post, tried.source, target);
    }
    settle(&mut state.nodes, tried, Settled::Held { version });
    Ok(Step::Keeps)
}

// What a move does by which a post arrives at two points, or none does, since it is refuted.
fn try_post(
    alloc: Global,
    sides: &Sides<'_>,
    state: &mut State,
    post: Option<&Post>,
    tried: Tried,
) -> Result<Step, Stop> {
    match post {
        Some(post) => meet(alloc, sides, state, post, tried),
        None => {
            settle(&mut state.nodes, tried, Settled::Refuted);
            Ok(Step::Keeps)
        }
    }
}

// A move of the node at a place, unless it is settled.
fn unsettled_move(state: &State, place: usize, number: usize) -> Option<NodeMove> {
    let open = *state.nodes.get(place)?.moves.get(number)?;
    if is_settled(state, open) {
        None
    } else {
        Some(open)
    }
}

/// Tries a move of the node at a place, unless it is settled.
pub fn try_move(
    alloc: Global,
    sides: &Sides<'_>,
    state: &mut State,
    ways: &mut NodeWays,
    place: usize,
    number: usize,
) -> Result<Step, Stop> {
    state.work.spend(1)?;
    let Some(open) = unsettled_move(state, place, number) else {
        return Ok(Step::Keeps);
    };
    let Some(node) = state.nodes.get(place) else {
        return Ok(Step::Keeps);
    };
    let left = path_by(&sides.left, node.left, open.left);
    let right = path_by(&sides.right, node.right, open.right);
    let tried = Tried {
        place,
        number,
        source: node.standing,
        by: CaseMove {
            left: node.left,
            right: node.right,
            left_path: open.left,
            right_path: open.right,
        },
        left: end_of(node.left, left),
        right: end_of(node.right, right),
    };
    match post_by(alloc, sides, &mut state.work, ways, node, left, right) {
        Ok(post) => try_post(alloc, sides, state, post.as_ref(), tried),
        Err(stop) => Err(stop),
    }
}
