//! Turns of a search, each at the least item that waits.

ghost use Rattle.std.specs.Prelude.{◌≡◌, ◌<◌, ◌≢◌, true, None, length, IfNone, IfSome, IfOk, OnOk};
ghost use Rattle.search_tables.specs.Next.{path_at as one_path};
ghost use Rattle.search_waiting.specs.ItemOrder.{item as plain_item};
ghost use Rattle.search_waiting.specs.ItemOrder.{waits, IsLeastWaiting};
ghost use Rattle.search_worklist.specs.NodeWays.{AreKept};
ghost use Rattle.search_worklist.specs.States.{records, table, IsReady, IsMade};
ghost use Rattle.search_worklist.specs.Turns.{IsNext, IsTurned, IsObstacleAt, ModeFound, IsMoveAt, NoMoveAt};
ghost use Rattle.search_worklist.specs.View.{machines_in};

use crate::node_ways::{Tried, count_move};
use crate::sides::{Sides, left_paths, right_paths};
use crate::state::State;
use crate::trial::{TableChange, Trial};
use crate::trials::try_kept;
use cert_bisimulation::mode::Mode;
use nf_terms::stop::{NfStop, NoMemory};
use nf_terms::tree::Side;
use propagate::modes::mode;
use search_places::moves::moves;
use search_places::nodes::{list_arrival, node_at, set_moves};
use search_tables::moves::Move;
use search_tables::outcome::Obstacle;
use search_waiting::item::Item;
use search_waiting::waiting::{add_moves, least, remove};
use std::alloc::Global;

/// What is next in a table.
#[derive(Drop)]
pub enum Step {
    /// No move makes a difference, and no outputs differ.
    Closed,
    /// An obstacle.
    Stops(Obstacle),
    /// This move makes this change.
    Changes { at: Move, change: TableChange },
}

// The obstacle of an event. The one refusal is out of memory, where that is what stopped.
fn obstacle_at(at: Move, stop: NfStop) -> Result<Obstacle, NoMemory>
    ensures { IfOk result (IsObstacleAt at stop) }
{
    match stop {
        NfStop::Wide { .. } => Ok(Obstacle::Wide { at }),
        NfStop::Large { .. } => Ok(Obstacle::Large { at }),
        NfStop::NoMemory => Err(NoMemory),
    }
}

// The one path at which a mode meets an event.
fn path_at(node: u32, side: Side, branch: u32) -> Move
    ensures { result ≡ one_path node side branch }
{
    match side {
        Side::Left => Move {
            node,
            left: Some(branch),
            right: None,
        },
        Side::Right => Move {
            node,
            left: None,
            right: Some(branch),
        },
    }
}

// The moves of a node whose mode is found wait in its place.
fn list_moves(
    alloc: Global,
    m: &Sides<'_>,
    state: &mut State,
    node: u32,
    mode: Mode,
) -> Result<(), NoMemory>
    requires ready { IsReady (machines_in m.now) state.old }
    requires made { IsMade (machines_in m.now) (table state.old) }
    requires waits { waits state.old.waiting (plain_item node 0) ≡ true }
    requires found { ModeFound (machines_in m.now) (records state.old) node mode }
    ensures { OnOk result (IsTurned (machines_in m.now) state.old state.new None) }
{
    let points = node_at(&state.entries, node as usize).points;
    let lefts = left_paths(m, points.left);
    let rights = right_paths(m, points.right);
    let moves = moves(alloc, node, lefts, rights, mode)?;
    add_moves(&mut state.waiting, node, moves.len() as u32)?;
    remove(&mut state.waiting, Item { node, place: 0 });
    set_moves(&mut state.entries, node as usize, moves);
    Ok(())
}

// A turn at a node whose mode is not found.
fn find_mode(
    alloc: Global,
    m: &Sides<'_>,
    state: &mut State,
    node: u32,
) -> Result<Option<Step>, NoMemory>
    requires ready { IsReady (machines_in m.now) state.old }
    requires made { IsMade (machines_in m.now) (table state.old) }
    requires least { IsLeastWaiting (waits state.old.waiting) node 0 }
    requires waits { waits state.old.waiting (plain_item node 0) ≡ true }
    ensures { IfOk result (IsTurned (machines_in m.now) state.old state.new) }
{
    let from = node_at(&state.entries, node as usize);
    match mode(
        alloc,
        m.left,
        m.right,
        m.left_cover,
        m.right_cover,
        &from.entry.fact,
        from.points.left,
        from.points.right,
    ) {
        Ok(mode) => {
            list_moves(alloc, m, state, node, mode)?;
            Ok(None)
        }
        Err(s) => Ok(Some(Step::Stops(obstacle_at(path_at(node, s.side, s.branch), s.stop)?))),
    }
}

// The move of an item, if its node's mode is found and has it.
fn move_of(state: &State, item: Item) -> Option<Move>
    requires node { item.node < length (records state.now) }
    requires place { item.place ≢ 0 }
    ensures none { IfNone result (NoMoveAt (records state.now) item) }
    ensures some { IfSome result (IsMoveAt (records state.now) item) }
{
    match &node_at(&state.entries, item.node as usize).entry.moves {
        Some(moves) => moves.get(item.place as usize - 1).copied(),
        None => None,
    }
}

// Counts a move that is tried next, where both machines move.
fn see_move<'a>(
    alloc: Global,
    m: &Sides<'a>,
    state: &State,
    tried: &mut Tried<'a>,
    at: Move,
) -> Result<(), NoMemory>
    requires node { at.node < length (records state.now) }
    requires made { IsMade (machines_in m.now) (table state.now) }
    requires kept { AreKept (machines_in m.now) (table state.now) tried.old.ways }
    ensures { OnOk result (AreKept (machines_in m.now) (table state.now) tried.new.ways) }
{
    if at.left.is_some() && at.right.is_some() {
        count_move(alloc, m, state, tried, at)?;
    }
    Ok(())
}

// A turn at a move.
fn try_item<'a>(
    alloc: Global,
    m: &Sides<'a>,
    state: &mut State,
    tried: &mut Tried<'a>,
    item: Item,
) -> Result<Option<Step>, NoMemory>
    requires ready { IsReady (machines_in m.now) state.old }
    requires made { IsMade (machines_in m.now) (table state.old) }
    requires least { IsLeastWaiting (waits state.old.waiting) item.node item.place }
    requires waits { waits state.old.waiting item ≡ true }
    requires place { item.place ≢ 0 }
    requires kept { AreKept (machines_in m.now) (table state.old) tried.old.ways }
    ensures turned { IfOk result (IsTurned (machines_in m.now) state.old state.new) }
    ensures kept { OnOk result (AreKept (machines_in m.now) (table state.old) tried.new.ways) }
{
    let at = match move_of(state, item) {
        Some(at) => at,
        None => {
            remove(&mut state.waiting, item);
            return Ok(None);
        }
    };
    see_move(alloc, m, state, tried, at)?;
    match try_kept(alloc, m, state, &tried.ways, at) {
        Ok(Trial::Refuted) => {
            remove(&mut state.waiting, item);
            Ok(None)
        }
        Ok(Trial::Entailed { target }) => {
            list_arrival(&mut state.entries, target, item)?;
            remove(&mut state.waiting, item);
            Ok(None)
        }
        Ok(Trial::Changes(change)) => Ok(Some(Step::Changes { at, change })),
        Ok(Trial::Exceeds(what)) => Ok(Some(Step::Stops(Obstacle::Exhausted { at, what }))),
        Err(stop) => Ok(Some(Step::Stops(obstacle_at(at, stop)?))),
    }
}

// A turn at the least item.
fn turn<'a>(
    alloc: Global,
    m: &Sides<'a>,
    state: &mut State,
    tried: &mut Tried<'a>,
    item: Item,
) -> Result<Option<Step>, NoMemory>
    requires ready { IsReady (machines_in m.now) state.old }
    requires made { IsMade (machines_in m.now) (table state.old) }
    requires least { IsLeastWaiting (waits state.old.waiting) item.node item.place }
    requires waits { waits state.old.waiting item ≡ true }
    requires kept { AreKept (machines_in m.now) (table state.old) tried.old.ways }
    ensures turned { IfOk result (IsTurned (machines_in m.now) state.old state.new) }
    ensures kept { OnOk result (AreKept (machines_in m.now) (table state.old) tried.new.ways) }
{
    if item.place == 0 {
        find_mode(alloc, m, state, item.node)
    } else {
        try_item(alloc, m, state, tried, item)
    }
}

/// What is next in a table in which no outputs differ. The one refusal is out of memory.
pub fn next(alloc: Global, m: &Sides<'_>, state: &mut State) -> Result<Step, NoMemory>
    requires ready { IsReady (machines_in m.now) state.old }
    requires made { IsMade (machines_in m.now) (table state.old) }
    ensures ready { OnOk result (IsReady (machines_in m.now) state.new) }
    ensures same { OnOk result (table state.new ≡ table state.old) }
    ensures next { IfOk result (IsNext (machines_in m.now) (table state.old)) }
{
    let mut tried = Tried {
        node: 0,
        moves: 0,
        ways: None,
    };
    'turns: loop {
        match least(&state.waiting) {
            Some(item) => {
                if let Some(step) = turn(alloc, m, state, &mut tried, item)? {
                    return Ok(step);
                }
            }
            None => return Ok(Step::Closed),
        }
    }
}
