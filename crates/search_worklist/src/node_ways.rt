//! The paths of a node, each executed over its fact once.

ghost use Rattle.std.specs.Prelude.{◌≡◌, ◌<◌, map, option_map, length, IfOk, OnOk};
ghost use Rattle.nf_terms.specs.Computed.{Answers};
ghost use Rattle.sym_entailment.specs.Outcomes.{way_in};
ghost use Rattle.search_worklist.specs.NodeWays.{way_by, refuted_by, AreWays, AreKept};
ghost use Rattle.search_worklist.specs.States.{records, table, IsMade};
ghost use Rattle.search_worklist.specs.View.{machines_in};

use crate::sides::{Sides, left_paths, right_paths};
use crate::state::State;
use nf_terms::stop::{NfStop, NoMemory};
use nf_terms::tree::Side;
use search_places::nodes::node_at;
use search_tables::moves::Move;
use std::alloc::Global;
use sym_entailment::outcomes::{Way, are_refuted, ways};
use sym_facts::fact::Fact;

// So many moves of a node are tried before its ways are kept: what these cost is then less than twice what was tried.
const FEW_MOVES: u32 = 32;

/// The ways of both sides at a node, in order of branches.
#[derive(Drop)]
pub(crate) struct NodeWays<'a> {
    pub(crate) node: u32,
    pub(crate) lefts: Vec<Way<'a>>,
    pub(crate) rights: Vec<Way<'a>>,
}

/// How many moves of both machines were tried at the node that was looked at last, and its ways, once these are many.
#[derive(Drop)]
pub(crate) struct Tried<'a> {
    pub(crate) node: u32,
    pub(crate) moves: u32,
    pub(crate) ways: Option<NodeWays<'a>>,
}

// The way of a branch, if there is one.
fn way_by<'w, 'a>(ways: &'w [Way<'a>], branch: Option<u32>) -> Option<&'w Way<'a>>
    ensures { option_map (λ w. way_in w.now) result ≡ way_by (map way_in ways.now) branch }
{
    match branch {
        Some(branch) => ways.get(branch as usize),
        None => None,
    }
}

// Whether what arrives by two ways is refuted; that of a side that stays is not known.
fn are_refuted_where_known(
    alloc: Global,
    fact: &Fact,
    left: Option<&Way<'_>>,
    right: Option<&Way<'_>>,
) -> Result<bool, NfStop>
    ensures { Answers result
        (refuted_by fact.now.literals (option_map (λ w. way_in w.now) left.entry) (option_map (λ w. way_in w.now) right.entry)) }
{
    match left {
        Some(left) => match right {
            Some(right) => are_refuted(alloc, fact, &left.outcome, &right.outcome),
            None => Ok(false),
        },
        None => Ok(false),
    }
}

/// Whether what arrives by a move is refuted, as far as the ways of its node tell.
pub(crate) fn refutes(
    alloc: Global,
    fact: &Fact,
    ways: &NodeWays<'_>,
    at: Move,
) -> Result<bool, NfStop>
    ensures { Answers result
        (refuted_by fact.now.literals (way_by (map way_in ways.now.lefts.items) at.left)
        (way_by (map way_in ways.now.rights.items) at.right)) }
{
    let left = way_by(ways.lefts.as_slice(), at.left);
    let right = way_by(ways.rights.as_slice(), at.right);
    are_refuted_where_known(alloc, fact, left, right)
}

// The ways of a node. The one refusal is out of memory.
fn ways_of<'a>(
    alloc: Global,
    m: &Sides<'a>,
    state: &State,
    node: u32,
) -> Result<NodeWays<'a>, NoMemory>
    requires node { node < length (records state.now) }
    requires made { IsMade (machines_in m.now) (table state.now) }
    ensures { IfOk result (AreWays (machines_in m.now) (table state.now)) }
{
    let from = node_at(&state.entries, node as usize);
    let v = from.entry.fact.vector(alloc)?;
    let left_paths = left_paths(m, from.points.left);
    let right_paths = right_paths(m, from.points.right);
    let lefts = ways(alloc, m.left, left_paths, Side::Left, &v)?;
    let rights = ways(alloc, m.right, right_paths, Side::Right, &v)?;
    Ok(NodeWays {
        node,
        lefts,
        rights,
    })
}

/// Counts a move that is tried next, and keeps the ways of its node where many moves of it were tried before. The one refusal is
/// out of memory.
pub(crate) fn count_move<'a>(
    alloc: Global,
    m: &Sides<'a>,
    state: &State,
    tried: &mut Tried<'a>,
    at: Move,
) -> Result<(), NoMemory>
    requires node { at.node < length (records state.now) }
    requires made { IsMade (machines_in m.now) (table state.now) }
    requires kept { AreKept (machines_in m.now) (table state.now) tried.old.ways }
    ensures { OnOk result (AreKept (machines_in m.now) (table state.now) tried.new.ways) }
{
    if tried.node != at.node {
        tried.node = at.node;
        tried.moves = 0;
        tried.ways = None;
    }
    tried.moves = tried.moves.saturating_add(1);
    if tried.moves == FEW_MOVES {
        tried.ways = Some(ways_of(alloc, m, state, at.node)?);
    }
    Ok(())
}
