//! The ranks of nodes.

ghost use Rattle.std.specs.Prelude.{◌≡◌, nat_lt, IsTrue};
ghost use Rattle.std.specs.List.{list_all};
ghost use Rattle.search_tables.specs.Walks.{lists_in, InRange};
ghost use Rattle.search_strengthening_tables.specs.Edges.{are_edges};

use crate::nodes::{ClaimedNode, Settled, find_version};
use cert_bisimulation::mode::Mode;
use nf_terms::stop::NoMemory;
use search_tables::ranking::Ranking;
use search_tables::walk::rank_all;
use std::alloc::Global;

// Whether one machine moves alone in a mode.
fn is_alone(mode: Option<Mode>) -> bool {
    matches!(mode, Some(Mode::Left | Mode::Right))
}

// The place of the node that a move reaches, where it has the mode of this node, in which one machine moves alone.
fn lone_target(nodes: &[ClaimedNode], node: &ClaimedNode, settled: Settled) -> Option<u32> {
    let Settled::Held { version } = settled else {
        return None;
    };
    let place = find_version(nodes, version)?;
    let target = nodes.get(place)?;
    if is_alone(node.mode) && target.mode == node.mode {
        u32::try_from(place).ok()
    } else {
        None
    }
}

// The places of the nodes that a node reaches by moves of one machine alone, which moves alone there too.
fn lone_targets(
    alloc: Global,
    nodes: &[ClaimedNode],
    node: &ClaimedNode,
) -> Result<Vec<u32>, NoMemory> {
    let mut out = Vec::new(alloc);
    for tried in &node.moves {
        if let Some(target) = lone_target(nodes, node, tried.settled) {
            out.push(target)?;
        }
    }
    Ok(out)
}

// For each node the places of those that it reaches by moves of one machine alone, which moves alone there too.
fn lone_moves(alloc: Global, nodes: &[ClaimedNode]) -> Result<Vec<Vec<u32>>, NoMemory> {
    let mut out = Vec::new(alloc);
    for node in nodes {
        out.push(lone_targets(alloc, nodes, node)?)?;
    }
    Ok(out)
}

// Whether all targets are below a number.
fn are_below(targets: &[u32], count: usize) -> bool
    ensures { result ≡ list_all (λ t. nat_lt t count) targets.now }
{
    for target in targets {
        if *target as usize >= count {
            return false;
        }
    }
    true
}

// Whether nodes have at most 4,096 targets each, which are below a number.
fn are_edges(edges: &[Vec<u32>], count: usize) -> bool
    ensures { result ≡ are_edges count (lists_in edges.now) }
{
    for targets in edges {
        if targets.len() > 4096 || !are_below(targets.as_slice(), count) {
            return false;
        }
    }
    true
}

// Whether a graph has at most 4,096 nodes, each with at most 4,096 targets, which are its nodes.
#[tactic(auto, using(crate::proofs::Ranges::in_range))]
fn is_in_range(edges: &[Vec<u32>]) -> bool
    ensures { IsTrue result → InRange (lists_in edges.now) }
{
    edges.len() <= 4096 && are_edges(edges, edges.len())
}

/// The lengths of the longest chains of moves of one machine alone, or a cycle of them; none where there are more than 4,096
/// nodes. The one refusal is out of memory.
pub fn ranks_of(alloc: Global, nodes: &[ClaimedNode]) -> Result<Option<Ranking>, NoMemory> {
    let edges = lone_moves(alloc, nodes)?;
    if !is_in_range(edges.as_slice()) {
        return Ok(None);
    }
    match rank_all(alloc, edges.as_slice()) {
        Ok(ranking) => Ok(Some(ranking)),
        Err(_) => Err(NoMemory),
    }
}
