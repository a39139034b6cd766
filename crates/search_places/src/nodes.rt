//! Nodes by their points and by their numbers, in the order in which they are made.

ghost use Rattle.std.specs.Prelude.{◌≡◌, ◌<◌, Some, slice_get, IfOk, OnOk};
ghost use Rattle.fs_cut.specs.View.{point_of};
ghost use Rattle.indexmap.specs.IndexMap.{index_map_len};
ghost use Rattle.search_tables.specs.View.{table_in};
ghost use Rattle.search_places.specs.NodeRecords.{node_records, table_of};
ghost use Rattle.search_places.specs.NodeChanges.{StandsAt, PutsNode, SetsMoves, ListsArrival};
ghost use Rattle.search_places.specs.View.{node_record_in};

use crate::node_state::NodeState;
use fs_cut::cover::Point;
use indexmap::IndexMap;
use nf_terms::stop::NoMemory;
use search_tables::moves::Move;
use search_tables::nodes::SearchNode;
use search_tables::pairs::PointPair;
use search_waiting::item::Item;
use std::alloc::Global;
use sym_facts::fact::Fact;

/// A node with its points.
#[derive(Clone, Copy)]
pub struct NodeAt<'a> {
    pub points: PointPair,
    pub entry: &'a NodeState,
}

/// The number of a node that has got another fact or was made, and the items that arrived at it before.
#[derive(Drop)]
pub struct Made {
    pub number: usize,
    pub arrivals: Vec<Item>,
}

/// The number of the node at two points, if there is one.
pub fn find(nodes: &IndexMap<PointPair, NodeState>, left: Point, right: Point) -> Option<usize>
    ensures { StandsAt (node_records nodes.now.entries) (point_of left) (point_of right) result }
{
    nodes.get_index_of(&PointPair { left, right })
}

/// A node by its number.
pub fn node_at(nodes: &IndexMap<PointPair, NodeState>, number: usize) -> NodeAt<'_>
    requires { number < index_map_len nodes.now }
    ensures { slice_get (node_records nodes.now.entries) number ≡ Some (node_record_in result) }
{
    match nodes.get_index(number) {
        Some((points, entry)) => NodeAt {
            points: *points,
            entry,
        },
        None => unreachable!(),
    }
}

/// Gives the node at two points this fact. Its moves are not known then, and nothing arrives at it. Where there is no such node
/// it is put last. The one refusal is out of memory.
pub fn put(
    alloc: Global,
    nodes: &mut IndexMap<PointPair, NodeState>,
    left: Point,
    right: Point,
    fact: Fact,
) -> Result<Made, NoMemory>
    ensures { IfOk result
        (λ p. PutsNode (node_records nodes.old.entries) (node_records nodes.new.entries) (point_of left)
        (point_of right) fact p.number p.arrivals.items) }
{
    let fresh = NodeState {
        fact,
        moves: None,
        arrivals: Vec::new(alloc),
    };
    let (number, old) = nodes.insert_full(PointPair { left, right }, fresh)?;
    match old {
        Some(entry) => Ok(Made {
            number,
            arrivals: entry.arrivals,
        }),
        None => Ok(Made {
            number,
            arrivals: Vec::new(alloc),
        }),
    }
}

/// Notes the moves of the mode of a node.
pub fn set_moves(nodes: &mut IndexMap<PointPair, NodeState>, number: usize, moves: Vec<Move>)
    requires { number < index_map_len nodes.old }
    ensures { SetsMoves (node_records nodes.old.entries) (node_records nodes.new.entries) number moves.items }
{
    match nodes.get_index_mut(number) {
        Some(entry) => entry.moves = Some(moves),
        None => unreachable!(),
    }
}

/// Lists an item that arrives at a node. The one refusal is out of memory.
pub fn list_arrival(
    nodes: &mut IndexMap<PointPair, NodeState>,
    number: usize,
    item: Item,
) -> Result<(), NoMemory>
    requires { number < index_map_len nodes.old }
    ensures { OnOk result (ListsArrival (node_records nodes.old.entries) (node_records nodes.new.entries) number item) }
{
    match nodes.get_index_mut(number) {
        Some(entry) => {
            entry.arrivals.push(item)?;
            Ok(())
        }
        None => unreachable!(),
    }
}

/// The nodes alone, in order. The one refusal is out of memory.
pub fn table(
    alloc: Global,
    nodes: IndexMap<PointPair, NodeState>,
) -> Result<Vec<SearchNode>, NoMemory>
    ensures { IfOk result (λ out. table_in out.items ≡ table_of (node_records nodes.entries)) }
{
    let mut out = Vec::new(alloc);
    for (points, entry) in nodes {
        out.push(SearchNode {
            left: points.left,
            right: points.right,
            fact: entry.fact,
        })?;
    }
    Ok(out)
}
