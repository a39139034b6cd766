//! Nodes found by their points.

ghost use Rattle.std.specs.Prelude.{◌≡◌, ◌++◌, ◌∷◌, [], map, IfOk, OnOk};
ghost use Rattle.std.specs.Option.{option_map_or};
ghost use Rattle.fs_cut.specs.Paths.{Point as PlainPoint};
ghost use Rattle.fs_cut.specs.View.{point_of};
ghost use Rattle.cert_model.specs.Obligations.{nodes_at};
ghost use Rattle.cert_model.specs.View.{node_of};
ghost use Rattle.cert_check.specs.Listing.{listed_at, referred};
ghost use Rattle.cert_check.specs.View.{index_nodes};

use crate::node_index::NodeIndex;
use cert_model::cert::Node;
use cert_model::keys::key_of;
use fs_cut::cover::Point;
use indexmap::IndexMap;
use nf_terms::stop::NoMemory;
use std::alloc::Global;

/// The nodes at two points, in order, where there are any.
pub fn nodes_at<'i, 'a>(
    index: &'i NodeIndex<'a>,
    left: Point,
    right: Point,
) -> Option<&'i Vec<&'a Node>>
    ensures { option_map_or (λ ns. referred ns.now) result []
        ≡ nodes_at (index_nodes index.now) (point_of left) (point_of right) }
{
    index.by_points.get(&key_of(left, right))
}

// Puts a node behind those that stand at its points. The one refusal is out of memory.
fn put<'a>(
    alloc: Global,
    by_points: &mut IndexMap<(u64, u64), Vec<&'a Node>>,
    node: &'a Node,
) -> Result<(), NoMemory>
    ensures { OnOk result
        ((P Q : PlainPoint) → listed_at by_points.new.entries P Q
        ≡ listed_at by_points.old.entries P Q
        ++ nodes_at (node_of node.now ∷ []) P Q) }
{
    let key = key_of(node.left, node.right);
    let mut nodes = match by_points.swap_remove(&key) {
        Some(nodes) => nodes,
        None => Vec::new(alloc),
    };
    nodes.push(node)?;
    by_points.insert(key, nodes)?;
    Ok(())
}

/// The index of nodes. The one refusal is out of memory.
pub fn index_of<'a>(alloc: Global, nodes: &'a [Node]) -> Result<NodeIndex<'a>, NoMemory>
    ensures { IfOk result (λ i. index_nodes i ≡ map node_of nodes.now) }
{
    let mut by_points = IndexMap::new(alloc);
    for node in nodes {
        put(alloc, &mut by_points, node)?;
    }
    Ok(NodeIndex { nodes, by_points })
}
