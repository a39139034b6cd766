//! Where nodes stand in a table, by their points.

ghost use Rattle.std.specs.Prelude.{◌≡◌, IsTrue, IfOk};
ghost use Rattle.fs_cut.specs.View.{point_of};
ghost use Rattle.search_tables.specs.SearchTables.{Table};
ghost use Rattle.search_tables.specs.TableInvariants.{nodes_differ};
ghost use Rattle.search_tables.specs.View.{table_in};
ghost use Rattle.search_closing.specs.NodePlaces.{keys_in, NodeStandsAt};

use cert_model::keys::key_of;
use fs_cut::cover::Point;
use indexmap::IndexSet;
use nf_terms::stop::NoMemory;
use search_tables::nodes::SearchNode;
use std::alloc::Global;

/// The keys of nodes at different pairs of points, in order: a key is found in constant time. The one refusal is out of memory.
pub(crate) fn places_of(
    alloc: Global,
    nodes: &[SearchNode],
) -> Result<IndexSet<(u64, u64)>, NoMemory>
    requires { IsTrue (nodes_differ (table_in nodes.now)) }
    ensures { IfOk result (λ places. places.keys ≡ keys_in (table_in nodes.now)) }
{
    let mut places = IndexSet::new(alloc);
    for node in nodes {
        places.insert(key_of(node.left, node.right))?;
    }
    Ok(places)
}

/// The place of the node at two points, if there is one.
pub(crate) fn place_of(places: &IndexSet<(u64, u64)>, left: Point, right: Point) -> Option<usize>
    ensures { (T : Table) → places.now.keys ≡ keys_in T → NodeStandsAt T (point_of left) (point_of right) result }
{
    places.get_index_of(&key_of(left, right))
}
