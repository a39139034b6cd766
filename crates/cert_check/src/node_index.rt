//! The nodes of a certificate by their points.

ghost use Rattle.std.specs.Prelude.{map};
ghost use Rattle.cert_model.specs.View.{node_of};
ghost use Rattle.cert_check.specs.Listing.{Lists, Lists-prop};

use cert_model::cert::Node;
use indexmap::IndexMap;

/// The nodes of a certificate, and by each pair of points those that stand there, in order. They are found in constant time.
#[derive(Drop)]
pub struct NodeIndex<'a> {
    pub nodes: &'a [Node],
    pub by_points: IndexMap<(u64, u64), Vec<&'a Node>>,
    ghost at: { Lists by_points.entries (map node_of nodes.now) } by { Lists-prop by_points.entries (map node_of nodes.now) },
}
