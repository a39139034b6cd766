//! The nodes of a certificate.

ghost use Rattle.std.specs.Prelude.{◌≡◌, length, map, IfOk};
ghost use Rattle.cert_model.specs.View.{node_of};
ghost use Rattle.search_tables.specs.Certifying.{node_without_mode};
ghost use Rattle.search_tables.specs.View.{table_in};

use cert_bisimulation::mode::Mode;
use cert_model::cert::Node;
use nf_terms::stop::NoMemory;
use search_tables::nodes::SearchNode;
use std::alloc::Global;

/// The nodes of a table, each with its mode and its rank. The facts are moved. The one refusal is out of memory.
pub(crate) fn certify(
    alloc: Global,
    nodes: Vec<SearchNode>,
    modes: &[Mode],
    ranks: &[u32],
) -> Result<Vec<Node>, NoMemory>
    requires modes { length modes.now ≡ length nodes.items }
    requires ranks { length ranks.now ≡ length nodes.items }
    ensures nodes { IfOk result (λ out. map node_without_mode (map node_of out.items) ≡ table_in nodes.items) }
    ensures modes { IfOk result (λ out. map (λ c. c.mode) (map node_of out.items) ≡ modes.now) }
    ensures ranks { IfOk result (λ out. map (λ c. c.rank) (map node_of out.items) ≡ ranks.now) }
{
    let mut out = Vec::new(alloc);
    let mut place = 0;
    for node in nodes {
        out.push(Node {
            left: node.left,
            right: node.right,
            mode: modes[place],
            rank: ranks[place],
            fact: node.fact,
        })?;
        place += 1;
    }
    Ok(out)
}
