//! The table of two machines and of a certificate, made.

ghost use Rattle.std.specs.Prelude.{◌≡◌, map, IfOk};
ghost use Rattle.cert_model.specs.View.{node_of};
ghost use Rattle.cert_check.specs.View.{index_nodes};

use crate::lookup::index_of;
use crate::table::Table;
use cert_model::cert::Node;
use cert_model::covers::cover_of;
use fs_ast::machine::Machine;
use nf_terms::stop::NoMemory;
use std::alloc::Global;

/// The table of two machines and of nodes. The one refusal is out of memory.
pub fn table_of<'a>(
    alloc: Global,
    a: &'a Machine,
    b: &'a Machine,
    nodes: &'a [Node],
) -> Result<Table<'a>, NoMemory>
    ensures left { IfOk result (λ t. t.a.now ≡ a.now) }
    ensures right { IfOk result (λ t. t.b.now ≡ b.now) }
    ensures nodes { IfOk result (λ t. index_nodes t.nodes ≡ map node_of nodes.now) }
{
    let left = cover_of(alloc, a)?;
    let right = cover_of(alloc, b)?;
    let nodes = index_of(alloc, nodes)?;
    Ok(Table {
        a,
        b,
        left,
        right,
        nodes,
    })
}
