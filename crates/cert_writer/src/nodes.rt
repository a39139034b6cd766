//! Nodes as items of an array.

ghost use Rattle.std.specs.Prelude.{◌≡◌, ◌&&◌, map, IfOk, IsTrue};
ghost use Rattle.std.specs.List.{list_all, AllByRecursion};
ghost use Rattle.serde_json.specs.Data.{array};
ghost use Rattle.serde_json.specs.View.{view};
ghost use Rattle.fs_cut.specs.Paths.{is_point};
ghost use Rattle.fs_cut.specs.View.{point_of};
ghost use Rattle.cert_model.specs.View.{node_of};
ghost use Rattle.cert_json.specs.WrittenJson.{node_data, nodes_data};
ghost use Rattle.cert_writer.specs.WrittenCertificates.{node_written};
ghost use Rattle.cert_model.specs.Kept.{HasNormalFact};

use crate::conditions::conditions_value;
use crate::equations::equations_value;
use crate::names::MachineNames;
use crate::points::{mode_text, point_text};
use crate::written::node_value;
use cert_model::cert::Node;
use nf_terms::stop::NoMemory;
use serde_json::Value;
use std::alloc::Global;

// A node at points of the machines.
fn value_of(alloc: Global, names: &MachineNames<'_>, node: &Node) -> Result<Value, NoMemory>
    requires { IsTrue (is_point names.now.a.now (point_of node.now.left) && is_point names.now.b.now (point_of node.now.right)) }
    ensures written { IfOk result (λ v. view v ≡ node_data (node_written names.now.a.now names.now.b.now (node_of node.now))) }
    ensures kept { IfOk result (λ v. HasNormalFact (node_of node.now)) }
{
    node.fact.holds();
    let conds = conditions_value(alloc, names, node.fact.conds())?;
    let equations = equations_value(alloc, names, node.fact.positions())?;
    let left = point_text(names.a, node.left);
    let right = point_text(names.b, node.right);
    let value = node_value(
        alloc,
        conds,
        equations,
        left,
        mode_text(node.mode),
        node.rank as u64,
        right,
    )?;
    Ok(value)
}

/// The array of nodes at points of the machines. The one refusal is out of memory.
pub fn nodes_value(
    alloc: Global,
    names: &MachineNames<'_>,
    nodes: &[Node],
) -> Result<Value, NoMemory>
    requires { IsTrue
        (list_all (λ n. is_point names.now.a.now n.left && is_point names.now.b.now n.right) (map node_of nodes.now)) }
    ensures written { IfOk result
        (λ v. view v ≡ array (nodes_data (map (node_written names.now.a.now names.now.b.now) (map node_of nodes.now)))) }
    ensures kept { IfOk result (λ v. AllByRecursion HasNormalFact (map node_of nodes.now)) }
{
    let mut out = Vec::new(alloc);
    for node in nodes {
        out.push(value_of(alloc, names, node)?)?;
    }
    Ok(Value::Array(out))
}
