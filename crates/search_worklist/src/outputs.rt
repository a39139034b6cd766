//! Whether the outputs of a node at the end have the same terms.

ghost use Rattle.std.specs.Prelude.{◌≡◌, ◌≤◌, ◌<◌, ◌&&◌, ◌∷◌, [], cond, length, IfOk, Some, None};
ghost use Rattle.fs_model.specs.Limits.{most_variables};
ghost use Rattle.fs_cut.specs.Covers.{same_point};
ghost use Rattle.fs_cut.specs.Paths as paths;
ghost use Rattle.fs_cut.specs.View.{point_of};
ghost use Rattle.fs_pair.specs.PairedOutputs.{output_pairs};
ghost use Rattle.indexmap.specs.IndexMap.{index_map_len};
ghost use Rattle.search_tables.specs.Legal.{first_differing as differing};
ghost use Rattle.search_places.specs.NodeRecords.{node_records, table_of};
ghost use Rattle.search_worklist.specs.DifferingOutputs.{OutputAt};
ghost use Rattle.search_worklist.specs.View.{machines_in};

use crate::sides::Sides;
use cert_model::outputs::{is_output, number_of, same_forms};
use fs_model::parts::VarInfo;
use indexmap::IndexMap;
use nf_terms::stop::NoMemory;
use nf_vectors::vector::Vector;
use search_places::node_state::NodeState;
use search_places::nodes::node_at;
use search_tables::pairs::PointPair;
use std::alloc::Global;

// Whether a left variable is an output that has another form than the right variable of its name.
fn differs(
    alloc: Global,
    v: &Vector,
    variable: &VarInfo,
    left: u32,
    rights: &[VarInfo],
) -> Result<bool, NoMemory>
    requires { length rights.now ≤ most_variables }
    ensures { IfOk result (λ b. differing v.now (output_pairs left (variable.now ∷ []) rights.now) ≡ cond b (Some left) None) }
{
    if !is_output(variable.role) {
        return Ok(false);
    }
    let right = number_of(rights, &variable.name);
    Ok(!same_forms(alloc, v, variable.sort, left, right)?)
}

// The first left output that has another form than the right one of its name.
fn first_differing(
    alloc: Global,
    v: &Vector,
    lefts: &[VarInfo],
    rights: &[VarInfo],
) -> Result<Option<u32>, NoMemory>
    requires few_left { length lefts.now ≤ most_variables }
    requires few_right { length rights.now ≤ most_variables }
    ensures { IfOk result (λ o. o ≡ differing v.now (output_pairs 0 lefts.now rights.now)) }
{
    for (left, variable) in lefts.iter().enumerate() {
        if differs(alloc, v, variable, left as u32, rights)? {
            return Ok(Some(left as u32));
        }
    }
    Ok(None)
}

// Whether both machines are done at two points.
fn is_end(points: PointPair) -> bool
    ensures { result ≡ same_point (point_of points.left) paths.Done && same_point (point_of points.right) paths.Done }
{
    points.left.is_done() && points.right.is_done()
}

/// The first left output of a node at the end whose two terms differ. The one refusal is out of memory.
pub fn output_at(
    alloc: Global,
    m: &Sides<'_>,
    entries: &IndexMap<PointPair, NodeState>,
    number: usize,
) -> Result<Option<u32>, NoMemory>
    requires { number < index_map_len entries.now }
    ensures { IfOk result (OutputAt (machines_in m.now) (table_of (node_records entries.now.entries)) number) }
{
    let node = node_at(entries, number);
    if !is_end(node.points) {
        return Ok(None);
    }
    let v = node.entry.fact.vector(alloc)?;
    first_differing(alloc, &v, m.left.vars(), m.right.vars())
}
