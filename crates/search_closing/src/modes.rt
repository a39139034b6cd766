//! The modes of the nodes of a closed table.

ghost use Rattle.std.specs.Prelude.{◌≡◌, ◌&&◌, IsTrue, IfOk};
ghost use Rattle.fs_cut.specs.Paths.{is_point};
ghost use Rattle.fs_cut.specs.View.{point_of};
ghost use Rattle.search_tables.specs.Modes.{Found};
ghost use Rattle.search_tables.specs.Next.{mode_at, IsClosed};
ghost use Rattle.search_tables.specs.TableInvariants.{IsWellFormed};
ghost use Rattle.search_tables.specs.View.{table_in, search_node_in};
ghost use Rattle.search_closing.specs.ClosedModes.{IsWithoutEvent, AreModes, cycle_side};
ghost use Rattle.search_closing.specs.View.{covered_machines};

use crate::covered::Covered;
use cert_bisimulation::mode::Mode;
use nf_terms::stop::{NfStop, NoMemory};
use nf_terms::tree::Side;
use search_tables::modes::mode;
use search_tables::nodes::SearchNode;
use std::alloc::Global;

// The mode of a node at which it is found. The one refusal is out of memory.
fn mode_of(alloc: Global, m: &Covered<'_>, node: &SearchNode) -> Result<Mode, NoMemory>
    requires points { IsTrue (is_point m.now.a.now (point_of node.now.left) && is_point m.now.b.now (point_of node.now.right)) }
    requires found { IsWithoutEvent (mode_at (covered_machines m.now) (search_node_in node.now)) }
    ensures { IfOk result (λ x. mode_at (covered_machines m.now) (search_node_in node.now) ≡ Found x) }
{
    match mode(
        alloc, m.a, m.b, m.left, m.right, &node.fact, node.left, node.right,
    ) {
        Ok(mode) => Ok(mode),
        Err(stop) => match stop.stop {
            NfStop::NoMemory => Err(NoMemory),
            NfStop::Wide { .. } | NfStop::Large { .. } => unreachable!(),
        },
    }
}

/// The modes of the nodes of a closed table, in order. The one refusal is out of memory.
pub(crate) fn modes_of(
    alloc: Global,
    m: &Covered<'_>,
    nodes: &[SearchNode],
) -> Result<Vec<Mode>, NoMemory>
    requires formed { IsWellFormed (covered_machines m.now) (table_in nodes.now) }
    requires closed { IsClosed (covered_machines m.now) (table_in nodes.now) }
    ensures { IfOk result (λ modes. AreModes (covered_machines m.now) (table_in nodes.now) modes.items) }
{
    let mut out = Vec::new(alloc);
    for node in nodes {
        out.push(mode_of(alloc, m, node)?)?;
    }
    Ok(out)
}

/// The side that moves alone at the first node of a cycle.
pub(crate) fn cycle_side(modes: &[Mode], cycle: &[u32]) -> Side
    ensures { result ≡ cycle_side modes.now cycle.now }
{
    match cycle.first() {
        Some(node) => match modes.get(*node as usize) {
            Some(Mode::Right) => Side::Right,
            _ => Side::Left,
        },
        None => Side::Left,
    }
}
