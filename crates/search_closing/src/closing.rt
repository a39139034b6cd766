//! What a closed table gives.

ghost use Rattle.std.specs.Prelude.{◌≡◌, length, IfOk};
ghost use Rattle.fs_cut.specs.Covers.{cover_of};
ghost use Rattle.search_tables.specs.Next.{IsClosed};
ghost use Rattle.search_tables.specs.TableInvariants.{IsWellFormed};
ghost use Rattle.search_tables.specs.View.{table_in};
ghost use Rattle.search_tables.specs.Walks.{lists_in, InRange, IsRanking};
ghost use Rattle.search_tables.specs.LoneMoves.{lone_moves as graph_of};
ghost use Rattle.search_closing.specs.Closings.{GivesClosing, HasCount, ClosesBy};
ghost use Rattle.search_closing.specs.ClosedModes.{AreModes};
ghost use Rattle.search_closing.specs.View.{covered_machines};

use crate::certify::certify;
use crate::covered::Covered;
use crate::lone::lone_moves;
use crate::modes::{cycle_side, modes_of};
use crate::node_table::NodeTable;
use crate::places::places_of;
use cert_bisimulation::mode::Mode;
use cert_model::cert::Cert;
use fs_ast::machine::Machine;
use fs_cut::cover::Cover;
use nf_terms::stop::NoMemory;
use nf_terms::tree::Side;
use search_tables::nodes::SearchNode;
use search_tables::ranking::Ranking;
use search_tables::walk::rank_all;
use std::alloc::Global;

/// What a closed table gives.
#[derive(Drop)]
pub enum Closing {
    /// Its certificate.
    Certified(Cert),
    /// Nodes that follow one another by moves of this side alone, the last leading back to the first, which is the least node on
    /// any such cycle of either side.
    Spins { side: Side, cycle: Vec<u32> },
}

// The moves of one machine alone in a closed table, as a graph. The one refusal is out of memory.
fn lone_graph<'t>(
    alloc: Global,
    machines: &'t Covered<'t>,
    nodes: &'t [SearchNode],
    modes: &'t [Mode],
) -> Result<Vec<Vec<u32>>, NoMemory>
    requires formed { IsWellFormed (covered_machines machines.now) (table_in nodes.now) }
    requires closed { IsClosed (covered_machines machines.now) (table_in nodes.now) }
    requires modes { AreModes (covered_machines machines.now) (table_in nodes.now) modes.now }
    ensures edges { IfOk result (λ edges. lists_in edges.items ≡ graph_of (covered_machines machines.now) (table_in nodes.now)) }
    ensures range { IfOk result (λ edges. InRange (lists_in edges.items)) }
{
    let places = places_of(alloc, nodes)?;
    let table = NodeTable {
        machines,
        nodes,
        modes,
        places,
    };
    lone_moves(alloc, &table)
}

// The ranks of the nodes of a closed table by the moves of one machine alone, or the cycle of such moves that begins at the
// least node on any. The one refusal is out of memory.
fn rank<'t>(
    alloc: Global,
    machines: &'t Covered<'t>,
    nodes: &'t [SearchNode],
    modes: &'t [Mode],
) -> Result<Ranking, NoMemory>
    requires formed { IsWellFormed (covered_machines machines.now) (table_in nodes.now) }
    requires closed { IsClosed (covered_machines machines.now) (table_in nodes.now) }
    requires modes { AreModes (covered_machines machines.now) (table_in nodes.now) modes.now }
    ensures { IfOk result (IsRanking (graph_of (covered_machines machines.now) (table_in nodes.now))) }
{
    let edges = lone_graph(alloc, machines, nodes, modes)?;
    match rank_all(alloc, edges.as_slice()) {
        Ok(ranking) => Ok(ranking),
        Err(_) => Err(NoMemory),
    }
}

// What a closed table gives, where its nodes have these modes.
fn close_by(
    alloc: Global,
    nodes: Vec<SearchNode>,
    modes: &[Mode],
    ranking: Ranking,
) -> Result<Closing, NoMemory>
    requires modes { length modes.now ≡ length nodes.items }
    requires ranks { HasCount (length nodes.items) ranking }
    ensures { IfOk result (λ c. ClosesBy (table_in nodes.items) modes.now ranking c) }
{
    match ranking {
        Ranking::Cycle(cycle) => {
            let side = cycle_side(modes, cycle.as_slice());
            Ok(Closing::Spins { side, cycle })
        }
        Ranking::Ranks(ranks) => {
            let nodes = certify(alloc, nodes, modes, ranks.as_slice())?;
            Ok(Closing::Certified(Cert { nodes }))
        }
    }
}

/// The certificate of a closed table, whose nodes are the table's, each with its mode and the length of the longest chain of
/// moves of one machine alone from it; or the cycle of such moves that begins at the least node on any. The one refusal is out of
/// memory.
pub fn close(
    alloc: Global,
    a: &Machine,
    b: &Machine,
    ca: &Cover,
    cb: &Cover,
    nodes: Vec<SearchNode>,
) -> Result<Closing, NoMemory>
    requires left_cover { ca.now ≡ cover_of a.now }
    requires right_cover { cb.now ≡ cover_of b.now }
    requires well_formed { IsWellFormed (record { left = a.now; right = b.now }) (table_in nodes.items) }
    requires closed { IsClosed (record { left = a.now; right = b.now }) (table_in nodes.items) }
    ensures { IfOk result (GivesClosing (record { left = a.now; right = b.now }) (table_in nodes.items)) }
{
    let machines = Covered::of(a, b, ca, cb);
    let modes = modes_of(alloc, &machines, nodes.as_slice())?;
    let ranking = rank(alloc, &machines, nodes.as_slice(), modes.as_slice())?;
    close_by(alloc, nodes, modes.as_slice(), ranking)
}
