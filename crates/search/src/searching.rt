//! The search.

ghost use Rattle.std.specs.Prelude.{◌≡◌, None, map, IfOk};
ghost use Rattle.std.specs.List.{AllByRecursion};
ghost use Rattle.fs_cut.specs.Covers.{cover_of};
ghost use Rattle.fs_pair.specs.Interfaces.{interface_fault};
ghost use Rattle.fs_pair.specs.Positions.{positions};
ghost use Rattle.sym_facts.specs.Pairings.{IsFactOf};
ghost use Rattle.search_tables.specs.Next.{IsClosed};
ghost use Rattle.search_tables.specs.Legal.{Makes, difference_in};
ghost use Rattle.search_tables.specs.View.{table_in, points_in, points_at, obstacle_in};
ghost use Rattle.cert_bisimulation.specs.Alike.{WhereAlike};
ghost use Rattle.search_tables.specs.SearchTables.{MachinePair, machines};
ghost use Rattle.search.specs.SearchOutcomes.{StopsAtObstacle, IsSearchOutcome, ClosesOrMeetsLimit};

use crate::run::run;
use cert_model::covers::cover_of;
use cert_model::kept::certificates_are_normal;
use fs_ast::machine::Machine;
use fs_cut::cover::Cover;
use fs_pair::positions::Pairing;
use nf_terms::stop::NoMemory;
use search_closing::closing::{Closing, close};
use search_tables::moves::Move;
use search_tables::nodes::SearchNode;
use search_tables::outcome::{Obstacle, Outcome};
use search_tables::pairs::PointPair;
use search_worklist::ends::Ended;
use std::alloc::Global;

// The points of nodes, in order. The one refusal is out of memory.
fn points_of(alloc: Global, nodes: &[SearchNode]) -> Result<Vec<PointPair>, NoMemory>
    ensures { IfOk result (λ points. map points_at (table_in nodes.now) ≡ map points_in points.items) }
{
    let mut out = Vec::new(alloc);
    for node in nodes {
        out.push(PointPair {
            left: node.left,
            right: node.right,
        })?;
    }
    Ok(out)
}

// How a search ends that moves lead to an obstacle, over a table of these points.
fn outcome_at(moves: Vec<Move>, points: Vec<PointPair>, obstacle: Obstacle) -> Outcome
    ensures { (m : MachinePair) → StopsAtObstacle m moves.items (map points_in points.items) (obstacle_in obstacle)
        → IsSearchOutcome m result }
{
    match obstacle {
        Obstacle::Stuck { node, var } => Outcome::Stuck {
            moves,
            points,
            node,
            var,
        },
        Obstacle::Spin { side, cycle } => Outcome::Spin {
            moves,
            points,
            side,
            cycle,
        },
        Obstacle::Wide { at } => Outcome::Wide { moves, points, at },
        Obstacle::Large { at } => Outcome::Large { moves, points, at },
        Obstacle::Exhausted { at, what } => Outcome::Exhausted {
            moves,
            points,
            at,
            what,
        },
    }
}

// What a closed table in which no outputs differ gives, by the moves that made it. The one refusal is out of memory.
fn close_table(
    alloc: Global,
    a: &Machine,
    b: &Machine,
    ca: &Cover,
    cb: &Cover,
    nodes: Vec<SearchNode>,
    moves: Vec<Move>,
    points: Vec<PointPair>,
) -> Result<Outcome, NoMemory>
    requires interface { interface_fault a.now b.now ≡ None }
    requires left_cover { ca.now ≡ cover_of a.now }
    requires right_cover { cb.now ≡ cover_of b.now }
    requires makes { Makes (machines a.now b.now) moves.items (table_in nodes.items) }
    requires facts { AllByRecursion (λ n. IsFactOf (positions a.now b.now) n.fact) (table_in nodes.items) }
    requires closed { IsClosed (machines a.now b.now) (table_in nodes.items) }
    requires none_differ { difference_in (machines a.now b.now) (table_in nodes.items) ≡ None }
    requires points { map points_at (table_in nodes.items) ≡ map points_in points.items }
    ensures { IfOk result (IsSearchOutcome (machines a.now b.now)) }
{
    let _left = a.vars(); // These two calls tell the proof that both machines are sound.
    let _right = b.vars();
    match close(alloc, a, b, ca, cb, nodes)? {
        Closing::Certified(cert) => {
            certificates_are_normal(&cert);
            Ok(Outcome::Closed(cert))
        }
        Closing::Spins { side, cycle } => {
            Ok(outcome_at(moves, points, Obstacle::Spin { side, cycle }))
        }
    }
}

// As `search`, by the covers of both machines. The one refusal is out of memory.
fn search_by_covers(
    alloc: Global,
    a: &Machine,
    b: &Machine,
    p: &Pairing,
    ca: &Cover,
    cb: &Cover,
) -> Result<Outcome, NoMemory>
    requires paired { p.now ≡ positions a.now b.now }
    requires interface { interface_fault a.now b.now ≡ None }
    requires left_cover { ca.now ≡ cover_of a.now }
    requires right_cover { cb.now ≡ cover_of b.now }
    ensures { IfOk result (IsSearchOutcome (machines a.now b.now)) }
{
    let _left = a.vars(); // These two calls tell the proof that both machines are sound.
    let _right = b.vars();
    let ended = run(alloc, a, b, p, ca, cb)?;
    let Ended {
        nodes,
        moves,
        obstacle,
    } = ended;
    let points = points_of(alloc, nodes.as_slice())?;
    match obstacle {
        None => close_table(alloc, a, b, ca, cb, nodes, moves, points),
        Some(obstacle) => Ok(outcome_at(moves, points, obstacle)),
    }
}

/// Searches for a certificate that two machines with the same interface have the same behaviour: makes nodes, beginning with both
/// starts, and moves from them, up to the first obstacle, or to a table in which no move makes a difference any more.
///
/// `Closed` carries the certificate of that table: it is lawful, its facts are in normal form, and all its obligations hold.
/// `Stuck` comes where both machines are done and a left output differs, and is looked at first; `Spin` where the table is closed
/// and one machine alone moves in a cycle; `Wide` and `Large` at the first operation that is not narrow, or narrow and not small;
/// `Exhausted` where a move would make node 4,097 or a table of more than 4,000,000 units. An obstacle comes after at most
/// 1,314,816 moves. Machines that differ only in the names of their states and in how basic blocks are cut into states, and of
/// whose reset states both test or neither does, are alike: of these there is no `Stuck` and no `Spin`. The one refusal is out of
/// memory.
pub fn search(alloc: Global, a: &Machine, b: &Machine, p: &Pairing) -> Result<Outcome, NoMemory>
    requires paired { p.now ≡ positions a.now b.now }
    requires interface { interface_fault a.now b.now ≡ None }
    ensures answers { IfOk result (IsSearchOutcome (machines a.now b.now)) }
    ensures alike { IfOk result (λ outcome. WhereAlike a.now b.now (ClosesOrMeetsLimit outcome)) }
{
    let ca = cover_of(alloc, a)?;
    let cb = cover_of(alloc, b)?;
    search_by_covers(alloc, a, b, p, &ca, &cb)
}
