//! The lines of obstacles.

ghost use Rattle.std.specs.Prelude.{◌≡◌, map, IfOk};
ghost use Rattle.search_tables.specs.View.{points_in};
ghost use Rattle.search_tables.specs.SearchTables.{machines};
ghost use Rattle.fsmd_replies.specs.ObstacleTexts.{undecided_at, undecided_over, cycle_text, output_text, last_move_text};
ghost use Rattle.fsmd_replies.specs.ObstacleTexts.{first_node_text, move_text, outcome_text};

use crate::texts::{first_node_text, last_move_text, move_text, output_text};
use fs_ast::machine::Machine;
use nf_terms::stop::NoMemory;
use nf_terms::tree::Side;
use search_tables::moves::Move;
use search_tables::outcome::{Budget, Outcome};
use search_tables::pairs::PointPair;
use std::alloc::Global;

// The line of what is met at a place.
fn line_at(alloc: Global, what: &[u8], place: &[u8]) -> Result<Vec<u8>, NoMemory>
    ensures { IfOk result (λ line. line.items ≡ undecided_at what.now place.now) }
{
    let mut line = b"undecided: ".to_vec(alloc)?;
    line.extend_from_slice(what)?;
    line.extend_from_slice(b" at ")?;
    line.extend_from_slice(place)?;
    line.extend_from_slice(b"\n")?;
    Ok(line)
}

fn cycle_text(side: Side) -> &'static [u8]
    ensures { result.now ≡ cycle_text side }
{
    match side {
        Side::Left => b"left alone in a cycle".as_slice(),
        Side::Right => b"right alone in a cycle".as_slice(),
    }
}

// The line of a budget that is used up.
fn line_over(alloc: Global, budget: Budget) -> Result<Vec<u8>, NoMemory>
    ensures { IfOk result (λ line. line.items ≡ undecided_over budget) }
{
    let line = match budget {
        Budget::Nodes => b"undecided: more than 4096 nodes\n".as_slice(),
        Budget::Units => b"undecided: more than 4000000 units\n".as_slice(),
    };
    Ok(line.to_vec(alloc)?)
}

// The line of outputs that differ, after the moves that made the table.
fn stuck_line(
    alloc: Global,
    a: &Machine,
    b: &Machine,
    moves: &[Move],
    points: &[PointPair],
    output: u32,
) -> Result<Vec<u8>, NoMemory>
    ensures { IfOk result
        (λ line. line.items ≡ undecided_at (output_text a.now output)
        (last_move_text (machines a.now b.now) (map points_in points.now) moves.now)) }
{
    let what = output_text(alloc, a, output)?;
    let place = last_move_text(alloc, a, b, points, moves)?;
    line_at(alloc, what.as_slice(), place.as_slice())
}

// The line of a cycle in which one machine moves alone.
fn spin_line(
    alloc: Global,
    a: &Machine,
    b: &Machine,
    points: &[PointPair],
    side: Side,
    cycle: &[u32],
) -> Result<Vec<u8>, NoMemory>
    ensures { IfOk result
        (λ line. line.items ≡ undecided_at (cycle_text side)
        (first_node_text (machines a.now b.now) (map points_in points.now) cycle.now)) }
{
    let place = first_node_text(alloc, a, b, points, cycle)?;
    line_at(alloc, cycle_text(side), place.as_slice())
}

// The line of an operation of a move.
fn operation_line(
    alloc: Global,
    a: &Machine,
    b: &Machine,
    what: &[u8],
    points: &[PointPair],
    at: Move,
) -> Result<Vec<u8>, NoMemory>
    ensures { IfOk result
        (λ line. line.items ≡ undecided_at what.now (move_text (machines a.now b.now) (map points_in points.now) at)) }
{
    let place = move_text(alloc, a, b, points, at)?;
    line_at(alloc, what, place.as_slice())
}

/// The line of the obstacle at which a search of two machines stops, and nothing of one that closes. The one refusal is out of
/// memory.
pub fn obstacle_line(
    alloc: Global,
    a: &Machine,
    b: &Machine,
    outcome: &Outcome,
) -> Result<Vec<u8>, NoMemory>
    ensures { IfOk result (λ line. line.items ≡ outcome_text (machines a.now b.now) outcome.now) }
{
    match outcome {
        Outcome::Closed(_) => Ok(Vec::new(alloc)),
        Outcome::Stuck {
            moves,
            points,
            var,
            ..
        } => stuck_line(alloc, a, b, moves.as_slice(), points.as_slice(), *var),
        Outcome::Spin {
            points,
            side,
            cycle,
            ..
        } => spin_line(alloc, a, b, points.as_slice(), *side, cycle.as_slice()),
        Outcome::Wide { points, at, .. } => {
            operation_line(
                alloc,
                a,
                b,
                b"coefficient past 128 bits",
                points.as_slice(),
                *at,
            )
        }
        Outcome::Large { points, at, .. } => {
            operation_line(alloc, a, b, b"term too large", points.as_slice(), *at)
        }
        Outcome::Exhausted { what, .. } => line_over(alloc, *what),
    }
}
