//! The edges of moves.

ghost use Rattle.std.specs.Prelude.{◌≡◌, ◌++◌, IfOk, OnOk, slice_get};
ghost use Rattle.search_tables.specs.View.{table_in};
ghost use Rattle.show_move_lines.specs.MoveReplays.{turn_of_move, with_turn, with_turns, AreOf};
ghost use Rattle.show_move_lines.specs.MoveLines.{moved_at};
ghost use Rattle.show_move_lines.specs.View.{side_machines, turn_in};
ghost use Rattle.show_search_views.specs.SearchPictures.{move_edge, turn_edge, turns_edges};

use itoa::Buffer;
use nf_terms::stop::NoMemory;
use search_tables::moves::Move;
use search_tables::nodes::SearchNode;
use show_machine_pictures::graphs::write_edge;
use show_move_lines::lines::write_move;
use show_move_lines::sides::Sides;
use show_move_lines::turn::Turn;
use show_move_lines::turns::{make_told, turn};
use std::alloc::Global;

// The label of a move: its paths.
fn move_label(
    alloc: Global,
    m: &Sides<'_>,
    nodes: &[SearchNode],
    at: Move,
) -> Result<Vec<u8>, NoMemory>
    ensures { IfOk result (λ label. label.items ≡ moved_at (side_machines m.now) at (slice_get (table_in nodes.now) at.node)) }
{
    let mut label = Vec::new(alloc);
    write_move(alloc, m, nodes, at, &mut label)?;
    Ok(label)
}

// Adds the edge of a move to a node.
fn write_move_edge(
    alloc: Global,
    m: &Sides<'_>,
    nodes: &[SearchNode],
    at: Move,
    to: usize,
    out: &mut Vec<u8>,
) -> Result<(), NoMemory>
    ensures { OnOk result (out.new.items ≡ out.old.items ++ move_edge (side_machines m.now) (table_in nodes.now) at to) }
{
    let mut from_buffer = Buffer::new();
    let mut to_buffer = Buffer::new();
    let from = from_buffer.format(at.node).as_bytes();
    let to = to_buffer.format(to).as_bytes();
    let label = move_label(alloc, m, nodes, at)?;
    write_edge(out, from, to, label.as_slice(), false)?;
    Ok(())
}

// Adds the edge of what a move does.
fn write_turn_edge(
    alloc: Global,
    m: &Sides<'_>,
    nodes: &[SearchNode],
    at: Move,
    turn: &Turn,
    out: &mut Vec<u8>,
) -> Result<(), NoMemory>
    ensures { OnOk result (out.new.items ≡ out.old.items
        ++ turn_edge (side_machines m.now) (table_in nodes.now) at (turn_in turn.now)) }
{
    match turn {
        Turn::Idle => Ok(()),
        Turn::Makes { .. } => write_move_edge(alloc, m, nodes, at, nodes.len(), out),
        Turn::Weakens { node, .. } => write_move_edge(alloc, m, nodes, at, *node, out),
    }
}

// Adds the edge of a move, and makes it.
fn draw_move(
    alloc: Global,
    m: &Sides<'_>,
    nodes: &mut Vec<SearchNode>,
    at: Move,
    out: &mut Vec<u8>,
) -> Result<(), NoMemory>
    requires { AreOf m.now.pairing.now (table_in nodes.old.items) }
    ensures edge { OnOk result (out.new.items ≡ out.old.items
        ++ turn_edge (side_machines m.now) (table_in nodes.old.items) at
        (turn_of_move m.now.pairing.now (side_machines m.now) (table_in nodes.old.items) at)) }
    ensures table { OnOk result (table_in nodes.new.items
        ≡ with_turn (table_in nodes.old.items)
        (turn_of_move m.now.pairing.now (side_machines m.now) (table_in nodes.old.items) at)) }
    ensures facts { OnOk result (AreOf m.now.pairing.now (table_in nodes.new.items)) }
{
    let table = nodes.as_slice();
    let turn = turn(alloc, m, table, at)?;
    let told = write_turn_edge(alloc, m, table, at, &turn, out);
    make_told(told, nodes, turn)
}

/// Adds the edges of moves, and makes them. The one refusal is out of memory.
pub fn draw_moves(
    alloc: Global,
    m: &Sides<'_>,
    nodes: &mut Vec<SearchNode>,
    moves: &[Move],
    out: &mut Vec<u8>,
) -> Result<(), NoMemory>
    requires { AreOf m.now.pairing.now (table_in nodes.old.items) }
    ensures edges { OnOk result (out.new.items ≡ out.old.items
        ++ turns_edges m.now.pairing.now (side_machines m.now) (table_in nodes.old.items) moves.now) }
    ensures table { OnOk result (table_in nodes.new.items
        ≡ with_turns m.now.pairing.now (side_machines m.now) (table_in nodes.old.items) moves.now) }
{
    for at in moves {
        draw_move(alloc, m, nodes, *at, out)?;
    }
    Ok(())
}
