//! The history of a search.

ghost use Rattle.std.specs.Prelude.{◌≡◌, ◌++◌, IfOk, OnOk};
ghost use Rattle.fs_cut.specs.Covers.{cover_of};
ghost use Rattle.fs_pair.specs.Positions.{positions};
ghost use Rattle.search_tables.specs.SearchTables.{machines, first_table};
ghost use Rattle.search_tables.specs.View.{table_in};
ghost use Rattle.show_fact_text.specs.View.{position_name_in};
ghost use Rattle.show_move_lines.specs.MoveReplays.{turn_of_move, with_turn, AreOf};
ghost use Rattle.show_move_lines.specs.MoveLines.{turn_lines, turns_lines, start_move_lines, history_text};
ghost use Rattle.show_move_lines.specs.View.{side_machines};

use crate::lines::{write_node, write_turn};
use crate::sides::Sides;
use crate::turns::{make_told, turn};
use cert_model::covers::cover_of;
use fs_ast::machine::Machine;
use fs_cut::cover::{Cover, Point};
use fs_pair::positions::Pairing;
use nf_terms::stop::NoMemory;
use search_tables::moves::Move;
use search_tables::nodes::SearchNode;
use show_fact_text::names::SideNames;
use std::alloc::Global;
use sym_facts::laws::the_start_fact_is_solved;
use sym_facts::start::start_fact;

/// The table with which a search begins. The one refusal is out of memory.
pub fn first_table(alloc: Global, m: &Sides<'_>) -> Result<Vec<SearchNode>, NoMemory>
    ensures table { IfOk result (λ nodes. table_in nodes.items ≡ first_table (side_machines m.now)) }
    ensures facts { IfOk result (λ nodes. AreOf m.now.pairing.now (table_in nodes.items)) }
{
    the_start_fact_is_solved();
    let mut nodes = Vec::new(alloc);
    nodes.push(SearchNode {
        left: Point::Start,
        right: Point::Start,
        fact: start_fact(alloc, m.pairing)?,
    })?;
    Ok(nodes)
}

// Adds the lines of a move, and makes it.
fn tell_move(
    alloc: Global,
    m: &Sides<'_>,
    nodes: &mut Vec<SearchNode>,
    at: Move,
    out: &mut Vec<u8>,
) -> Result<(), NoMemory>
    requires { AreOf m.now.pairing.now (table_in nodes.old.items) }
    ensures lines { OnOk result (out.new.items ≡ out.old.items
        ++ turn_lines (position_name_in (side_machines m.now)) (side_machines m.now) (table_in nodes.old.items) at
        (turn_of_move m.now.pairing.now (side_machines m.now) (table_in nodes.old.items) at)) }
    ensures table { OnOk result (table_in nodes.new.items
        ≡ with_turn (table_in nodes.old.items)
        (turn_of_move m.now.pairing.now (side_machines m.now) (table_in nodes.old.items) at)) }
    ensures facts { OnOk result (AreOf m.now.pairing.now (table_in nodes.new.items)) }
{
    let names = SideNames {
        left: m.left,
        right: m.right,
    };
    let table = nodes.as_slice();
    let turn = turn(alloc, m, table, at)?;
    let told = write_turn(alloc, m, &names, table, at, &turn, out);
    make_told(told, nodes, turn)
}

// Adds the lines of moves, and makes them.
fn tell_moves(
    alloc: Global,
    m: &Sides<'_>,
    nodes: &mut Vec<SearchNode>,
    moves: &[Move],
    out: &mut Vec<u8>,
) -> Result<(), NoMemory>
    requires { AreOf m.now.pairing.now (table_in nodes.old.items) }
    ensures { OnOk result (out.new.items ≡ out.old.items
        ++ turns_lines m.now.pairing.now (side_machines m.now) (table_in nodes.old.items) moves.now) }
{
    for at in moves {
        tell_move(alloc, m, nodes, *at, out)?;
    }
    Ok(())
}

// Adds the line and the fact of the start node.
fn tell_start(alloc: Global, m: &Sides<'_>, out: &mut Vec<u8>) -> Result<(), NoMemory>
    ensures { OnOk result (out.new.items ≡ out.old.items ++ start_move_lines (side_machines m.now)) }
{
    let names = SideNames {
        left: m.left,
        right: m.right,
    };
    let fact = start_fact(alloc, m.pairing)?;
    write_node(m, &names, Point::Start, Point::Start, &fact, out)
}

// The history of moves.
fn history_of(alloc: Global, m: &Sides<'_>, moves: &[Move]) -> Result<Vec<u8>, NoMemory>
    ensures { IfOk result (λ text. text.items ≡ history_text (side_machines m.now) moves.now) }
{
    let mut out = Vec::new(alloc);
    tell_start(alloc, m, &mut out)?;
    let mut nodes = first_table(alloc, m)?;
    tell_moves(alloc, m, &mut nodes, moves, &mut out)?;
    Ok(out)
}

// As `history`, for references that live equally long.
fn history_with<'a>(
    alloc: Global,
    a: &'a Machine,
    b: &'a Machine,
    p: &'a Pairing,
    ca: &'a Cover,
    cb: &'a Cover,
    moves: &[Move],
) -> Result<Vec<u8>, NoMemory>
    requires paired { p.now ≡ positions a.now b.now }
    requires left_cover { ca.now ≡ cover_of a.now }
    requires right_cover { cb.now ≡ cover_of b.now }
    ensures { IfOk result (λ text. text.items ≡ history_text (machines a.now b.now) moves.now) }
{
    let sides = Sides {
        left: a,
        right: b,
        pairing: p,
        left_cover: ca,
        right_cover: cb,
    };
    history_of(alloc, &sides, moves)
}

/// The history of a search by its moves, from the start node on: for each move that makes a node its paths and the node's fact,
/// and for each move that weakens one its paths, each equation and each condition of its fact that did not arrive, and what
/// stands in their place. The one refusal is out of memory.
pub fn history(
    alloc: Global,
    a: &Machine,
    b: &Machine,
    p: &Pairing,
    moves: &[Move],
) -> Result<Vec<u8>, NoMemory>
    requires { p.now ≡ positions a.now b.now }
    ensures { IfOk result (λ text. text.items ≡ history_text (machines a.now b.now) moves.now) }
{
    let left = cover_of(alloc, a)?;
    let right = cover_of(alloc, b)?;
    history_with(alloc, a, b, p, &left, &right, moves)
}
