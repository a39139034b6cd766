//! The lines of moves.

ghost use Rattle.std.specs.Prelude.{◌≡◌, ◌++◌, OnOk, option_map, slice_get};
ghost use Rattle.fs_cut.specs.View.{point_of, path_of};
ghost use Rattle.sym_paths.specs.View.{post_in};
ghost use Rattle.sym_facts.specs.View.{missing_in};
ghost use Rattle.search_tables.specs.View.{search_node_in, table_in};
ghost use Rattle.show_fact_text.specs.View.{side_names_in};
ghost use Rattle.show_move_lines.specs.MoveLines.{shown_path, moved_text, moved_at, move_line, node_lines, lost_at, turn_lines};
ghost use Rattle.show_move_lines.specs.View.{side_machines, turn_in};

use crate::sides::{Sides, left_path, right_path};
use crate::turn::Turn;
use fs_ast::machine::Machine;
use fs_cut::cover::{Path, Point};
use fs_cut::path_text::write_named_path;
use nf_terms::stop::NoMemory;
use search_tables::moves::Move;
use search_tables::nodes::SearchNode;
use show_fact_text::lines::write_fact;
use show_fact_text::losses::write_lost_lines;
use show_fact_text::names::SideNames;
use show_fact_text::points::write_points;
use std::alloc::Global;
use sym_facts::entailment::Entail;
use sym_facts::fact::Fact;
use sym_paths::execution::Post;

// Adds the path of a side that moves, or `-` where it does not.
fn write_side(
    alloc: Global,
    machine: &Machine,
    branch: Option<u32>,
    path: Option<&Path>,
    out: &mut Vec<u8>,
) -> Result<(), NoMemory>
    ensures { OnOk result (out.new.items ≡ out.old.items
        ++ shown_path machine.now branch (option_map (λ p. path_of p.now) path.entry)) }
{
    match branch {
        None => out.extend_from_slice(b"-")?,
        Some(_) => match path {
            Some(path) => write_named_path(alloc, machine, path, out)?,
            None => {}
        },
    }
    Ok(())
}

// Adds the paths of a move from a node.
#[tactic(auto, using(crate::proofs::Shown::side_shown))]
fn write_moved(
    alloc: Global,
    m: &Sides<'_>,
    node: &SearchNode,
    at: Move,
    out: &mut Vec<u8>,
) -> Result<(), NoMemory>
    ensures { OnOk result (out.new.items ≡ out.old.items ++ moved_text (side_machines m.now) (search_node_in node.now) at) }
{
    let left = left_path(m, node.left, at.left);
    let right = right_path(m, node.right, at.right);
    write_side(alloc, m.left, at.left, left, out)?;
    out.extend_from_slice(b" | ")?;
    write_side(alloc, m.right, at.right, right, out)
}

/// Adds the paths of a move, where its node is there. The one refusal is out of memory.
pub fn write_move(
    alloc: Global,
    m: &Sides<'_>,
    nodes: &[SearchNode],
    at: Move,
    out: &mut Vec<u8>,
) -> Result<(), NoMemory>
    ensures { OnOk result (out.new.items ≡ out.old.items
        ++ moved_at (side_machines m.now) at (slice_get (table_in nodes.now) at.node)) }
{
    match nodes.get(at.node as usize) {
        Some(node) => write_moved(alloc, m, node, at, out),
        None => Ok(()),
    }
}

// Adds the line of a move: its paths, what it does, and the node.
fn write_move_line(
    alloc: Global,
    m: &Sides<'_>,
    nodes: &[SearchNode],
    at: Move,
    word: &[u8],
    left: Point,
    right: Point,
    out: &mut Vec<u8>,
) -> Result<(), NoMemory>
    ensures { OnOk result (out.new.items ≡ out.old.items
        ++ move_line (side_machines m.now) (table_in nodes.now) at word.now (point_of left) (point_of right)) }
{
    write_move(alloc, m, nodes, at, out)?;
    out.extend_from_slice(word)?;
    write_points(out, m.left, m.right, left, right)?;
    out.extend_from_slice(b"\n")?;
    Ok(())
}

// Adds what the fact of a node lost.
fn write_lost_at(
    alloc: Global,
    out: &mut Vec<u8>,
    names: &SideNames<'_>,
    nodes: &[SearchNode],
    number: usize,
    post: &Post,
    new: &Fact,
    missing: &Entail,
) -> Result<(), NoMemory>
    ensures { OnOk result (out.new.items ≡ out.old.items
        ++ lost_at (side_names_in names.now) (post_in post.now) new.now (missing_in missing.now)
        (slice_get (table_in nodes.now) number)) }
{
    match nodes.get(number) {
        Some(node) => write_lost_lines(alloc, out, names, post, &node.fact, new, missing),
        None => Ok(()),
    }
}

/// Adds the lines of what a move does to a table. The one refusal is out of memory.
pub fn write_turn(
    alloc: Global,
    m: &Sides<'_>,
    names: &SideNames<'_>,
    nodes: &[SearchNode],
    at: Move,
    turn: &Turn,
    out: &mut Vec<u8>,
) -> Result<(), NoMemory>
    ensures { OnOk result (out.new.items ≡ out.old.items
        ++ turn_lines (side_names_in names.now) (side_machines m.now) (table_in nodes.now) at (turn_in turn.now)) }
{
    match turn {
        Turn::Idle => Ok(()),
        Turn::Makes { left, right, fact } => {
            write_move_line(alloc, m, nodes, at, b" makes ", *left, *right, out)?;
            write_fact(out, b"  ", names, fact)
        }
        Turn::Weakens {
            node,
            left,
            right,
            post,
            missing,
            fact,
        } => {
            write_move_line(alloc, m, nodes, at, b" weakens ", *left, *right, out)?;
            write_lost_at(alloc, out, names, nodes, *node, post, fact, missing)
        }
    }
}

/// Adds the line and the fact of a node. The one refusal is out of memory.
pub fn write_node(
    m: &Sides<'_>,
    names: &SideNames<'_>,
    left: Point,
    right: Point,
    fact: &Fact,
    out: &mut Vec<u8>,
) -> Result<(), NoMemory>
    ensures { OnOk result (out.new.items ≡ out.old.items
        ++ node_lines (side_names_in names.now) (side_machines m.now) (point_of left) (point_of right) fact.now) }
{
    write_points(out, m.left, m.right, left, right)?;
    out.extend_from_slice(b"\n")?;
    write_fact(out, b"  ", names, fact)
}
