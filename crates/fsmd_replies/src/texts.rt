//! Texts of moves and of nodes.

ghost use Rattle.std.specs.Prelude.{◌≡◌, map, IfOk, slice_get};
ghost use Rattle.fs_cut.specs.View.{point_of, path_of};
ghost use Rattle.fs_cut.specs.PathTexts.{named_path};
ghost use Rattle.search_tables.specs.View.{points_in};
ghost use Rattle.search_tables.specs.SearchTables.{machines};
ghost use Rattle.fsmd_replies.specs.ObstacleTexts.{text_of_lookup, both_sides, branch_text, side_text, move_text};
ghost use Rattle.fsmd_replies.specs.ObstacleTexts.{last_move_text, node_points_text, first_node_text, output_text};

use crate::reason::with_name;
use crate::variables::variable_name;
use fs_ast::machine::Machine;
use fs_cut::cover::{Path, Point};
use fs_cut::make_cover::point_paths;
use fs_cut::path_text::{point_text, write_named_path};
use fs_model::parts::VarId;
use nf_terms::stop::NoMemory;
use search_tables::moves::Move;
use search_tables::pairs::PointPair;
use std::alloc::{AllocError, Global};

fn path_text(
    alloc: Global,
    machine: &Machine,
    paths: &[Path],
    branch: u32,
) -> Result<Vec<u8>, NoMemory>
    ensures { IfOk result
        (λ text. text.items ≡ text_of_lookup (named_path machine.now) (slice_get (map path_of paths.now) branch)) }
{
    let mut text = Vec::new(alloc);
    if let Some(path) = paths.get(branch as usize) {
        write_named_path(alloc, machine, path, &mut text)?;
    }
    Ok(text)
}

fn branch_text(
    alloc: Global,
    machine: &Machine,
    from: Point,
    branch: u32,
) -> Result<Vec<u8>, NoMemory>
    ensures { IfOk result (λ text. text.items ≡ branch_text machine.now (point_of from) branch) }
{
    match point_paths(alloc, machine, from) {
        Ok(paths) => path_text(alloc, machine, &paths, branch),
        Err(_) => Err(NoMemory),
    }
}

// The path of a side by a branch, or `-` where the side does not move.
fn side_text(
    alloc: Global,
    machine: &Machine,
    from: Point,
    branch: Option<u32>,
) -> Result<Vec<u8>, NoMemory>
    ensures { IfOk result (λ text. text.items ≡ side_text machine.now (point_of from) branch) }
{
    match branch {
        Some(branch) => branch_text(alloc, machine, from, branch),
        None => Ok(b"-".to_vec(alloc)?),
    }
}

fn both_sides(alloc: Global, left: &[u8], right: &[u8]) -> Result<Vec<u8>, NoMemory>
    ensures { IfOk result (λ text. text.items ≡ both_sides left.now right.now) }
{
    let mut text = left.to_vec(alloc)?;
    text.extend_from_slice(b" | ")?;
    text.extend_from_slice(right)?;
    Ok(text)
}

/// The paths of a move, as `LEFTPATH | RIGHTPATH`, from a node of a table whose nodes have these points. The one refusal is out
/// of memory.
pub fn move_text(
    alloc: Global,
    a: &Machine,
    b: &Machine,
    points: &[PointPair],
    at: Move,
) -> Result<Vec<u8>, NoMemory>
    ensures { IfOk result (λ text. text.items ≡ move_text (machines a.now b.now) (map points_in points.now) at) }
{
    let Some(node) = points.get(at.node as usize) else {
        return Ok(Vec::new(alloc));
    };
    let left = side_text(alloc, a, node.left, at.left)?;
    let right = side_text(alloc, b, node.right, at.right)?;
    both_sides(alloc, left.as_slice(), right.as_slice())
}

/// The paths of the last move. The one refusal is out of memory.
pub fn last_move_text(
    alloc: Global,
    a: &Machine,
    b: &Machine,
    points: &[PointPair],
    moves: &[Move],
) -> Result<Vec<u8>, NoMemory>
    ensures { IfOk result (λ text. text.items ≡ last_move_text (machines a.now b.now) (map points_in points.now) moves.now) }
{
    match moves.last() {
        Some(last) => move_text(alloc, a, b, points, *last),
        None => Ok(Vec::new(alloc)),
    }
}

fn node_text(
    alloc: Global,
    a: &Machine,
    b: &Machine,
    points: &[PointPair],
    node: u32,
) -> Result<Vec<u8>, NoMemory>
    ensures { IfOk result (λ text. text.items ≡ node_points_text (machines a.now b.now) (map points_in points.now) node) }
{
    match points.get(node as usize) {
        Some(node) => both_sides(alloc, point_text(a, node.left), point_text(b, node.right)),
        None => Ok(Vec::new(alloc)),
    }
}

/// The points of the first of some nodes, as `LEFTPOINT | RIGHTPOINT`. The one refusal is out of memory.
pub fn first_node_text(
    alloc: Global,
    a: &Machine,
    b: &Machine,
    points: &[PointPair],
    nodes: &[u32],
) -> Result<Vec<u8>, NoMemory>
    ensures { IfOk result (λ text. text.items ≡ first_node_text (machines a.now b.now) (map points_in points.now) nodes.now) }
{
    match nodes.first() {
        Some(first) => node_text(alloc, a, b, points, *first),
        None => Ok(Vec::new(alloc)),
    }
}

/// `output ` with the name of an output. The one refusal is out of memory.
#[tactic(auto, using(crate::proofs::Names::name_found))]
pub fn output_text(alloc: Global, a: &Machine, output: u32) -> Result<Vec<u8>, AllocError>
    ensures { IfOk result (λ text. text.items ≡ output_text a.now output) }
{
    with_name(alloc, "output ", variable_name(a.vars(), VarId(output)))
}
