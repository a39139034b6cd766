//! Where the moves lead by which one machine moves alone.

ghost use Rattle.std.specs.Prelude.{◌≡◌, ◌≤◌, ◌++◌, ◌&&◌, length, map, IsTrue, IfOk, OnOk};
ghost use Rattle.fs_model.specs.Limits.{most_branches};
ghost use Rattle.fs_cut.specs.Paths.{is_point};
ghost use Rattle.fs_cut.specs.View.{point_of, path_of};
ghost use Rattle.nf_terms.specs.Computed.{Answers, Done, after};
ghost use Rattle.nf_rel.specs.Literals.{is_refuted as refuted};
ghost use Rattle.sym_paths.specs.Execution.{end_of};
ghost use Rattle.sym_paths.specs.View.{answer_in_data, post_in};
ghost use Rattle.search_tables.specs.Modes.{Found};
ghost use Rattle.cert_model.specs.Obligations.{same_alone};
ghost use Rattle.search_tables.specs.Walks.{lists_in};
ghost use Rattle.search_tables.specs.SearchTables.{Keeps, node_target, effect, arrival};
ghost use Rattle.search_tables.specs.Next.{mode_at, paths_in, IsClosed};
ghost use Rattle.search_tables.specs.LoneMoves.{lone_mode, if_alone, lone_targets as targets_by, lone_in, lone_moves as graph_of};
ghost use Rattle.search_tables.specs.View.{table_in, search_node_in};
ghost use Rattle.search_closing.specs.LoneSideMoves.{lone_path, Keep, lone_move_target as target_by, AreShort};
ghost use Rattle.search_closing.specs.View.{covered_machines, as_list};

use crate::covered::Covered;
use crate::node_table::NodeTable;
use crate::places::place_of;
use cert_bisimulation::mode::Mode;
use cert_model::covers::paths;
use fs_cut::cover::{Path, Point};
use nf_refutation::refutation::is_refuted;
use nf_terms::stop::{NfStop, NoMemory};
use nf_terms::tree::Side;
use search_tables::nodes::SearchNode;
use std::alloc::Global;
use sym_entailment::arrival::arrive;
use sym_paths::execution::Post;

// Whether a side moves alone in a mode.
fn moves_alone(side: Side, mode: Mode) -> bool
    ensures { result ≡ same_alone (lone_mode side) mode }
{
    match side {
        Side::Left => matches!(mode, Mode::Left),
        Side::Right => matches!(mode, Mode::Right),
    }
}

// The number of the node at two points, where a side moves alone from there.
fn alone_at(table: &NodeTable<'_>, side: Side, left: Point, right: Point) -> Option<u32>
    ensures { as_list result ≡ if_alone (covered_machines table.now.machines.now) (lone_mode side)
        (node_target (table_in table.now.nodes.now) (point_of left) (point_of right)) }
{
    let place = place_of(&table.places, left, right)?;
    if moves_alone(side, table.modes[place]) {
        Some(place as u32)
    } else {
        None
    }
}

// The points to which a side moves alone.
fn ends(node: &SearchNode, side: Side, path: &Path) -> (Point, Point)
    ensures left { point_of result.0 ≡ end_of (point_of node.now.left) (lone_path side (path_of path.now)).left }
    ensures right { point_of result.1 ≡ end_of (point_of node.now.right) (lone_path side (path_of path.now)).right }
{
    match side {
        Side::Left => (path.to, node.right),
        Side::Right => (node.left, path.to),
    }
}

// What arrives by a path that a side takes alone.
fn arrive_alone(
    alloc: Global,
    m: &Covered<'_>,
    node: &SearchNode,
    side: Side,
    path: &Path,
) -> Result<Post, NfStop>
    ensures { Answers (answer_in_data post_in result)
        (arrival (covered_machines m.now) (search_node_in node.now) (lone_path side (path_of path.now))) }
{
    match side {
        Side::Left => arrive(alloc, m.a, m.b, &node.fact, Some(path), None),
        Side::Right => arrive(alloc, m.a, m.b, &node.fact, None, Some(path)),
    }
}

// Whether a path is refuted that a side takes alone.
fn is_refuted_alone(
    alloc: Global,
    m: &Covered<'_>,
    node: &SearchNode,
    side: Side,
    path: &Path,
) -> Result<bool, NfStop>
    ensures { Answers result
        (after (arrival (covered_machines m.now) (search_node_in node.now) (lone_path side (path_of path.now)))
        (λ post. Done (refuted post.conditions))) }
{
    let post = arrive_alone(alloc, m, node, side, path)?;
    match is_refuted(alloc, post.conds.as_slice()) {
        Ok(refuted) => Ok(refuted),
        Err(_) => Err(NfStop::NoMemory),
    }
}

// Where a path leads that a side takes alone, if it moves alone from there too. The one refusal is out of memory.
fn lone_target(
    alloc: Global,
    table: &NodeTable<'_>,
    node: &SearchNode,
    side: Side,
    path: &Path,
) -> Result<Option<u32>, NoMemory>
    requires { effect (covered_machines table.now.machines.now) (table_in table.now.nodes.now) (search_node_in node.now)
        (lone_path side (path_of path.now)) ≡ Keeps }
    ensures { IfOk result
        (λ target. as_list target ≡ target_by (covered_machines table.now.machines.now) (table_in table.now.nodes.now)
        (search_node_in node.now) (lone_mode side) (lone_path side (path_of path.now))) }
{
    let (left, right) = ends(node, side, path);
    let Some(number) = alone_at(table, side, left, right) else {
        return Ok(None);
    };
    match is_refuted_alone(alloc, table.machines, node, side, path) {
        Ok(true) => Ok(None),
        Ok(false) => Ok(Some(number)),
        Err(NfStop::NoMemory) => Err(NoMemory),
        Err(NfStop::Wide { .. } | NfStop::Large { .. }) => unreachable!(),
    }
}

// Appends a target, if there is one.
fn push(out: &mut Vec<u32>, target: Option<u32>) -> Result<(), NoMemory>
    ensures { OnOk result (out.new.items ≡ out.old.items ++ as_list target) }
{
    if let Some(number) = target {
        out.push(number)?;
    }
    Ok(())
}

// Where paths lead that a side takes alone, if it moves alone from there too. The one refusal is out of memory.
fn lone_targets(
    alloc: Global,
    table: &NodeTable<'_>,
    node: &SearchNode,
    side: Side,
    paths: &[Path],
) -> Result<Vec<u32>, NoMemory>
    requires { Keep (covered_machines table.now.machines.now) (table_in table.now.nodes.now) (search_node_in node.now)
        (map (lone_path side) (map path_of paths.now)) }
    ensures targets { IfOk result
        (λ out. out.items ≡ targets_by (covered_machines table.now.machines.now) (table_in table.now.nodes.now)
        (search_node_in node.now) (lone_mode side) (map (lone_path side) (map path_of paths.now))) }
    ensures few { IfOk result (λ out. length out.items ≤ length paths.now) }
{
    let mut out = Vec::new(alloc);
    for path in paths {
        push(&mut out, lone_target(alloc, table, node, side, path)?)?;
    }
    Ok(out)
}

// Where a node leads in a mode in which one machine moves alone, if that moves alone from there too. The one refusal is out of
// memory.
fn targets_at(
    alloc: Global,
    table: &NodeTable<'_>,
    node: &SearchNode,
    mode: Mode,
) -> Result<Vec<u32>, NoMemory>
    requires points { IsTrue
        (is_point table.now.machines.now.a.now (point_of node.now.left)
        && is_point table.now.machines.now.b.now (point_of node.now.right)) }
    requires mode { mode_at (covered_machines table.now.machines.now) (search_node_in node.now) ≡ Found mode }
    requires keep { Keep (covered_machines table.now.machines.now) (table_in table.now.nodes.now) (search_node_in node.now)
        (paths_in (covered_machines table.now.machines.now) (search_node_in node.now) mode) }
    ensures targets { IfOk result
        (λ out. out.items ≡ lone_in (covered_machines table.now.machines.now) (table_in table.now.nodes.now)
        (search_node_in node.now) (mode_at (covered_machines table.now.machines.now) (search_node_in node.now))) }
    ensures few { IfOk result (λ out. length out.items ≤ most_branches) }
{
    let m = table.machines;
    match mode {
        Mode::Left => {
            let paths = paths(m.a, m.left, node.left);
            lone_targets(alloc, table, node, Side::Left, paths)
        }
        Mode::Right => {
            let paths = paths(m.b, m.right, node.right);
            lone_targets(alloc, table, node, Side::Right, paths)
        }
        Mode::Both | Mode::End => Ok(Vec::new(alloc)),
    }
}

/// For each node of a closed table where the moves lead by which one machine moves alone, there and at the target. The one
/// refusal is out of memory.
pub(crate) fn lone_moves(alloc: Global, table: &NodeTable<'_>) -> Result<Vec<Vec<u32>>, NoMemory>
    requires { IsClosed (covered_machines table.now.machines.now) (table_in table.now.nodes.now) }
    ensures edges { IfOk result
        (λ out. lists_in out.items ≡ graph_of (covered_machines table.now.machines.now) (table_in table.now.nodes.now)) }
    ensures short { IfOk result (λ out. AreShort (lists_in out.items)) }
{
    let mut out = Vec::new(alloc);
    for (place, node) in table.nodes.iter().enumerate() {
        out.push(targets_at(alloc, table, node, table.modes[place])?)?;
    }
    Ok(out)
}
