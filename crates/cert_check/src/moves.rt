//! The moves of a node.

ghost use Rattle.std.specs.Prelude.{◌≡◌, ◌+◌, ◌*◌, ◌<◌, ◌≤◌, ◌^◌, cond, length, map, option_map, IfOk, Some, None};
ghost use Rattle.std.specs.List.{flat_map};
ghost use Rattle.fs_model.specs.Limits.{most_branches};
ghost use Rattle.fs_cut.specs.View.{point_of, path_of};
ghost use Rattle.nf_terms.specs.Computed.{Answers, Done};
ghost use Rattle.sym_paths.specs.Execution.{end_of};
ghost use Rattle.sym_paths.specs.View.{post_in};
ghost use Rattle.sym_facts.specs.Literals.{is_refuted as refuted};
ghost use Rattle.fs_model.specs.declared.sides.Side.TheVariants.{Left};
ghost use Rattle.sym_entailment.specs.Outcomes.{way_in};
ghost use Rattle.cert_model.specs.Obligations.{first_missing, judge_target, nodes_at, reaches};
ghost use Rattle.cert_model.specs.View.{node_of};
ghost use Rattle.cert_check.specs.Progress.{progress_from};
ghost use Rattle.cert_check.specs.View.{progress_in, index_nodes, reached_in, falls_from, move_in, ways_in, way_of};
ghost use Rattle.cert_check.specs.View.{NumberUpTo};

use crate::lookup::nodes_at;
use crate::progress::{Progress, advance};
use crate::table::Table;
use cert_bisimulation::ranks::rank_falls;
use cert_model::cert::Node;
use cert_model::reason::Reason;
use fs_cut::cover::{Path, Point};
use nf_refutation::refutation::is_refuted;
use nf_terms::stop::{NfStop, NoMemory};
use nf_terms::tree::Side;
use nf_vectors::vector::Vector;
use std::alloc::Global;
use sym_entailment::arrival::arrive;
use sym_entailment::entailment::entails;
use sym_entailment::laws::outcomes_tell_refuted_arrivals;
use sym_entailment::outcomes::{Way, are_refuted, outcome_of, ways};
use sym_paths::execution::Post;

// The first that is missing, and then whether the rank falls.
fn first_missing(equations: &[u32], literals: &[u32], falls: bool) -> Option<Reason>
    ensures { result ≡ first_missing equations.now literals.now falls }
{
    if let Some(place) = equations.first() {
        return Some(Reason::Equation { place: *place });
    }
    if let Some(index) = literals.first() {
        return Some(Reason::Condition { index: *index });
    }
    if falls { None } else { Some(Reason::Rank) }
}

// Why a post does not reach a node: an equation or a literal that is not entailed, or a rank that does not fall.
fn judge_target(
    alloc: Global,
    post: &Post,
    target: &Node,
    falls: bool,
) -> Result<Option<Reason>, NfStop>
    ensures { Answers result
        (judge_target (post_in post.now) (node_of target.now) falls) }
{
    let missing = entails(alloc, post, &target.fact)?;
    Ok(first_missing(
        missing.equations.as_slice(),
        missing.conds.as_slice(),
        falls,
    ))
}

// Whether the rank falls from a node to a target, or the post is that of the start.
fn falls_from(from: Option<&Node>, target: &Node) -> bool
    ensures { result ≡ falls_from (option_map (λ n. node_of n.now) from.entry) (node_of target.now) }
{
    match from {
        Some(node) => rank_falls(node.mode, node.rank, target.mode, target.rank),
        None => true,
    }
}

// Why a post reaches none of the targets, which are tried in order: the reason of the first, or the given one where there is
// none.
fn judge_targets(
    alloc: Global,
    from: Option<&Node>,
    post: &Post,
    targets: &[&Node],
    none: Reason,
) -> Result<Option<Reason>, NfStop>
    ensures { Answers result
        (reaches none (map (λ t. node_of t.now) targets.now) (falls_from (option_map (λ n. node_of n.now) from.entry))
        (post_in post.now)) }
{
    let mut first = None;
    for target in targets {
        let missing = judge_target(alloc, post, target, falls_from(from, target))?;
        match missing {
            None => return Ok(None),
            Some(reason) => first = first.or(Some(reason)),
        }
    }
    Ok(first.or(Some(none)))
}

/// Why a post, which comes from a node or is that of the start, reaches none of the nodes at two points, which are tried in
/// order: the reason of the first, or the given one where none stands there.
pub fn judge_arrival(
    alloc: Global,
    table: &Table<'_>,
    from: Option<&Node>,
    post: &Post,
    left: Point,
    right: Point,
    none: Reason,
) -> Result<Option<Reason>, NfStop>
    ensures { Answers result
        (reaches none (nodes_at (index_nodes table.now.nodes) (point_of left) (point_of right))
        (falls_from (option_map (λ n. node_of n.now) from.entry)) (post_in post.now)) }
{
    match nodes_at(&table.nodes, left, right) {
        Some(targets) => judge_targets(alloc, from, post, targets.as_slice(), none),
        None => Ok(Some(none)),
    }
}

// Where a side comes to, which keeps its point where it stays.
fn end_of(point: Point, path: Option<&Path>) -> Point
    ensures { point_of result ≡ end_of (point_of point) (option_map (λ p. path_of p.now) path.entry) }
{
    match path {
        Some(path) => path.to,
        None => point,
    }
}

// Why what arrives at two points fails: no node stands there, or none is reached. What is refuted never fails.
fn judge_post(
    alloc: Global,
    table: &Table<'_>,
    node: &Node,
    post: &Post,
    left: Point,
    right: Point,
) -> Result<Option<Reason>, NfStop>
    ensures { Answers result
        (cond (refuted (post_in post.now).conditions) (Done None)
        (reached_in table.now (node_of node.now) (post_in post.now) (point_of left) (point_of right))) }
{
    if is_refuted(alloc, post.conds.as_slice())? {
        return Ok(None);
    }
    judge_arrival(
        alloc,
        table,
        Some(node),
        post,
        left,
        right,
        Reason::NoTarget,
    )
}

// Why a move fails. A refuted one does not.
fn judge_move(
    alloc: Global,
    table: &Table<'_>,
    node: &Node,
    left: Option<&Path>,
    right: Option<&Path>,
) -> Result<Option<Reason>, NfStop>
    ensures { Answers result
        (move_in table.now (node_of node.now) (option_map (λ p. path_of p.now) left.entry)
        (option_map (λ p. path_of p.now) right.entry)) }
{
    let post = arrive(alloc, table.a, table.b, &node.fact, left, right)?;
    let (left, right) = (end_of(node.left, left), end_of(node.right, right));
    judge_post(alloc, table, node, &post, left, right)
}

/// The moves of the left paths, where the right machine stays.
///
/// Answers where they lead, from the number of the first. The one refusal is out of memory.
pub fn left_moves(
    alloc: Global,
    table: &Table<'_>,
    node: &Node,
    lefts: &[Path],
    first: u32,
) -> Result<Progress, NoMemory>
    requires few { length lefts.now ≤ most_branches }
    requires low { first < 2 ^ 31 }
    ensures moves { IfOk result
        (λ p. progress_in p ≡ progress_from first
        (map (λ l. move_in table.now (node_of node.now) (Some l) None) (map path_of lefts.now))) }
    ensures bound { IfOk result (NumberUpTo (first + most_branches)) }
{
    let mut number = first;
    for left in lefts {
        match advance(number, judge_move(alloc, table, node, Some(left), None))? {
            Progress::Held(next) => number = next,
            Progress::Stopped(verdict) => return Ok(Progress::Stopped(verdict)),
        }
    }
    Ok(Progress::Held(number))
}

/// The moves of the right paths, each with the given left path, or where the left machine stays.
///
/// Answers where they lead, from the number of the first. The one refusal is out of memory.
pub fn right_moves(
    alloc: Global,
    table: &Table<'_>,
    node: &Node,
    left: Option<&Path>,
    rights: &[Path],
    first: u32,
) -> Result<Progress, NoMemory>
    requires few { length rights.now ≤ most_branches }
    requires low { first < 2 ^ 31 }
    ensures moves { IfOk result
        (λ p. progress_in p ≡ progress_from first
        (map (λ r. move_in table.now (node_of node.now) (option_map (λ l. path_of l.now) left.entry) (Some r))
        (map path_of rights.now))) }
    ensures bound { IfOk result (NumberUpTo (first + most_branches)) }
{
    let mut number = first;
    for right in rights {
        match advance(number, judge_move(alloc, table, node, left, Some(right)))? {
            Progress::Held(next) => number = next,
            Progress::Stopped(verdict) => return Ok(Progress::Stopped(verdict)),
        }
    }
    Ok(Progress::Held(number))
}

// The moves of each left path with each right one, each executed for each move.
fn move_pairs(
    alloc: Global,
    table: &Table<'_>,
    node: &Node,
    lefts: &[Path],
    rights: &[Path],
    first: u32,
) -> Result<Progress, NoMemory>
    requires few_left { length lefts.now ≤ most_branches }
    requires few_right { length rights.now ≤ most_branches }
    requires low { first < 2 ^ 30 }
    ensures moves { IfOk result
        (λ p. progress_in p ≡ progress_from first
        (flat_map (λ l. map (λ r. move_in table.now (node_of node.now) (Some l) (Some r)) (map path_of rights.now))
        (map path_of lefts.now))) }
    ensures bound { IfOk result (NumberUpTo (first + most_branches * most_branches)) }
{
    let mut number = first;
    for left in lefts {
        match right_moves(alloc, table, node, Some(left), rights, number)? {
            Progress::Held(next) => number = next,
            Progress::Stopped(verdict) => return Ok(Progress::Stopped(verdict)),
        }
    }
    Ok(Progress::Held(number))
}

// Why a move by two ways over the fact of a node fails. A refuted one does not, and is found by the ways alone.
fn judge_ways(
    alloc: Global,
    table: &Table<'_>,
    node: &Node,
    left: &Way<'_>,
    right: &Way<'_>,
) -> Result<Option<Reason>, NfStop>
    ensures { Answers result (ways_in table.now (node_of node.now) (way_in left.now) (way_in right.now)) }
{
    if are_refuted(alloc, &node.fact, &left.outcome, &right.outcome)? {
        return Ok(None);
    }
    judge_move(alloc, table, node, Some(left.path), Some(right.path))
}

// The moves of a left way with each right one. The one refusal is out of memory.
fn right_ways(
    alloc: Global,
    table: &Table<'_>,
    node: &Node,
    left: &Way<'_>,
    rights: &[Way<'_>],
    first: u32,
) -> Result<Progress, NoMemory>
    requires few { length rights.now ≤ most_branches }
    requires low { first < 2 ^ 31 }
    ensures moves { IfOk result
        (λ p. progress_in p ≡ progress_from first
        (map (λ r. ways_in table.now (node_of node.now) (way_in left.now) r) (map way_in rights.now))) }
    ensures bound { IfOk result (NumberUpTo (first + most_branches)) }
{
    let mut number = first;
    for right in rights {
        match advance(number, judge_ways(alloc, table, node, left, right))? {
            Progress::Held(next) => number = next,
            Progress::Stopped(verdict) => return Ok(Progress::Stopped(verdict)),
        }
    }
    Ok(Progress::Held(number))
}

// The moves of a left path, which is executed over a vector, with each right way. The one refusal is out of memory.
fn left_way(
    alloc: Global,
    table: &Table<'_>,
    node: &Node,
    v: &Vector,
    left: &Path,
    rights: &[Way<'_>],
    first: u32,
) -> Result<Progress, NoMemory>
    requires few { length rights.now ≤ most_branches }
    requires low { first < 2 ^ 31 }
    ensures moves { IfOk result
        (λ p. progress_in p ≡ progress_from first
        (map (λ r. ways_in table.now (node_of node.now) (way_of table.now.a.now Left v.now (path_of left.now)) r)
        (map way_in rights.now))) }
    ensures bound { IfOk result (NumberUpTo (first + most_branches)) }
{
    let outcome = outcome_of(alloc, table.a, left, Side::Left, v)?;
    let way = Way {
        path: left,
        outcome,
    };
    right_ways(alloc, table, node, &way, rights, first)
}

// The moves of each left path, executed over a vector, with each right way. The one refusal is out of memory.
fn left_ways(
    alloc: Global,
    table: &Table<'_>,
    node: &Node,
    v: &Vector,
    lefts: &[Path],
    rights: &[Way<'_>],
    first: u32,
) -> Result<Progress, NoMemory>
    requires few_left { length lefts.now ≤ most_branches }
    requires few_right { length rights.now ≤ most_branches }
    requires low { first < 2 ^ 30 }
    ensures moves { IfOk result
        (λ p. progress_in p ≡ progress_from first
        (flat_map (λ l. map (λ r. ways_in table.now (node_of node.now) (way_of table.now.a.now Left v.now l) r)
        (map way_in rights.now)) (map path_of lefts.now))) }
    ensures bound { IfOk result (NumberUpTo (first + most_branches * most_branches)) }
{
    let mut number = first;
    for left in lefts {
        match left_way(alloc, table, node, v, left, rights, number)? {
            Progress::Held(next) => number = next,
            Progress::Stopped(verdict) => return Ok(Progress::Stopped(verdict)),
        }
    }
    Ok(Progress::Held(number))
}

// The moves of each left path with each right one, each executed once. The one refusal is out of memory.
fn way_pairs(
    alloc: Global,
    table: &Table<'_>,
    node: &Node,
    lefts: &[Path],
    rights: &[Path],
    first: u32,
) -> Result<Progress, NoMemory>
    requires few_left { length lefts.now ≤ most_branches }
    requires few_right { length rights.now ≤ most_branches }
    requires low { first < 2 ^ 30 }
    ensures moves { IfOk result
        (λ p. progress_in p ≡ progress_from first
        (flat_map (λ l. map (λ r. move_in table.now (node_of node.now) (Some l) (Some r)) (map path_of rights.now))
        (map path_of lefts.now))) }
    ensures bound { IfOk result (NumberUpTo (first + most_branches * most_branches)) }
{
    outcomes_tell_refuted_arrivals();
    let v = node.fact.vector(alloc)?;
    let rights = ways(alloc, table.b, rights, Side::Right, &v)?;
    left_ways(alloc, table, node, &v, lefts, rights.as_slice(), first)
}

/// The moves of each left path with each right one.
///
/// Answers where they lead, from the number of the first. The one refusal is out of memory.
pub fn both_moves(
    alloc: Global,
    table: &Table<'_>,
    node: &Node,
    lefts: &[Path],
    rights: &[Path],
    first: u32,
) -> Result<Progress, NoMemory>
    requires few_left { length lefts.now ≤ most_branches }
    requires few_right { length rights.now ≤ most_branches }
    requires low { first < 2 ^ 30 }
    ensures moves { IfOk result
        (λ p. progress_in p ≡ progress_from first
        (flat_map (λ l. map (λ r. move_in table.now (node_of node.now) (Some l) (Some r)) (map path_of rights.now))
        (map path_of lefts.now))) }
    ensures bound { IfOk result (NumberUpTo (first + most_branches * most_branches)) }
{
    if lefts.len() < 2 || rights.len() < 2 {
        move_pairs(alloc, table, node, lefts, rights, first)
    } else {
        way_pairs(alloc, table, node, lefts, rights, first)
    }
}
