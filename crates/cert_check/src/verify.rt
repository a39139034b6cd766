//! The checker.

ghost use Rattle.std.specs.Prelude.{◌≡◌, ◌+◌, ◌<◌, ◌≤◌, ◌^◌, ◌&&◌, true, length, map, IsTrue, IfOk, None};
ghost use Rattle.std.specs.List.{flat_map, list_all};
ghost use Rattle.fs_model.specs.Runs.{SameBehaviour};
ghost use Rattle.fs_cut.specs.Paths.{is_point};
ghost use Rattle.fs_cut.specs.View.{point_of};
ghost use Rattle.fs_pair.specs.Interfaces.{interface_fault};
ghost use Rattle.fs_pair.specs.Positions.{positions};
ghost use Rattle.nf_terms.specs.Computed.{Answers};
ghost use Rattle.sym_paths.specs.View.{post_in};
ghost use Rattle.sym_facts.specs.Starts.{start_fact as started};
ghost use Rattle.cert_bisimulation.specs.declared.mode.Mode.TheVariants.{End};
ghost use Rattle.cert_model.specs.Lawful.{IsLawful, most_nodes};
ghost use Rattle.cert_model.specs.Obligations.{verdict as verdict_on, obligations, judge_start as start_judged};
ghost use Rattle.cert_model.specs.Obligations.{is_done, mode_fits, judge_mode};
ghost use Rattle.cert_model.specs.View.{node_of};
ghost use Rattle.cert_check.specs.declared.verdict.Verdict.TheVariants.{Yes};
ghost use Rattle.cert_check.specs.Progress.{progress_from};
ghost use Rattle.cert_check.specs.View.{verdict_in, progress_in, index_nodes, owed_in, owed_moves, start_post, most_node_moves};
ghost use Rattle.cert_check.specs.View.{most_owed, NumberUpTo};

use crate::make_table::table_of;
use crate::moves::{both_moves, judge_arrival, left_moves, right_moves};
use crate::outputs::outputs;
use crate::progress::{Progress, advance, verdict};
use crate::table::Table;
use crate::verdict::Verdict;
use cert_bisimulation::mode::Mode;
use cert_model::cert::{Cert, Node};
use cert_model::covers::paths;
use cert_model::laws::obligations_give_same_behaviour;
use cert_model::reason::Reason;
use fs_ast::machine::Machine;
use fs_cut::cover::Point;
use fs_pair::positions::Pairing;
use nf_terms::stop::{NfStop, NoMemory};
use std::alloc::Global;
use sym_facts::start::start_fact;
use sym_paths::execution::Post;

// The start fact's vector, without conditions. The one refusal is out of memory.
fn post_of_start(alloc: Global, p: &Pairing) -> Result<Post, NoMemory>
    ensures { IfOk result (λ post. post_in post ≡ start_post (started p.now)) }
{
    let fact = start_fact(alloc, p)?;
    Ok(Post {
        conds: Vec::new(alloc),
        vector: fact.vector(alloc)?,
    })
}

// Why the start fails: no node stands there, or the fact of none is entailed by the start fact.
fn judge_start(alloc: Global, table: &Table<'_>, p: &Pairing) -> Result<Option<Reason>, NfStop>
    ensures { Answers result
        (start_judged (index_nodes table.now.nodes) (start_post (started p.now))) }
{
    let post = post_of_start(alloc, p)?;
    judge_arrival(
        alloc,
        table,
        None,
        &post,
        Point::Start,
        Point::Start,
        Reason::NoStartNode,
    )
}

// Whether a machine is done at a point.
fn is_done(point: Point) -> bool
    ensures { result ≡ is_done (point_of point) }
{
    match point {
        Point::Done => true,
        Point::Start | Point::At(_) => false,
    }
}

// Whether machines can move at two points as the mode says.
fn mode_fits(mode: Mode, left: Point, right: Point) -> bool
    ensures { result ≡ mode_fits mode (point_of left) (point_of right) }
{
    match mode {
        Mode::Both => !is_done(left) && !is_done(right),
        Mode::Left => !is_done(left),
        Mode::Right => !is_done(right),
        Mode::End => is_done(left) && is_done(right),
    }
}

// Why the mode of a node fails.
fn judge_mode(node: &Node) -> Result<Option<Reason>, NfStop>
    ensures { Answers result (judge_mode (node_of node.now)) }
{
    if mode_fits(node.mode, node.left, node.right) {
        Ok(None)
    } else {
        Ok(Some(Reason::Mode))
    }
}

// The outputs of a node where both machines are done.
fn check_outputs(
    alloc: Global,
    table: &Table<'_>,
    node: &Node,
    first: u32,
) -> Result<Progress, NoMemory>
    requires low { first < 2 ^ 30 }
    ensures moves { IfOk result (λ p. progress_in p ≡ progress_from first (owed_moves End table.now (node_of node.now))) }
    ensures bound { IfOk result (NumberUpTo (first + most_node_moves)) }
{
    let vector = node.fact.vector(alloc)?;
    outputs(alloc, &vector, table.a.vars(), table.b.vars(), first)
}

// The moves of a node, or its outputs, by its mode.
fn check_moves(
    alloc: Global,
    table: &Table<'_>,
    node: &Node,
    first: u32,
) -> Result<Progress, NoMemory>
    requires left { is_point table.now.a.now (point_of node.now.left) ≡ true }
    requires right { is_point table.now.b.now (point_of node.now.right) ≡ true }
    requires low { first < 2 ^ 30 }
    ensures moves { IfOk result
        (λ p. progress_in p ≡ progress_from first (owed_moves node.now.mode table.now (node_of node.now))) }
    ensures bound { IfOk result (NumberUpTo (first + most_node_moves)) }
{
    let lefts = paths(table.a, &table.left, node.left);
    let rights = paths(table.b, &table.right, node.right);
    match node.mode {
        Mode::Both => both_moves(alloc, table, node, lefts, rights, first),
        Mode::Left => left_moves(alloc, table, node, lefts, first),
        Mode::Right => right_moves(alloc, table, node, None, rights, first),
        Mode::End => check_outputs(alloc, table, node, first),
    }
}

// What a node owes: its mode, and then its moves or its outputs.
fn check_node(
    alloc: Global,
    table: &Table<'_>,
    node: &Node,
    first: u32,
) -> Result<Progress, NoMemory>
    requires points { is_point table.now.a.now (point_of node.now.left)
        && is_point table.now.b.now (point_of node.now.right) ≡ true }
    requires low { first + 1 < 2 ^ 30 }
    ensures owed { IfOk result (λ p. progress_in p ≡ progress_from first (owed_in table.now (node_of node.now))) }
    ensures bound { IfOk result (NumberUpTo (first + most_owed)) }
{
    match advance(first, judge_mode(node))? {
        Progress::Held(next) => check_moves(alloc, table, node, next),
        Progress::Stopped(verdict) => Ok(Progress::Stopped(verdict)),
    }
}

// What each node owes, in order.
fn check_nodes(
    alloc: Global,
    table: &Table<'_>,
    nodes: &[Node],
    first: u32,
) -> Result<Progress, NoMemory>
    requires points { IsTrue
        (list_all (λ n. is_point table.now.a.now n.left && is_point table.now.b.now n.right) (map node_of nodes.now)) }
    requires few { length nodes.now ≤ most_nodes }
    requires low { first ≤ 2 }
    ensures { IfOk result (λ p. progress_in p ≡ progress_from first (flat_map (owed_in table.now) (map node_of nodes.now))) }
{
    let mut number = first;
    for node in nodes {
        match check_node(alloc, table, node, number)? {
            Progress::Held(next) => number = next,
            Progress::Stopped(verdict) => return Ok(Progress::Stopped(verdict)),
        }
    }
    Ok(Progress::Held(number))
}

// All obligations, in order.
fn check_all(
    alloc: Global,
    table: &Table<'_>,
    p: &Pairing,
    nodes: &[Node],
) -> Result<Progress, NoMemory>
    requires nodes { index_nodes table.now.nodes ≡ map node_of nodes.now }
    requires points { IsTrue
        (list_all (λ n. is_point table.now.a.now n.left && is_point table.now.b.now n.right) (map node_of nodes.now)) }
    requires few { length nodes.now ≤ most_nodes }
    ensures { IfOk result
        (λ progress. progress_in progress ≡ progress_from 1
        (obligations table.now.a.now table.now.b.now (started p.now) (map node_of nodes.now))) }
{
    match advance(1, judge_start(alloc, table, p))? {
        Progress::Held(next) => check_nodes(alloc, table, nodes, next),
        Progress::Stopped(verdict) => Ok(Progress::Stopped(verdict)),
    }
}

// All obligations of two machines and of nodes, in order.
fn check<'m>(
    alloc: Global,
    a: &'m Machine,
    b: &'m Machine,
    p: &Pairing,
    nodes: &'m [Node],
) -> Result<Progress, NoMemory>
    requires { IsLawful a.now b.now (map node_of nodes.now) }
    ensures { IfOk result
        (λ progress. progress_in progress ≡ progress_from 1 (obligations a.now b.now (started p.now) (map node_of nodes.now))) }
{
    let table = table_of(alloc, a, b, nodes)?;
    check_all(alloc, &table, p, nodes)
}

/// Checks a lawful certificate of two machines with the same interface: goes through its obligations in order, up to the first
/// that does not hold.
///
/// `Yes` comes exactly where all hold, and then the machines have the same behaviour. `No`, `Wide` and `Large` come exactly where
/// all earlier obligations hold and this one fails, or has an operation that is not narrow, or one that is narrow and not small;
/// of the operations of an obligation the first event counts, and comes before a reason. The one refusal is out of memory.
pub fn verify(
    alloc: Global,
    a: &Machine,
    b: &Machine,
    p: &Pairing,
    c: &Cert,
) -> Result<Verdict, NoMemory>
    requires paired { p.now ≡ positions a.now b.now }
    requires interface { interface_fault a.now b.now ≡ None }
    requires lawful { IsLawful a.now b.now (map node_of c.now.nodes.items) }
    ensures verdict { IfOk result (λ v. verdict_in v ≡ verdict_on a.now b.now (started p.now) (map node_of c.now.nodes.items)) }
    ensures same { IfOk result (λ v. v ≡ Yes → SameBehaviour a.now b.now) }
{
    let _left = a.vars(); // These two calls tell the proof that both machines are sound.
    let _right = b.vars();
    obligations_give_same_behaviour();
    Ok(verdict(check(alloc, a, b, p, c.nodes.as_slice())?))
}
