//! Moves, made again.

ghost use Rattle.std.specs.Prelude.{◌≡◌, IfOk, OnOk, Ok, slice_get, slice_set};
ghost use Rattle.fs_cut.specs.View.{point_of};
ghost use Rattle.nf_terms.specs.Computed.{Answers};
ghost use Rattle.sym_paths.specs.View.{answer_in_data, post_in};
ghost use Rattle.sym_facts.specs.Pairings.{IsFactOf};
ghost use Rattle.search_tables.specs.SearchTables.{Unknown, Known, node_target};
ghost use Rattle.search_tables.specs.View.{search_node_in, table_in};
ghost use Rattle.show_move_lines.specs.MoveReplays.{turn_at, turn_from, turn_by, turn_of_move, with_turn, AreOf, HasFactOf};
ghost use Rattle.show_move_lines.specs.View.{side_machines, turn_in};

use crate::points::{NumberedNode, find};
use crate::sides::{Sides, left_path, right_path};
use crate::turn::Turn;
use fs_cut::cover::Point;
use fs_pair::positions::Pairing;
use nf_terms::stop::{NfStop, NoMemory};
use propagate::joins::join;
use propagate::laws::{joined_facts_are_of_the_positions, rebased_facts_are_of_the_positions};
use propagate::rebases::rebase;
use search_tables::moves::Move;
use search_tables::nodes::SearchNode;
use show_fact_text::points::end_of;
use std::alloc::Global;
use sym_entailment::arrival::arrive;
use sym_entailment::entailment::entails;
use sym_paths::execution::Post;

// What a post does that arrives where no node stands.
fn make(alloc: Global, p: &Pairing, left: Point, right: Point, post: &Post) -> Result<Turn, NfStop>
    ensures answers { Answers (answer_in_data turn_in result)
        (turn_at p.now (point_of left) (point_of right) (post_in post.now) Unknown) }
    ensures fact { IfOk result (λ t. HasFactOf p.now (turn_in t)) }
{
    rebased_facts_are_of_the_positions();
    let fact = rebase(alloc, post, p)?;
    Ok(Turn::Makes { left, right, fact })
}

// What a post does that arrives where a node stands.
fn weaken(
    alloc: Global,
    p: &Pairing,
    left: Point,
    right: Point,
    target: &NumberedNode<'_>,
    post: Post,
) -> Result<Turn, NfStop>
    requires { IsFactOf p.now target.now.node.now.fact }
    ensures answers { Answers (answer_in_data turn_in result)
        (turn_at p.now (point_of left) (point_of right) (post_in post)
        (Known target.now.number (search_node_in target.now.node.now))) }
    ensures fact { IfOk result (λ t. HasFactOf p.now (turn_in t)) }
{
    joined_facts_are_of_the_positions();
    let missing = entails(alloc, &post, &target.node.fact)?;
    let fact = join(alloc, &target.node.fact, &post, &missing, p)?;
    Ok(Turn::Weakens {
        node: target.number,
        left: target.node.left,
        right: target.node.right,
        post,
        missing,
        fact,
    })
}

// What a post does that arrives at two points.
fn turn_at(
    alloc: Global,
    p: &Pairing,
    nodes: &[SearchNode],
    left: Point,
    right: Point,
    post: Post,
) -> Result<Turn, NfStop>
    requires { AreOf p.now (table_in nodes.now) }
    ensures answers { Answers (answer_in_data turn_in result)
        (turn_at p.now (point_of left) (point_of right) (post_in post)
        (node_target (table_in nodes.now) (point_of left) (point_of right))) }
    ensures fact { IfOk result (λ t. HasFactOf p.now (turn_in t)) }
{
    match find(nodes, left, right) {
        Some(target) => weaken(alloc, p, left, right, &target, post),
        None => make(alloc, p, left, right, &post),
    }
}

// What a move from a node does.
fn turn_from(
    alloc: Global,
    m: &Sides<'_>,
    nodes: &[SearchNode],
    node: &SearchNode,
    at: Move,
) -> Result<Turn, NfStop>
    requires { AreOf m.now.pairing.now (table_in nodes.now) }
    ensures answers { Answers (answer_in_data turn_in result)
        (turn_from m.now.pairing.now (side_machines m.now) (table_in nodes.now) (search_node_in node.now) at) }
    ensures fact { IfOk result (λ t. HasFactOf m.now.pairing.now (turn_in t)) }
{
    let left = left_path(m, node.left, at.left);
    let right = right_path(m, node.right, at.right);
    let post = arrive(alloc, m.left, m.right, &node.fact, left, right)?;
    turn_at(
        alloc,
        m.pairing,
        nodes,
        end_of(node.left, left),
        end_of(node.right, right),
        post,
    )
}

// What a move of its node does.
fn turn_by(alloc: Global, m: &Sides<'_>, nodes: &[SearchNode], at: Move) -> Result<Turn, NfStop>
    requires { AreOf m.now.pairing.now (table_in nodes.now) }
    ensures answers { Answers (answer_in_data turn_in result)
        (turn_by m.now.pairing.now (side_machines m.now) (table_in nodes.now) at (slice_get (table_in nodes.now) at.node)) }
    ensures fact { IfOk result (λ t. HasFactOf m.now.pairing.now (turn_in t)) }
{
    match nodes.get(at.node as usize) {
        Some(node) => turn_from(alloc, m, nodes, node, at),
        None => Ok(Turn::Idle),
    }
}

/// What a move does to a table. The one refusal is out of memory.
pub fn turn(alloc: Global, m: &Sides<'_>, nodes: &[SearchNode], at: Move) -> Result<Turn, NoMemory>
    requires { AreOf m.now.pairing.now (table_in nodes.now) }
    ensures turn { IfOk result (λ t. turn_in t ≡ turn_of_move m.now.pairing.now (side_machines m.now) (table_in nodes.now) at) }
    ensures fact { IfOk result (λ t. HasFactOf m.now.pairing.now (turn_in t)) }
{
    match turn_by(alloc, m, nodes, at) {
        Ok(turn) => Ok(turn),
        Err(NfStop::Wide { .. }) => Ok(Turn::Idle),
        Err(NfStop::Large { .. }) => Ok(Turn::Idle),
        Err(NfStop::NoMemory) => Err(NoMemory),
    }
}

// Gives a node of a table another fact.
fn put(nodes: &mut Vec<SearchNode>, number: usize, node: SearchNode)
    ensures { table_in nodes.new.items ≡ slice_set (table_in nodes.old.items) number (search_node_in node) }
{
    if number < nodes.len() {
        nodes[number] = node;
    }
}

/// Makes a turn. The one refusal is out of memory.
pub fn make_turn(nodes: &mut Vec<SearchNode>, turn: Turn) -> Result<(), NoMemory>
    ensures { OnOk result (table_in nodes.new.items ≡ with_turn (table_in nodes.old.items) (turn_in turn)) }
{
    match turn {
        Turn::Idle => {}
        Turn::Makes { left, right, fact } => nodes.push(SearchNode { left, right, fact })?,
        Turn::Weakens {
            node,
            left,
            right,
            post: _post,
            missing: _missing,
            fact,
        } => put(nodes, node, SearchNode { left, right, fact }),
    }
    Ok(())
}

/// Makes a turn where what tells it is written. A refusal to write that is handed on; then nothing is made. The one refusal is
/// out of memory.
pub fn make_told(
    told: Result<(), NoMemory>,
    nodes: &mut Vec<SearchNode>,
    turn: Turn,
) -> Result<(), NoMemory>
    ensures told { OnOk result (told ≡ Ok tt) }
    ensures table { OnOk result (table_in nodes.new.items ≡ with_turn (table_in nodes.old.items) (turn_in turn)) }
{
    match told {
        Ok(()) => make_turn(nodes, turn),
        Err(refusal) => Err(refusal),
    }
}
