//! The case to which a move leads.

ghost use Rattle.std.specs.Prelude.{◌≡◌, ◌++◌, Option, Some, None, IfOk, OnOk, length, map, option_map, ℕ};
ghost use Rattle.fs_cut.specs.View.{point_of, path_of};
ghost use Rattle.nf_terms.specs.Computed.{Computed, Answers};
ghost use Rattle.sym_paths.specs.View.{post_in};
ghost use Rattle.cert_model.specs.Obligations.{nodes_at};
ghost use Rattle.cert_model.specs.View.{node_of};
ghost use Rattle.search_tables.specs.SearchTables.{machines};
ghost use Rattle.show_certificate_lines.specs.MoveCases.{reaches_target, first_reached, reached_by, reached_case, without_event};
ghost use Rattle.show_certificate_lines.specs.MoveCases.{any_case_words, target_words, target_text, move_case, any_case};

use crate::cases::{nodes_at, write_case_words};
use cert_bisimulation::ranks::rank_falls;
use cert_model::cert::Node;
use fs_ast::machine::Machine;
use fs_cut::cover::{Path, Point};
use itoa::Buffer;
use nf_refutation::refutation::is_refuted;
use nf_terms::stop::{NfStop, NoMemory};
use show_fact_text::points::end_of;
use std::alloc::Global;
use sym_entailment::arrival::arrive;
use sym_entailment::entailment::entails;
use sym_paths::execution::Post;

// Whether a post, which comes from a node, reaches a target.
fn reaches_target(alloc: Global, from: &Node, post: &Post, target: &Node) -> Result<bool, NfStop>
    ensures { Answers result (reaches_target (node_of from.now) (post_in post.now) (node_of target.now)) }
{
    let missing = entails(alloc, post, &target.fact)?;
    let falls = rank_falls(from.mode, from.rank, target.mode, target.rank);
    Ok(missing.equations.is_empty() && missing.conds.is_empty() && falls)
}

// The number of the first target that a post reaches.
fn first_reached(
    alloc: Global,
    from: &Node,
    post: &Post,
    targets: &[&Node],
) -> Result<Option<usize>, NfStop>
    ensures { Answers result (first_reached 1
        (map (reaches_target (node_of from.now) (post_in post.now)) (map (λ t. node_of t.now) targets.now))) }
{
    for (place, target) in targets.iter().enumerate() {
        if reaches_target(alloc, from, post, target)? {
            return Ok(Some(place + 1));
        }
    }
    Ok(None)
}

// The number of the target that what arrives reaches. What is refuted reaches none.
fn reached_by(
    alloc: Global,
    from: &Node,
    post: &Post,
    targets: &[&Node],
) -> Result<Option<usize>, NfStop>
    ensures { Answers result
        (reached_by (node_of from.now) (map (λ t. node_of t.now) targets.now) (post_in post.now)) }
{
    if is_refuted(alloc, post.conds.as_slice())? {
        return Ok(None);
    }
    first_reached(alloc, from, post, targets)
}

// The number of the target that a move from a node reaches.
fn reached_case(
    alloc: Global,
    a: &Machine,
    b: &Machine,
    from: &Node,
    left: Option<&Path>,
    right: Option<&Path>,
    targets: &[&Node],
) -> Result<Option<usize>, NfStop>
    ensures { Answers result (reached_case (machines a.now b.now) (node_of from.now)
        (option_map (λ p. path_of p.now) left.entry) (option_map (λ p. path_of p.now) right.entry)
        (map (λ t. node_of t.now) targets.now)) }
{
    let post = arrive(alloc, a, b, &from.fact, left, right)?;
    reached_by(alloc, from, &post, targets)
}

// What was found, and none where an operation has an event.
fn without_event(found: Result<Option<usize>, NfStop>) -> Result<Option<usize>, NoMemory>
    ensures { (c : Computed (Option ℕ)) → Answers found c → IfOk result (λ k. k ≡ without_event c) }
{
    match found {
        Ok(found) => Ok(found),
        Err(NfStop::Wide { .. } | NfStop::Large { .. }) => Ok(None),
        Err(NfStop::NoMemory) => Err(NoMemory),
    }
}

// Adds that it is one of all cases.
#[tactic(auto, unfolding(crate::specs::MoveCases::any_case_words))]
fn write_any_case_words(out: &mut Vec<u8>, count: usize) -> Result<(), NoMemory>
    ensures { OnOk result (out.new.items ≡ out.old.items ++ any_case_words count) }
{
    let mut buffer = Buffer::new();
    out.extend_from_slice(b" one of ")?;
    out.extend_from_slice(buffer.format(count).as_bytes())?;
    out.extend_from_slice(b" cases")?;
    Ok(())
}

// Adds the case that is reached, or that it is one of all.
fn write_target_words(out: &mut Vec<u8>, found: Option<usize>, count: usize) -> Result<(), NoMemory>
    ensures { OnOk result (out.new.items ≡ out.old.items ++ target_words found count) }
{
    match found {
        Some(number) => write_case_words(out, number, count),
        None => write_any_case_words(out, count),
    }
}

// Adds which of several targets a move from a node reaches.
fn write_move_case_among(
    alloc: Global,
    out: &mut Vec<u8>,
    a: &Machine,
    b: &Machine,
    from: &Node,
    left: Option<&Path>,
    right: Option<&Path>,
    targets: &[&Node],
) -> Result<(), NoMemory>
    ensures { OnOk result (out.new.items ≡ out.old.items
        ++ target_text (without_event (reached_case (machines a.now b.now) (node_of from.now)
        (option_map (λ p. path_of p.now) left.entry) (option_map (λ p. path_of p.now) right.entry)
        (map (λ t. node_of t.now) targets.now))) (length targets.now)) }
{
    if targets.len() <= 1 {
        return Ok(());
    }
    let found = without_event(reached_case(alloc, a, b, from, left, right, targets))?;
    write_target_words(out, found, targets.len())
}

/// Adds the case to which a move from a node leads, where several nodes share the points there. The one refusal is out of memory.
pub fn write_move_case(
    alloc: Global,
    out: &mut Vec<u8>,
    a: &Machine,
    b: &Machine,
    nodes: &[Node],
    from: &Node,
    left: Option<&Path>,
    right: Option<&Path>,
) -> Result<(), NoMemory>
    ensures { OnOk result (out.new.items ≡ out.old.items
        ++ move_case (machines a.now b.now) (map node_of nodes.now) (node_of from.now)
        (option_map (λ p. path_of p.now) left.entry) (option_map (λ p. path_of p.now) right.entry)) }
{
    let (left_end, right_end) = (end_of(from.left, left), end_of(from.right, right));
    let targets = nodes_at(alloc, nodes, left_end, right_end)?;
    write_move_case_among(alloc, out, a, b, from, left, right, targets.as_slice())
}

/// Adds that it is one of the cases at two points, where several nodes share them. The one refusal is out of memory.
pub fn write_any_case(
    alloc: Global,
    out: &mut Vec<u8>,
    nodes: &[Node],
    left: Point,
    right: Point,
) -> Result<(), NoMemory>
    ensures { OnOk result (out.new.items ≡ out.old.items
        ++ any_case (nodes_at (map node_of nodes.now) (point_of left) (point_of right))) }
{
    let targets = nodes_at(alloc, nodes, left, right)?;
    if 1 < targets.len() {
        write_any_case_words(out, targets.len())?;
    }
    Ok(())
}
