//! What the paths of a node give, each executed over its fact once.

use fs_ast::machine::Machine;
use fs_cut::cover::Path;
use nf_terms::stop::NoMemory;
use nf_terms::tree::Side;
use nf_vectors::vector::Vector;
use search_strengthening_tables::nodes::ClaimedNode;
use search_strengthening_tables::sides::Sides;
use search_strengthening_terms::stop::{Stop, within_limits};
use std::alloc::Global;
use sym_entailment::outcomes::{Outcome, are_refuted, join_outcomes, outcome_of};
use sym_facts::fact::Fact;
use sym_paths::execution::Post;

// What the path of a branch gives.
#[derive(Drop)]
struct BranchOutcome {
    branch: u32,
    outcome: Outcome,
}

/// What paths of the node that was looked at last give over its fact: of each side those that a move needed.
#[derive(Drop)]
pub struct NodeWays {
    version: Option<usize>,
    vector: Vector,
    lefts: Vec<BranchOutcome>,
    rights: Vec<BranchOutcome>,
}

impl NodeWays {
    /// No node was looked at. It takes no memory.
    pub fn new(alloc: Global) -> NodeWays {
        NodeWays {
            version: None,
            vector: Vector::new(alloc),
            lefts: Vec::new(alloc),
            rights: Vec::new(alloc),
        }
    }
}

// What the path of a branch gives, if it was executed.
fn find(outcomes: &[BranchOutcome], branch: u32) -> Option<&Outcome> {
    for entry in outcomes {
        if entry.branch == branch {
            return Some(&entry.outcome);
        }
    }
    None
}

// Sees that a path is executed.
fn see_path(
    alloc: Global,
    m: &Machine,
    path: &Path,
    side: Side,
    v: &Vector,
    outcomes: &mut Vec<BranchOutcome>,
) -> Result<(), NoMemory> {
    if find(outcomes.as_slice(), path.branch).is_none() {
        outcomes.push(BranchOutcome {
            branch: path.branch,
            outcome: outcome_of(alloc, m, path, side, v)?,
        })?;
    }
    Ok(())
}

// Whether what is kept is of a node.
fn are_of(ways: &NodeWays, node: &ClaimedNode) -> bool {
    match ways.version {
        Some(version) => version == node.version,
        None => false,
    }
}

// Sees that what is kept is of a node.
fn see_node(alloc: Global, ways: &mut NodeWays, node: &ClaimedNode) -> Result<(), NoMemory> {
    if !are_of(ways, node) {
        ways.version = None;
        ways.lefts.clear();
        ways.rights.clear();
        ways.vector = node.fact.vector(alloc)?;
        ways.version = Some(node.version);
    }
    Ok(())
}

// Sees that two paths of a node are executed.
fn see_paths(
    alloc: Global,
    sides: &Sides<'_>,
    ways: &mut NodeWays,
    node: &ClaimedNode,
    left: &Path,
    right: &Path,
) -> Result<(), NoMemory> {
    see_node(alloc, ways, node)?;
    let (a, b) = (sides.left.machine, sides.right.machine);
    let v = &ways.vector;
    see_path(alloc, a, left, Side::Left, v, &mut ways.lefts)?;
    see_path(alloc, b, right, Side::Right, v, &mut ways.rights)
}

// What two outcomes over a fact leave together, unless they are refuted. `Bound` comes where one of them is an event.
fn open_post(
    alloc: Global,
    fact: &Fact,
    left: &Outcome,
    right: &Outcome,
) -> Result<Option<Post>, Stop> {
    if within_limits(are_refuted(alloc, fact, left, right))? {
        return Ok(None);
    }
    match within_limits(join_outcomes(alloc, fact, left, right)) {
        Ok(post) => Ok(Some(post)),
        Err(stop) => Err(stop),
    }
}

/// What arrives from a node by two paths, unless it is refuted. `Bound` comes where an operation meets a limit.
pub fn post_by_ways(
    alloc: Global,
    sides: &Sides<'_>,
    ways: &mut NodeWays,
    node: &ClaimedNode,
    left: &Path,
    right: &Path,
) -> Result<Option<Post>, Stop> {
    see_paths(alloc, sides, ways, node, left, right)?;
    let Some(left) = find(ways.lefts.as_slice(), left.branch) else {
        return Err(Stop::Bound);
    };
    let Some(right) = find(ways.rights.as_slice(), right.branch) else {
        return Err(Stop::Bound);
    };
    open_post(alloc, &node.fact, left, right)
}
