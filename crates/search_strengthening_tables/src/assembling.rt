//! The certificate of a closed table.

ghost use Rattle.std.specs.Prelude.{◌≡◌, ◌≤◌, map, IfOk, IfSome};
ghost use Rattle.std.specs.List.{AllByRecursion};
ghost use Rattle.fs_pair.specs.Positions.{positions};
ghost use Rattle.sym_facts.specs.Pairings.{IsFactOf};
ghost use Rattle.cert_model.specs.Lawful.{IsLawful};
ghost use Rattle.cert_model.specs.View.{node_of};
ghost use Rattle.cert_model.specs.Sizes.{units_of};

use crate::nodes::ClaimedNode;
use cert_model::cert::{Cert, Node};
use cert_model::lawful_nodes::{are_small, have_points, have_ranks};
use fs_ast::machine::Machine;
use fs_pair::positions::Pairing;
use nf_terms::form::Nf;
use nf_terms::stop::NoMemory;
use search_strengthening_claims::tested_facts::tested_fact;
use std::alloc::Global;
use sym_facts::fact::{Fact, FactPosition, copied_literals};

const NODE_LIMIT: usize = 4096;

// A copy of the equation of a position.
fn copied_equation(alloc: Global, position: &FactPosition) -> Result<Option<Nf>, NoMemory> {
    match position.form() {
        Some(form) => Ok(Some(form.try_clone(alloc)?)),
        None => Ok(None),
    }
}

// Copies of the equations of positions.
fn copied_equations(
    alloc: Global,
    positions: &[FactPosition],
) -> Result<Vec<Option<Nf>>, NoMemory> {
    let mut out = Vec::new(alloc);
    for position in positions {
        out.push(copied_equation(alloc, position)?)?;
    }
    Ok(out)
}

// The same fact, which is tested to be one of the pairing.
fn retested_fact(alloc: Global, p: &Pairing, fact: &Fact) -> Result<Option<Fact>, NoMemory>
    ensures { IfOk result (λ found. IfSome found (IsFactOf p.now)) }
{
    let equations = copied_equations(alloc, fact.positions())?;
    let literals = copied_literals(alloc, fact.conds())?;
    tested_fact(alloc, p, equations, literals)
}

// The node of a certificate for a node of a search.
fn certificate_node(
    alloc: Global,
    p: &Pairing,
    node: &ClaimedNode,
    rank: Option<&u32>,
) -> Result<Option<Node>, NoMemory>
    ensures { IfOk result (λ found. IfSome found (λ n. IsFactOf p.now n.fact)) }
{
    let (Some(mode), Some(rank)) = (node.mode, rank) else {
        return Ok(None);
    };
    match retested_fact(alloc, p, &node.fact)? {
        Some(fact) => Ok(Some(Node {
            left: node.left,
            right: node.right,
            mode,
            rank: *rank,
            fact,
        })),
        None => Ok(None),
    }
}

// The nodes of a certificate for those of a search.
fn certificate_nodes(
    alloc: Global,
    p: &Pairing,
    nodes: &[ClaimedNode],
    ranks: &[u32],
) -> Result<Option<Vec<Node>>, NoMemory>
    ensures { IfOk result (λ found. IfSome found (λ out. AllByRecursion (λ n. IsFactOf p.now n.fact) (map node_of out.items))) }
{
    let mut out = Vec::new(alloc);
    for (place, node) in nodes.iter().enumerate() {
        match certificate_node(alloc, p, node, ranks.get(place))? {
            Some(made) => out.push(made)?,
            None => return Ok(None),
        }
    }
    Ok(Some(out))
}

/// The certificate of nodes with these ranks, where it is lawful, no two nodes stand at the same points, and it has at most
/// 4,000,000 units. The one refusal is out of memory.
pub fn assemble(
    alloc: Global,
    a: &Machine,
    b: &Machine,
    p: &Pairing,
    nodes: &[ClaimedNode],
    ranks: &[u32],
) -> Result<Option<Cert>, NoMemory>
    requires { p.now ≡ positions a.now b.now }
    ensures lawful { IfOk result (λ found. IfSome found (λ c. IsLawful a.now b.now (map node_of c.nodes.items))) }
    ensures small { IfOk result (λ found. IfSome found (λ c. units_of (map node_of c.nodes.items) ≤ 4000000)) }
{
    let Some(made) = certificate_nodes(alloc, p, nodes, ranks)? else {
        return Ok(None);
    };
    let all = made.as_slice();
    if all.len() > NODE_LIMIT || !have_points(a, b, all) || !have_ranks(all) || !are_small(all) {
        return Ok(None);
    }
    Ok(Some(Cert { nodes: made }))
}
