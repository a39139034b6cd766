//! The second search.

ghost use Rattle.std.specs.Prelude.{◌≡◌, ◌≤◌, None, map, IfOk, IfSome};
ghost use Rattle.fs_pair.specs.Interfaces.{interface_fault};
ghost use Rattle.fs_pair.specs.Positions.{positions};
ghost use Rattle.cert_model.specs.Lawful.{IsLawful};
ghost use Rattle.cert_model.specs.View.{node_of};
ghost use Rattle.cert_model.specs.Sizes.{units_of};

use crate::searching::{Closed, Found, search_by_plans, work_of};
use cert_model::cert::Cert;
use fs_ast::machine::Machine;
use fs_pair::positions::{FaceError, Pairing, same_interface};
use nf_terms::stop::NoMemory;
use search_strengthening_claims::visited::VisitedPoints;
use search_strengthening_tables::assembling::assemble;
use search_strengthening_tables::exchange::exchange_sides;
use search_strengthening_tables::flags::Flags;
use search_strengthening_tables::kinds::CaseKind;
use search_strengthening_tables::nodes::ClaimedNode;
use search_strengthening_tables::rules::Rule;
use search_strengthening_tables::sides::{Sides, sides_of};
use search_strengthening_tables::state::Plan;
use search_strengthening_terms::stop::Stop;
use search_strengthening_terms::work::Work;
use search_strengthening_visits::visits::visit_points;
use std::alloc::Global;

// The rules of who moves, in the order in which they are tried first.
const RULES: [Rule; 4] = [
    Rule::AsksLessFirst,
    Rule::SeveralTogether,
    Rule::AlwaysTogether,
    Rule::LoopsTogether,
];

// How many nodes at most are added and weakened in a component by one rule.
const MOST_CHANGES: usize = 256;

// How many a point of the component at first: most components close after few changes, so one that does not is left to the next
// rule first.
const FIRST_CHANGES: usize = 16;

// Adds the rules, a first one first, each as a plan.
fn add_plans(plans: &mut Vec<Plan>, first: Rule, changes_of_point: usize) -> Result<(), NoMemory> {
    let mut rule = first;
    for _ in &RULES {
        plans.push(Plan {
            rule,
            kind: CaseKind::none(),
            changes_of_point,
            most_changes: MOST_CHANGES,
        })?;
        rule = rule.next();
    }
    Ok(())
}

// Searches for a closed table of two machines with a first rule, after visits. It takes at most two thirds of the work that is
// left.
fn search_by_rule(
    alloc: Global,
    sides: &Sides<'_>,
    work: &mut Work,
    rule: Rule,
    visited: Vec<VisitedPoints>,
) -> Result<Found, NoMemory> {
    let most = work.left() / 3 * 2;
    let mut plans = Vec::new(alloc);
    add_plans(&mut plans, rule, FIRST_CHANGES)?;
    add_plans(&mut plans, rule, MOST_CHANGES)?;
    search_by_plans(alloc, sides, work, most, plans, visited, false)
}

// What visits show of pairs of points, in the modes that they have had, where the work is not used up.
fn visit(
    alloc: Global,
    sides: &Sides<'_>,
    work: &mut Work,
    flags: &[Flags],
    settled: &[ClaimedNode],
) -> Result<Option<Vec<VisitedPoints>>, NoMemory> {
    match visit_points(alloc, sides, flags, settled, work) {
        Ok(visited) => Ok(Some(visited)),
        Err(Stop::Bound | Stop::Exhausted) => Ok(None),
        Err(Stop::NoMemory) => Err(NoMemory),
    }
}

// The nodes from which visits go on behind a search with a first rule: those that it has settled, or none, and so the start, from
// which runs are exact and tell more of numbers.
fn visited_from(rule: Rule, settled: &[ClaimedNode]) -> &[ClaimedNode] {
    match rule {
        Rule::AsksLessFirst | Rule::AlwaysTogether => &[],
        Rule::SeveralTogether | Rule::LoopsTogether => settled,
    }
}

// A closed table of two machines, if one is found with a first rule, or by beginning anew with what visits show.
fn find_by_rule(
    alloc: Global,
    sides: &Sides<'_>,
    work: &mut Work,
    rule: Rule,
) -> Result<Option<Closed>, NoMemory> {
    let (flags, settled) = match search_by_rule(alloc, sides, work, rule, Vec::new(alloc))? {
        Found::Closed(closed) => return Ok(Some(closed)),
        Found::Open { flags, settled, .. } => (flags, settled),
    };
    let settled = visited_from(rule, settled.as_slice());
    let Some(visited) = visit(alloc, sides, work, flags.as_slice(), settled)? else {
        return Ok(None);
    };
    match search_by_rule(alloc, sides, work, rule, visited)? {
        Found::Closed(closed) => Ok(Some(closed)),
        Found::Open { .. } => Ok(None),
    }
}

// A closed table of two machines, if one is found with one of the rules as the first.
fn find_closed(
    alloc: Global,
    a: &Machine,
    b: &Machine,
    p: &Pairing,
) -> Result<Option<Closed>, NoMemory> {
    let sides = sides_of(alloc, a, b, p, false)?;
    let mut work = Work::of(work_of(&sides));
    for rule in RULES {
        if let Some(closed) = find_by_rule(alloc, &sides, &mut work, rule)? {
            return Ok(Some(closed));
        }
    }
    Ok(None)
}

// A closed table of exchanged machines, exchanged back, if one is found and no term meets a limit.
fn close_exchanged(
    alloc: Global,
    a: &Machine,
    b: &Machine,
    p: &Pairing,
) -> Result<Option<Closed>, NoMemory> {
    let exchanged = match same_interface(alloc, b, a) {
        Ok(exchanged) => exchanged,
        Err(FaceError::Interface { .. }) => return Ok(None),
        Err(FaceError::NoMemory) => return Err(NoMemory),
    };
    let Some(mut closed) = find_closed(alloc, b, a, &exchanged)? else {
        return Ok(None);
    };
    let is_made = exchange_sides(alloc, p, &mut closed.nodes)?;
    Ok(if is_made { Some(closed) } else { None })
}

// A closed table of two machines, as they are or else exchanged, if one is found.
fn close_either_way(
    alloc: Global,
    a: &Machine,
    b: &Machine,
    p: &Pairing,
) -> Result<Option<Closed>, NoMemory> {
    match find_closed(alloc, a, b, p)? {
        Some(closed) => Ok(Some(closed)),
        None => close_exchanged(alloc, a, b, p),
    }
}

/// Searches a second time for a certificate that two machines with the same interface have the same behaviour: for each pair of
/// points it keeps which terms have been equal at every arrival, and makes the facts anew of these. In each strongly connected
/// component of pairs of points one rule of who moves is tried after another, and all is tried on the machines exchanged, too.
///
/// What it finds is a lawful certificate of at most 4,000,000 units; whether its obligations hold is for a checker to say. It
/// finds none within the bounds of its work, or where outputs differ. The one refusal is out of memory.
pub fn strengthen(
    alloc: Global,
    a: &Machine,
    b: &Machine,
    p: &Pairing,
) -> Result<Option<Cert>, NoMemory>
    requires paired { p.now ≡ positions a.now b.now }
    requires interface { interface_fault a.now b.now ≡ None }
    ensures lawful { IfOk result (λ found. IfSome found (λ c. IsLawful a.now b.now (map node_of c.nodes.items))) }
    ensures small { IfOk result (λ found. IfSome found (λ c. units_of (map node_of c.nodes.items) ≤ 4000000)) }
{
    match close_either_way(alloc, a, b, p)? {
        Some(closed) => assemble(
            alloc,
            a,
            b,
            p,
            closed.nodes.as_slice(),
            closed.ranks.as_slice(),
        ),
        None => Ok(None),
    }
}
