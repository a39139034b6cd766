//! Moves, tried.

ghost use Rattle.std.specs.Prelude.{◌≡◌, ◌+◌, ◌<◌, nat_le, cond, false, length, option_map, Some, None};
ghost use Rattle.fs_cut.specs.View.{point_of, path_of};
ghost use Rattle.nf_terms.specs.Computed.{Done};
ghost use Rattle.nf_rel.specs.Literals.{is_refuted as refuted};
ghost use Rattle.sym_paths.specs.Execution.{end_of as end};
ghost use Rattle.sym_paths.specs.View.{post_in};
ghost use Rattle.sym_facts.specs.Facts.{size_of_fact};
ghost use Rattle.sym_facts.specs.Entailment.{is_nothing as nothing};
ghost use Rattle.sym_facts.specs.View.{missing_in};
ghost use Rattle.search_tables.specs.SearchTables.{Table, units, most_units, within_units, node_target, look_up_target};
ghost use Rattle.search_tables.specs.SearchTables.{positions_of, effect_of_arrival};
ghost use Rattle.search_places.specs.NodeChanges.{StandsAt};
ghost use Rattle.search_worklist.specs.NodeUpdates.{put_fact};
ghost use Rattle.search_worklist.specs.NodeWays.{AreWays, AreKept};
ghost use Rattle.search_worklist.specs.Trials.{GivesChange, TellsChange, TellsTrial, TriesAt};
ghost use Rattle.search_worklist.specs.States.{records, table, IsMade};
ghost use Rattle.search_worklist.specs.View.{machines_in};

use crate::node_ways::{NodeWays, refutes};
use crate::sides::{Sides, left_paths, right_paths};
use crate::state::State;
use crate::trial::{TableChange, Trial};
use fs_cut::cover::{Path, Point};
use nf_refutation::refutation::is_refuted;
use nf_terms::stop::NfStop;
use propagate::joins::join;
use propagate::rebases::rebase;
use search_places::moves::path_by;
use search_places::nodes::{find, node_at};
use search_tables::moves::Move;
use search_tables::outcome::Budget;
use std::alloc::Global;
use sym_entailment::arrival::arrive;
use sym_entailment::entailment::entails;
use sym_entailment::laws::outcomes_tell_refuted_arrivals;
use sym_facts::entailment::Entail;
use sym_facts::fact::Fact;
use sym_paths::execution::Post;

const NODE_LIMIT: usize = 4096;

const UNIT_LIMIT: u64 = 4_000_000;

// The sum of two numbers of units, where it is within the budget.
fn units_with(rest: u64, more: u64) -> Option<u64>
    ensures { result ≡ cond (nat_le (rest + more) most_units) (Some (rest + more)) None }
{
    if rest <= UNIT_LIMIT && more <= UNIT_LIMIT - rest {
        Some(rest + more)
    } else {
        None
    }
}

// Gives the node at two points a fact, beside so many units of the other nodes.
fn give_fact(rest: u64, left: Point, right: Point, fact: Fact) -> Trial
    ensures { (T : Table) → rest + size_of_fact fact ≡ units (put_fact T (point_of left) (point_of right) fact)
        → GivesChange T (within_units (put_fact T (point_of left) (point_of right) fact)) result }
{
    match units_with(rest, fact.size()) {
        Some(units) => Trial::Changes(TableChange {
            left,
            right,
            fact,
            units,
        }),
        None => Trial::Exceeds(Budget::Units),
    }
}

// Whether nothing is missing.
fn is_nothing(miss: &Entail) -> bool
    ensures { result ≡ nothing (missing_in miss.now) }
{
    miss.equations.is_empty() && miss.conds.is_empty()
}

// A post that arrives at two points where no node stands.
fn try_new(
    alloc: Global,
    m: &Sides<'_>,
    state: &State,
    left: Point,
    right: Point,
    post: &Post,
) -> Result<Trial, NfStop>
    requires absent { StandsAt (records state.now) (point_of left) (point_of right) None }
    requires sized { state.now.units ≡ units (table state.now) }
    ensures { TellsChange (table state.now)
        (look_up_target (positions_of (machines_in m.now)) (table state.now) (point_of left) (point_of right) (post_in post.now)
        (node_target (table state.now) (point_of left) (point_of right))) result }
{
    if state.entries.len() >= NODE_LIMIT {
        return Ok(Trial::Exceeds(Budget::Nodes));
    }
    let fact = rebase(alloc, post, m.pairing)?;
    Ok(give_fact(state.units, left, right, fact))
}

// A post that arrives at two points where a node stands.
fn try_known(
    alloc: Global,
    m: &Sides<'_>,
    state: &State,
    left: Point,
    right: Point,
    number: usize,
    post: &Post,
) -> Result<Trial, NfStop>
    requires stands { StandsAt (records state.now) (point_of left) (point_of right) (Some number) }
    requires is_open { refuted (post_in post.now).conditions ≡ false }
    requires sized { state.now.units ≡ units (table state.now) }
    requires made { IsMade (machines_in m.now) (table state.now) }
    ensures { TellsTrial (table state.now) (point_of left) (point_of right) (post_in post.now)
        (look_up_target (positions_of (machines_in m.now)) (table state.now) (point_of left) (point_of right) (post_in post.now)
        (node_target (table state.now) (point_of left) (point_of right))) result }
{
    let target = node_at(&state.entries, number).entry;
    let miss = entails(alloc, post, &target.fact)?;
    if is_nothing(&miss) {
        return Ok(Trial::Entailed { target: number });
    }
    let fact = join(alloc, &target.fact, post, &miss, m.pairing)?;
    Ok(give_fact(state.units - target.fact.size(), left, right, fact))
}

// A post that arrives at two points.
fn try_arrival(
    alloc: Global,
    m: &Sides<'_>,
    state: &State,
    left: Point,
    right: Point,
    post: &Post,
) -> Result<Trial, NfStop>
    requires sized { state.now.units ≡ units (table state.now) }
    requires made { IsMade (machines_in m.now) (table state.now) }
    ensures { TellsTrial (table state.now) (point_of left) (point_of right) (post_in post.now)
        (effect_of_arrival (positions_of (machines_in m.now)) (table state.now) (point_of left) (point_of right)
        (Done (post_in post.now))) result }
{
    if is_refuted(alloc, post.conds.as_slice())? {
        return Ok(Trial::Refuted);
    }
    match find(&state.entries, left, right) {
        Some(number) => try_known(alloc, m, state, left, right, number, post),
        None => try_new(alloc, m, state, left, right, post),
    }
}

// Where a side comes to, which keeps its point where it stays.
fn end_of(point: Point, path: Option<&Path>) -> Point
    ensures { point_of result ≡ end (point_of point) (option_map (λ p. path_of p.now) path.entry) }
{
    match path {
        Some(path) => path.to,
        None => point,
    }
}

/// What a move of a node does to the table.
///
/// `Wide` and `Large` come exactly at the first operation that is not narrow, or narrow and not small: those of the paths come
/// first, then those of the comparison with the target's fact, and then those that make a fact. `NoMemory`: out of memory.
pub fn try_move(alloc: Global, m: &Sides<'_>, state: &State, at: Move) -> Result<Trial, NfStop>
    requires node { at.node < length (records state.now) }
    requires sized { state.now.units ≡ units (table state.now) }
    requires made { IsMade (machines_in m.now) (table state.now) }
    ensures { TriesAt (machines_in m.now) (records state.now) at result }
{
    let from = node_at(&state.entries, at.node as usize);
    let left = path_by(left_paths(m, from.points.left), at.left);
    let right = path_by(right_paths(m, from.points.right), at.right);
    let post = arrive(alloc, m.left, m.right, &from.entry.fact, left, right)?;
    let left = end_of(from.points.left, left);
    let right = end_of(from.points.right, right);
    try_arrival(alloc, m, state, left, right, &post)
}

// What a move does to the table, where the ways of its node tell, or else by its paths.
fn try_by_ways(
    alloc: Global,
    m: &Sides<'_>,
    state: &State,
    ways: &NodeWays<'_>,
    at: Move,
) -> Result<Trial, NfStop>
    requires node { at.node < length (records state.now) }
    requires same { at.node ≡ ways.now.node }
    requires sized { state.now.units ≡ units (table state.now) }
    requires made { IsMade (machines_in m.now) (table state.now) }
    requires kept { AreWays (machines_in m.now) (table state.now) ways.now }
    ensures { TriesAt (machines_in m.now) (records state.now) at result }
{
    outcomes_tell_refuted_arrivals();
    let from = node_at(&state.entries, at.node as usize);
    if refutes(alloc, &from.entry.fact, ways, at)? {
        return Ok(Trial::Refuted);
    }
    try_move(alloc, m, state, at)
}

/// As `try_move`, with the same refusals, by what is kept of the node: of paths that are known to be refuted together neither is
/// executed again.
pub fn try_kept(
    alloc: Global,
    m: &Sides<'_>,
    state: &State,
    kept: &Option<NodeWays<'_>>,
    at: Move,
) -> Result<Trial, NfStop>
    requires node { at.node < length (records state.now) }
    requires sized { state.now.units ≡ units (table state.now) }
    requires made { IsMade (machines_in m.now) (table state.now) }
    requires kept { AreKept (machines_in m.now) (table state.now) kept.now }
    ensures { TriesAt (machines_in m.now) (records state.now) at result }
{
    match kept {
        Some(ways) if ways.node == at.node => try_by_ways(alloc, m, state, ways, at),
        _ => try_move(alloc, m, state, at),
    }
}
