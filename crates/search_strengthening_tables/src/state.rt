//! The state of a search.

use crate::flags::{Flags, forget_all, forget_modes};
use crate::nodes::{ClaimedNode, Standing, count_at, first_in_components, place_for, units_of};
use crate::rules::Rule;
use crate::sides::Sides;
use fs_cut::cover::Point;
use nf_terms::stop::NoMemory;
use search_strengthening_cases::cases::Cases;
use search_strengthening_cases::kinds::CaseKind;
use search_strengthening_claims::claims::Claims;
use search_strengthening_claims::stop::Stop;
use search_strengthening_claims::visited::{VisitedPoints, claims_at};
use search_strengthening_claims::work::Work;
use std::alloc::Global;
use sym_facts::fact::Fact;
use sym_facts::start::start_fact;

// The most nodes at two points.
const NODES_AT_POINTS: usize = 12;

// How many nodes are added and weakened by one plan in a component at least.
const LEAST_CHANGES: usize = 64;

// The most times that a component of pairs of points is cleared.
const CLEARING_LIMIT: u32 = 64;

// The most units of a table.
const UNIT_LIMIT: u64 = 4_000_000;

// What was done in a component of pairs of points: the number of the plan that is tried there, how often nodes were added or
// weakened by it, and how often the component was cleared.
#[derive(Clone, Copy)]
struct Component {
    standing: Standing,
    plan: usize,
    changes: usize,
    clearings: u32,
}

/// How a component is closed: by which rule machines move there, by what its cases are told apart, and how many nodes at most are
/// added and weakened, for each point of the component and in all.
#[derive(Clone, Copy)]
pub struct Plan {
    pub rule: Rule,
    pub kind: CaseKind,
    pub changes_of_point: usize,
    pub most_changes: usize,
}

/// What was claimed at a node that was deleted.
#[derive(Drop)]
pub struct Remembered {
    left: Point,
    right: Point,
    standing: Standing,
    claims: Claims,
}

impl Remembered {
    // Whether the node stood at these points in this case.
    fn is_at(&self, left: Point, right: Point, case: usize) -> bool {
        self.standing.case == case && self.left.is_same(left) && self.right.is_same(right)
    }
}

/// The nodes of a table in order, what is kept of pairs of points, what visits before the search have shown, which versions of
/// facts stand in the table, and what was done so far.
#[derive(Drop)]
pub struct State {
    pub nodes: Vec<ClaimedNode>,
    pub flags: Vec<Flags>,
    pub visited: Vec<VisitedPoints>,
    pub cases: Cases,
    pub work: Work,
    plans: Vec<Plan>,
    remembers: bool,
    pub remembered: Vec<Remembered>,
    standing_versions: Vec<bool>,
    components: Vec<Component>,
    overfull: Option<Standing>,
    failing: Option<Standing>,
}

// No claims.
fn no_claims(alloc: Global) -> Claims {
    Claims {
        extras: Vec::new(alloc),
        classes: Vec::new(alloc),
        literals: Vec::new(alloc),
    }
}

// A node whose mode is not known.
fn new_node(
    alloc: Global,
    version: usize,
    points: (Point, Point),
    standing: Standing,
    source: Standing,
    claims: Claims,
    fact: Fact,
) -> ClaimedNode {
    let units = fact.size();
    ClaimedNode {
        left: points.0,
        right: points.1,
        standing,
        source,
        claims,
        fact,
        units,
        version,
        mode: None,
        moves: Vec::new(alloc),
    }
}

// The start node, which is no target of a move and so is never weakened.
fn start_node(alloc: Global, sides: &Sides<'_>) -> Result<ClaimedNode, NoMemory> {
    let fact = start_fact(alloc, sides.pairing)?;
    let points = (Point::Start, Point::Start);
    let standing = sides.standing(Point::Start, Point::Start, 0);
    Ok(new_node(alloc, 0, points, standing, standing, no_claims(alloc), fact))
}

/// The start node alone, with so much work left, the plans that are tried in each component, what visits before the search have
/// shown, and whether what was claimed at a node is remembered where it is deleted. The one refusal is out of
/// memory.
pub fn begin(
    alloc: Global,
    sides: &Sides<'_>,
    work: Work,
    plans: Vec<Plan>,
    visited: Vec<VisitedPoints>,
    remembers: bool,
) -> Result<State, NoMemory> {
    let mut nodes = Vec::new(alloc);
    nodes.push(start_node(alloc, sides)?)?;
    Ok(State {
        nodes,
        flags: Vec::new(alloc),
        visited,
        cases: Cases::new(alloc)?,
        work,
        plans,
        remembers,
        remembered: Vec::new(alloc),
        standing_versions: vec![in alloc; true; 1]?,
        components: Vec::new(alloc),
        overfull: None,
        failing: None,
    })
}

/// Whether the fact that had a version stands in the table.
pub fn stands(state: &State, version: usize) -> bool {
    state.standing_versions.get(version) == Some(&true)
}

// Notes that a fact is no longer in the table.
fn fall(versions: &mut [bool], version: usize) {
    if let Some(stands) = versions.get_mut(version) {
        *stands = false;
    }
}

// Remembers what was claimed at a node that is deleted, in place of what was claimed there before.
fn remember(all: &mut Vec<Remembered>, node: ClaimedNode) -> Result<(), NoMemory> {
    let ClaimedNode {
        left,
        right,
        standing,
        claims,
        ..
    } = node;
    for known in all.iter_mut() {
        if known.is_at(left, right, standing.case) {
            known.claims = claims;
            return Ok(());
        }
    }
    Ok(all.push(Remembered {
        left,
        right,
        standing,
        claims,
    })?)
}

// Deletes all nodes from a place on.
fn cut_from(state: &mut State, place: usize) -> Result<(), NoMemory> {
    for _ in place..state.nodes.len() {
        if let Some(node) = state.nodes.pop() {
            fall(&mut state.standing_versions, node.version);
            if state.remembers {
                remember(&mut state.remembered, node)?;
            }
        }
    }
    Ok(())
}

// Forgets what was claimed at deleted nodes of a component and of later ones.
fn forget_claims(all: &mut Vec<Remembered>, standing: Standing) {
    all.retain(|known| known.standing.is_in_earlier_components(standing));
}

/// What was claimed at two points in a case: at a node that was deleted, or else at visits before the search, which are made only
/// where all arrivals are one case.
pub fn known_claims<'s>(
    remembered: &'s [Remembered],
    visited: &'s [VisitedPoints],
    left: Point,
    right: Point,
    case: usize,
) -> Option<&'s Claims> {
    for known in remembered {
        if known.is_at(left, right, case) {
            return Some(&known.claims);
        }
    }
    claims_at(visited, left, right)
}

// What was done in the component of two points.
fn component_of(components: &[Component], standing: Standing) -> Component {
    for component in components {
        if component.standing.shares_components(standing) {
            return *component;
        }
    }
    Component {
        standing,
        plan: 0,
        changes: 0,
        clearings: 0,
    }
}

// Keeps what was done in a component. The one refusal is out of memory.
fn keep_component(components: &mut Vec<Component>, more: Component) -> Result<(), NoMemory> {
    for component in components.iter_mut() {
        if component.standing.shares_components(more.standing) {
            *component = more;
            return Ok(());
        }
    }
    Ok(components.push(more)?)
}

// A plan by its number.
fn plan_by(plans: &[Plan], number: usize) -> Plan {
    match plans.get(number) {
        Some(plan) => *plan,
        None => Plan {
            rule: Rule::AsksLessFirst,
            kind: CaseKind::none(),
            changes_of_point: 0,
            most_changes: 0,
        },
    }
}

/// The plan that is tried in the component of two points.
pub fn plan_at(state: &State, standing: Standing) -> Plan {
    let component = component_of(state.components.as_slice(), standing);
    plan_by(state.plans.as_slice(), component.plan)
}

// Forgets the mode and the moves of the start node.
fn reopen_start(nodes: &mut [ClaimedNode]) {
    if let Some(node) = nodes.get_mut(0) {
        node.mode = None;
        node.moves.clear();
    }
}

// Deletes the nodes of the component of two points, but the start node, and all behind them, and forgets what modes their points
// had.
fn empty_component(state: &mut State, standing: Standing) -> Result<(), NoMemory> {
    let place = first_in_components(state.nodes.as_slice(), standing);
    cut_from(state, place.max(1))?;
    forget_claims(&mut state.remembered, standing);
    if place == 0 {
        reopen_start(&mut state.nodes);
    }
    forget_modes(&mut state.flags, standing);
    Ok(())
}

/// Clears the component of two points, and all behind it: deletes their nodes but the start node, and forgets what modes their
/// points had. `Bound` comes at the 65th time.
pub fn clear(state: &mut State, standing: Standing) -> Result<(), Stop> {
    let mut component = component_of(state.components.as_slice(), standing);
    if component.clearings >= CLEARING_LIMIT {
        return Err(Stop::Bound);
    }
    component.clearings += 1;
    keep_component(&mut state.components, component)?;
    empty_component(state, standing)?;
    Ok(())
}

/// Clears the component of two points, and all behind it, and tries the next plan there. `Bound` comes behind the last one.
pub fn try_next_plan(state: &mut State, standing: Standing) -> Result<(), Stop> {
    let mut component = component_of(state.components.as_slice(), standing);
    component.plan = component.plan.saturating_add(1);
    state.failing = Some(standing);
    if component.plan >= state.plans.len() {
        return Err(Stop::Bound);
    }
    component.changes = 0;
    component.clearings = 0;
    keep_component(&mut state.components, component)?;
    empty_component(state, standing)?;
    forget_all(&mut state.flags, standing);
    Ok(())
}

/// The nodes before the component that has failed last, if one has, and what is kept of pairs of points.
pub fn settled_part(state: State) -> (Vec<ClaimedNode>, Vec<Flags>) {
    let State {
        mut nodes,
        flags,
        failing,
        ..
    } = state;
    if let Some(standing) = failing {
        nodes.truncate(first_in_components(nodes.as_slice(), standing));
    }
    (nodes, flags)
}

// The version of the next fact.
fn next_version(state: &State) -> usize {
    state.standing_versions.len()
}

// How many nodes at most are added and weakened in a component by its plan.
fn change_limit(component: &Component, plan: Plan) -> usize {
    component
        .standing
        .points
        .max(1)
        .saturating_mul(plan.changes_of_point)
        .max(LEAST_CHANGES)
        .min(plan.most_changes)
}

/// Where the component stands in which too much was changed by the last step, if there is one.
pub fn take_overfull(state: &mut State) -> Option<Standing> {
    state.overfull.take()
}

// Counts a change in the component of two points. `Bound` comes where there were as many as there may be, or the table has too
// many units.
fn count_change(state: &mut State, standing: Standing) -> Result<(), Stop> {
    let mut component = component_of(state.components.as_slice(), standing);
    let plan = plan_by(state.plans.as_slice(), component.plan);
    if component.changes >= change_limit(&component, plan)
        || units_of(state.nodes.as_slice()) > UNIT_LIMIT
    {
        state.overfull = Some(standing);
        return Err(Stop::Bound);
    }
    component.changes += 1;
    keep_component(&mut state.components, component)?;
    Ok(state.standing_versions.push(true)?)
}

// Puts a node in its place, and answers that. `Bound` comes where too much was changed, or the table has too many units.
fn insert(state: &mut State, node: ClaimedNode) -> Result<usize, Stop> {
    let standing = node.standing;
    let place = place_for(state.nodes.as_slice(), standing);
    state.nodes.insert(place, node)?;
    count_change(state, standing)?;
    Ok(place)
}

/// Adds a node of a case, which is reached from where this source stands, in its place, and answers that. `Bound` comes where too
/// many nodes stand at its points, too much was changed, or the table has too many units.
pub fn add(
    alloc: Global,
    sides: &Sides<'_>,
    state: &mut State,
    points: (Point, Point),
    case: usize,
    source: Standing,
    claims: Claims,
    fact: Fact,
) -> Result<usize, Stop> {
    if count_at(state.nodes.as_slice(), points.0, points.1) >= NODES_AT_POINTS {
        return Err(Stop::Bound);
    }
    let standing = sides.standing(points.0, points.1, case);
    let version = next_version(state);
    let node = new_node(alloc, version, points, standing, source, claims, fact);
    insert(state, node)
}

/// Gives the node at a place, which is reached from where this source stands, another fact, forgets its mode and its moves, and
/// deletes all nodes behind it. `Bound` comes where too much was changed, or the table has too many units.
pub fn change_fact(
    state: &mut State,
    place: usize,
    source: Standing,
    fact: Fact,
) -> Result<(), Stop> {
    let version = next_version(state);
    cut_from(state, place.saturating_add(1))?;
    let Some(node) = state.nodes.get_mut(place) else {
        return Ok(());
    };
    fall(&mut state.standing_versions, node.version);
    node.units = fact.size();
    node.fact = fact;
    node.version = version;
    node.source = source;
    node.mode = None;
    node.moves.clear();
    let standing = node.standing;
    count_change(state, standing)
}
