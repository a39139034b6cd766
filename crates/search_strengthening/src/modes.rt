//! Which machines move at a node.

use cert_bisimulation::mode::Mode;
use fs_cut::cover::Point;
use nf_terms::stop::NoMemory;
use nf_terms::tree::Side;
use nf_vectors::vector::Vector;
use search_strengthening_facts::open_paths::{OpenPath, open_paths, some_meets_several};
use search_strengthening_tables::flags::{AsksLess, Flags, flags_at, keep};
use search_strengthening_tables::nodes::{ClaimedNode, NodeMove, Settled};
use search_strengthening_tables::rules::Rule;
use search_strengthening_tables::sides::{Covered, Sides};
use search_strengthening_tables::state::{State, clear, plan_at};
use search_strengthening_terms::stop::Stop;
use search_strengthening_terms::work::Work;
use std::alloc::Global;
use std::cmp::Ordering;

// Where both sides have several ways on, the one that asks less moves alone, unless the rule lets both move.
fn mode_by_asking(rule: Rule, asks_less: AsksLess) -> Mode {
    if rule == Rule::SeveralTogether {
        return Mode::Both;
    }
    match asks_less {
        AsksLess::Left => Mode::Left,
        AsksLess::Right => Mode::Right,
        AsksLess::Unknown | AsksLess::Mixed => Mode::Both,
    }
}

// A side alone moves where the other one has more ways on; where neither has, and one is at the head of a loop, the other one
// moves alone.
fn mode_by_ways(rule: Rule, flags: Flags, left_head: bool, right_head: bool) -> Mode {
    match (flags.many_left, flags.many_right) {
        (true, true) => mode_by_asking(rule, flags.asks_less),
        (true, false) => Mode::Right,
        (false, true) => Mode::Left,
        (false, false) => match (left_head, right_head) {
            (true, false) => Mode::Right,
            (false, true) => Mode::Left,
            _ => Mode::Both,
        },
    }
}

// Whether a point is the head of a loop of one path.
fn leads_to_itself(side: &Covered<'_>, point: Point) -> bool {
    for path in side.cover.from(point) {
        if path.to.is_same(point) {
            return true;
        }
    }
    false
}

// Whether in this mode a machine moves alone from the head of a loop to itself.
fn loops_alone(sides: &Sides<'_>, node: &ClaimedNode, mode: Mode) -> bool {
    match mode {
        Mode::Left => leads_to_itself(&sides.left, node.left),
        Mode::Right => leads_to_itself(&sides.right, node.right),
        Mode::Both | Mode::End => false,
    }
}

// What the one open path of a side does.
#[derive(Clone, Copy)]
enum Turn {
    // It leads to a point that stands in fewer loops.
    Leaves,
    // It leads to a point that stands in more loops.
    Enters,
    // It does neither, or there are several open paths.
    Stays,
}

// What the one open path of a side does that leads from a point to this one.
fn turn_of(side: &Covered<'_>, point: Point, end: Option<Point>) -> Turn {
    let Some(end) = end else {
        return Turn::Stays;
    };
    match side.loops.depth(end).cmp(&side.loops.depth(point)) {
        Ordering::Less => Turn::Leaves,
        Ordering::Greater => Turn::Enters,
        Ordering::Equal => Turn::Stays,
    }
}

// Where a machine stands in more loops than the other one, and its one way leaves a loop, it moves alone; or else the other one,
// where its one way enters one.
fn mode_by_loops(sides: &Sides<'_>, node: &ClaimedNode, flags: Flags) -> Mode {
    let (left, right) = (&sides.left, &sides.right);
    let left_turn = turn_of(left, node.left, flags.left_end);
    let right_turn = turn_of(right, node.right, flags.right_end);
    let (left_depth, right_depth) = (left.loops.depth(node.left), right.loops.depth(node.right));
    match (left_depth.cmp(&right_depth), left_turn, right_turn) {
        (Ordering::Greater, Turn::Leaves, _) => Mode::Left,
        (Ordering::Less, _, Turn::Leaves) => Mode::Right,
        (Ordering::Greater, _, Turn::Enters) => Mode::Right,
        (Ordering::Less, Turn::Enters, _) => Mode::Left,
        _ => Mode::Both,
    }
}

// The mode of a node at which neither machine is done, by the rule.
fn mode_by_rule(sides: &Sides<'_>, rule: Rule, node: &ClaimedNode, flags: Flags) -> Mode {
    if rule == Rule::AlwaysTogether {
        return mode_by_loops(sides, node, flags);
    }
    let left_head = sides.left.order.is_head(node.left);
    let right_head = sides.right.order.is_head(node.right);
    let mode = mode_by_ways(rule, flags, left_head, right_head);
    if rule == Rule::LoopsTogether && loops_alone(sides, node, mode) {
        Mode::Both
    } else {
        mode
    }
}

// The mode of a node with these flags: a side that is done does not move.
fn mode_of(sides: &Sides<'_>, rule: Rule, node: &ClaimedNode, flags: Flags) -> Mode {
    match (node.left.is_done(), node.right.is_done()) {
        (true, true) => Mode::End,
        (true, false) => Mode::Right,
        (false, true) => Mode::Left,
        (false, false) => mode_by_rule(sides, rule, node, flags),
    }
}

// Which machine asks less, by their open paths.
fn find_asks_less(
    alloc: Global,
    work: &mut Work,
    lefts: &[OpenPath],
    rights: &[OpenPath],
) -> Result<AsksLess, Stop> {
    let left = some_meets_several(alloc, work, lefts, rights)?;
    let right = some_meets_several(alloc, work, rights, lefts)?;
    Ok(match (left, right) {
        (true, true) => AsksLess::Mixed,
        (true, false) => AsksLess::Left,
        (false, true) => AsksLess::Right,
        (false, false) => AsksLess::Unknown,
    })
}

// Where the open path of a side leads that has had no more than this one.
fn only_end(many: bool, paths: &[OpenPath]) -> Option<Point> {
    match paths.first() {
        Some(path) if !many => Some(path.end()),
        _ => None,
    }
}

// What is known of the points of a node, with what its fact, with this vector, shows of them.
fn see_ways(
    alloc: Global,
    sides: &Sides<'_>,
    work: &mut Work,
    node: &ClaimedNode,
    v: &Vector,
    mut flags: Flags,
) -> Result<Flags, Stop> {
    let fact = &node.fact;
    let (a, c) = (sides.left.machine, &sides.left.cover);
    let lefts = open_paths(alloc, work, a, c, Side::Left, fact, v, node.left)?;
    let (b, d) = (sides.right.machine, &sides.right.cover);
    let rights = open_paths(alloc, work, b, d, Side::Right, fact, v, node.right)?;
    flags.many_left = flags.many_left || lefts.len() > 1;
    flags.many_right = flags.many_right || rights.len() > 1;
    flags.left_end = only_end(flags.many_left, lefts.as_slice());
    flags.right_end = only_end(flags.many_right, rights.as_slice());
    if flags.many_left && flags.many_right {
        let shown = find_asks_less(alloc, work, lefts.as_slice(), rights.as_slice())?;
        flags.asks_less = flags.asks_less.and(shown);
    }
    Ok(flags)
}

// What is kept of the points of a node, with what its fact shows of them where neither machine is done.
fn flags_of(
    alloc: Global,
    sides: &Sides<'_>,
    work: &mut Work,
    all: &[Flags],
    node: &ClaimedNode,
) -> Result<Flags, Stop> {
    let flags = flags_at(all, node.left, node.right, node.standing);
    if node.left.is_done() || node.right.is_done() {
        return Ok(flags);
    }
    let v = node.fact.vector(alloc)?;
    see_ways(alloc, sides, work, node, &v, flags)
}

// A move in a mode: the path of a side that does not move is left out.
fn open_move(mode: Mode, left: usize, right: usize) -> NodeMove {
    NodeMove {
        left: if mode == Mode::Right {
            None
        } else {
            Some(left)
        },
        right: if mode == Mode::Left {
            None
        } else {
            Some(right)
        },
        settled: Settled::Open,
    }
}

// Adds the moves of a left path in a mode, one for each of so many right paths.
fn add_moves(
    moves: &mut Vec<NodeMove>,
    mode: Mode,
    left: usize,
    rights: usize,
) -> Result<(), NoMemory> {
    for right in 0..rights {
        moves.push(open_move(mode, left, right))?;
    }
    Ok(())
}

// Adds the moves of so many left and right paths in a mode.
fn add_pairs(
    moves: &mut Vec<NodeMove>,
    mode: Mode,
    lefts: usize,
    rights: usize,
) -> Result<(), NoMemory> {
    for left in 0..lefts {
        add_moves(moves, mode, left, rights)?;
    }
    Ok(())
}

// How many left and right paths the moves of two points in a mode pair, where a side that does not move counts as one path.
fn path_counts(sides: &Sides<'_>, mode: Mode, left: Point, right: Point) -> (usize, usize) {
    let lefts = sides.left.cover.from(left).len();
    let rights = sides.right.cover.from(right).len();
    match mode {
        Mode::Both => (lefts, rights),
        Mode::Left => (lefts, 1),
        Mode::Right => (1, rights),
        Mode::End => (0, 0),
    }
}

// Gives the node at a place, which has no moves, its mode and the moves of that mode.
fn give_moves(sides: &Sides<'_>, state: &mut State, place: usize, mode: Mode) -> Result<(), Stop> {
    let Some(node) = state.nodes.get_mut(place) else {
        return Ok(());
    };
    node.mode = Some(mode);
    let (lefts, rights) = path_counts(sides, mode, node.left, node.right);
    add_pairs(&mut node.moves, mode, lefts, rights)?;
    state.work.spend(node.moves.len() as u64)
}

// Whether a mode is another one than points had, if they had one.
fn is_other(old: Option<Mode>, mode: Mode) -> bool {
    match old {
        Some(old) => old != mode,
        None => false,
    }
}

// The rule by which machines move at the node at a place.
fn rule_of(state: &State, place: usize) -> Option<Rule> {
    let node = state.nodes.get(place)?;
    Some(plan_at(state, node.standing).rule)
}

/// Sees that the node at a place has its mode and its moves. Where the mode is another one than its points had since their
/// components were last cleared, clears these. Answers whether it did.
pub fn see_mode(
    alloc: Global,
    sides: &Sides<'_>,
    state: &mut State,
    place: usize,
) -> Result<bool, Stop> {
    let Some(rule) = rule_of(state, place) else {
        return Ok(false);
    };
    let Some(node) = state.nodes.get(place) else {
        return Ok(false);
    };
    let mut flags = flags_of(alloc, sides, &mut state.work, state.flags.as_slice(), node)?;
    let mode = mode_of(sides, rule, node, flags);
    let clears = is_other(flags.mode, mode);
    flags.mode = Some(mode);
    keep(&mut state.flags, flags)?;
    if clears {
        clear(state, flags.standing)?;
    } else {
        give_moves(sides, state, place, mode)?;
    }
    Ok(clears)
}
