//! What holds at the first visits of pairs of points.

use cert_bisimulation::mode::Mode;
use fs_cut::cover::{Path, Point};
use nf_refutation::refutation::is_refuted;
use nf_rel::literals::NLit;
use nf_terms::stop::NoMemory;
use nf_terms::tree::Side;
use nf_vectors::vector::Vector;
use search_strengthening_claims::claims::claims_before;
use search_strengthening_claims::visited::VisitedPoints;
use search_strengthening_claims::weeding::weed;
use search_strengthening_equations::equations::add_equations;
use search_strengthening_tables::flags::{Flags, flags_at};
use search_strengthening_tables::nodes::ClaimedNode;
use search_strengthening_tables::sides::{Covered, Sides};
use search_strengthening_terms::stop::{Stop, unless_stopped};
use search_strengthening_terms::work::Work;
use std::alloc::Global;
use std::collections::VecDeque;
use sym_facts::fact::copied_literals;
use sym_facts::start::start_fact;
use sym_paths::execution::{Post, execute};

// The most walks that go on.
const WALK_LIMIT: u32 = 256;

// The most visits of two points.
const VISIT_LIMIT: usize = 6;

// A run of both machines over the symbols of the start, up to two points.
#[derive(Drop)]
struct Walk {
    left: Point,
    right: Point,
    post: Post,
}

// Two points with what has held at their visits, and what each position was there.
#[derive(Drop)]
struct Visits {
    points: VisitedPoints,
    vectors: Vec<Vector>,
}

// What both machines begin with.
fn first_walk(alloc: Global, sides: &Sides<'_>) -> Result<Walk, NoMemory> {
    let fact = start_fact(alloc, sides.pairing)?;
    let vector = fact.vector(alloc)?;
    Ok(Walk {
        left: Point::Start,
        right: Point::Start,
        post: Post {
            conds: Vec::new(alloc),
            vector,
        },
    })
}

// A walk that begins at a node, with what its fact says.
fn walk_from(alloc: Global, node: &ClaimedNode) -> Result<Walk, NoMemory> {
    Ok(Walk {
        left: node.left,
        right: node.right,
        post: Post {
            conds: copied_literals(alloc, node.fact.conds())?,
            vector: node.fact.vector(alloc)?,
        },
    })
}

// The walks that begin at nodes, or where both machines do, if there is no node.
fn first_walks(
    alloc: Global,
    sides: &Sides<'_>,
    settled: &[ClaimedNode],
) -> Result<VecDeque<Walk>, NoMemory> {
    let mut walks = VecDeque::new(alloc);
    for node in settled {
        walks.push_back(walk_from(alloc, node)?)?;
    }
    if settled.is_empty() {
        walks.push_back(first_walk(alloc, sides)?)?;
    }
    Ok(walks)
}

// What comes of a vector by a path of a side, or nothing where an operation meets a limit; a side without a path stays.
fn post_of(
    alloc: Global,
    machine: &Covered<'_>,
    path: Option<&Path>,
    side: Side,
    v: &Vector,
) -> Result<Option<Post>, NoMemory> {
    match path {
        Some(path) => unless_stopped(execute(alloc, machine.machine, path, side, v)),
        None => Ok(Some(Post {
            conds: Vec::new(alloc),
            vector: v.try_clone(alloc)?,
        })),
    }
}

// Literals, and then others that are moved.
fn with_more(alloc: Global, conds: &[NLit], more: &mut Vec<NLit>) -> Result<Vec<NLit>, NoMemory> {
    let mut out = copied_literals(alloc, conds)?;
    out.append(more)?;
    Ok(out)
}

// What comes of a post by a path of a side.
fn post_after(
    alloc: Global,
    machine: &Covered<'_>,
    path: Option<&Path>,
    side: Side,
    post: &Post,
) -> Result<Option<Post>, NoMemory> {
    match post_of(alloc, machine, path, side, &post.vector)? {
        Some(Post { mut conds, vector }) => Ok(Some(Post {
            conds: with_more(alloc, post.conds.as_slice(), &mut conds)?,
            vector,
        })),
        None => Ok(None),
    }
}

// What comes of a post by paths of both sides.
fn post_after_both(
    alloc: Global,
    sides: &Sides<'_>,
    left: Option<&Path>,
    right: Option<&Path>,
    post: &Post,
) -> Result<Option<Post>, NoMemory> {
    match post_after(alloc, &sides.left, left, Side::Left, post)? {
        Some(half) => post_after(alloc, &sides.right, right, Side::Right, &half),
        None => Ok(None),
    }
}

// What has held at visits of two points, before this one.
fn visited_before(
    alloc: Global,
    sides: &Sides<'_>,
    visited: &mut Vec<Visits>,
    left: Point,
    right: Point,
    post: &Post,
) -> Result<usize, NoMemory> {
    for (place, known) in visited.iter().enumerate() {
        if known.points.left.is_same(left) && known.points.right.is_same(right) {
            return Ok(place);
        }
    }
    let live = sides.live_positions(alloc, left, right)?;
    let claims = claims_before(alloc, &sides.universe, &live, post, sides.pairing)?;
    let place = visited.len();
    visited.push(Visits {
        points: VisitedPoints {
            left,
            right,
            claims,
        },
        vectors: Vec::new(alloc),
    })?;
    Ok(place)
}

// Weeds what has held at visits of two points by a visit. Answers whether they are not visited often enough yet.
fn weed_visited(
    alloc: Global,
    sides: &Sides<'_>,
    work: &mut Work,
    known: &mut Visits,
    post: &Post,
) -> Result<bool, Stop> {
    if known.vectors.len() >= VISIT_LIMIT {
        return Ok(false);
    }
    known.vectors.push(post.vector.try_clone(alloc)?)?;
    let count = sides.pairing.positions().len();
    weed(
        alloc,
        work,
        &sides.universe,
        count,
        &mut known.points.claims,
        post,
    )?;
    Ok(true)
}

// Notes a visit. Answers whether the walk goes on.
fn note_visit(
    alloc: Global,
    sides: &Sides<'_>,
    work: &mut Work,
    visited: &mut Vec<Visits>,
    left: Point,
    right: Point,
    post: &Post,
) -> Result<bool, Stop> {
    let place = visited_before(alloc, sides, visited, left, right, post)?;
    match visited.get_mut(place) {
        Some(known) => weed_visited(alloc, sides, work, known, post),
        None => Ok(false),
    }
}

// The point to which a side comes.
fn end_of(from: Point, path: Option<&Path>) -> Point {
    match path {
        Some(path) => path.to,
        None => from,
    }
}

// Arrives at two points, unless what arrives is refuted, and goes on from there later, unless they were visited often enough.
fn arrive_at(
    alloc: Global,
    sides: &Sides<'_>,
    work: &mut Work,
    left: Point,
    right: Point,
    post: Post,
    walks: &mut VecDeque<Walk>,
    visited: &mut Vec<Visits>,
) -> Result<(), Stop> {
    if is_refuted(alloc, post.conds.as_slice())?
        || !note_visit(alloc, sides, work, visited, left, right, &post)?
    {
        return Ok(());
    }
    walks.push_back(Walk { left, right, post })?;
    Ok(())
}

// Goes on from a walk by paths.
fn take_paths(
    alloc: Global,
    sides: &Sides<'_>,
    work: &mut Work,
    walk: &Walk,
    left: Option<&Path>,
    right: Option<&Path>,
    walks: &mut VecDeque<Walk>,
    visited: &mut Vec<Visits>,
) -> Result<(), Stop> {
    let (left_end, right_end) = (end_of(walk.left, left), end_of(walk.right, right));
    match post_after_both(alloc, sides, left, right, &walk.post)? {
        Some(post) => arrive_at(
            alloc, sides, work, left_end, right_end, post, walks, visited,
        ),
        None => Ok(()),
    }
}

// Goes on from a walk by a left path.
fn take_left(
    alloc: Global,
    sides: &Sides<'_>,
    work: &mut Work,
    walk: &Walk,
    mode: Mode,
    left: Option<&Path>,
    walks: &mut VecDeque<Walk>,
    visited: &mut Vec<Visits>,
) -> Result<(), Stop> {
    if mode == Mode::Left {
        return take_paths(alloc, sides, work, walk, left, None, walks, visited);
    }
    for right in sides.right.cover.from(walk.right) {
        take_paths(alloc, sides, work, walk, left, Some(right), walks, visited)?;
    }
    Ok(())
}

// Goes on from a walk in a mode.
fn go_on(
    alloc: Global,
    sides: &Sides<'_>,
    work: &mut Work,
    walk: &Walk,
    mode: Mode,
    walks: &mut VecDeque<Walk>,
    visited: &mut Vec<Visits>,
) -> Result<(), Stop> {
    if mode == Mode::Right {
        return take_left(alloc, sides, work, walk, mode, None, walks, visited);
    }
    for left in sides.left.cover.from(walk.left) {
        take_left(alloc, sides, work, walk, mode, Some(left), walks, visited)?;
    }
    Ok(())
}

// The mode of two points that had none: a side alone moves where the other one is done, or has had more ways on.
fn guessed_mode(flags: Flags) -> Mode {
    let left_stays = flags.left.is_done() || flags.many_left;
    let right_stays = flags.right.is_done() || flags.many_right;
    match (left_stays, right_stays) {
        (true, false) => Mode::Right,
        (false, true) => Mode::Left,
        _ => Mode::Both,
    }
}

// The mode in which a walk goes on: the one that its points had. None where both sides are done.
fn mode_at(sides: &Sides<'_>, flags: &[Flags], walk: &Walk) -> Option<Mode> {
    if walk.left.is_done() && walk.right.is_done() {
        return None;
    }
    let standing = sides.standing(walk.left, walk.right, 0);
    let flags = flags_at(flags, walk.left, walk.right, standing);
    match flags.mode {
        Some(mode) => Some(mode),
        None => Some(guessed_mode(flags)),
    }
}

// Goes on from walks, the first one first.
fn go_on_all(
    alloc: Global,
    sides: &Sides<'_>,
    work: &mut Work,
    flags: &[Flags],
    walks: &mut VecDeque<Walk>,
    visited: &mut Vec<Visits>,
) -> Result<(), Stop> {
    for _ in 0..WALK_LIMIT {
        let Some(walk) = walks.pop_front() else {
            return Ok(());
        };
        if let Some(mode) = mode_at(sides, flags, &walk) {
            go_on(alloc, sides, work, &walk, mode, walks, visited)?;
        }
    }
    Ok(())
}

// Adds the linear equations that hold at all visits of two points, and gives these.
fn with_equations(
    alloc: Global,
    sides: &Sides<'_>,
    work: &mut Work,
    visits: Visits,
) -> Result<VisitedPoints, Stop> {
    let Visits {
        mut points,
        vectors,
    } = visits;
    if vectors.len() > 1 {
        let positions = sides.pairing.positions();
        let vectors = vectors.as_slice();
        add_equations(
            alloc,
            work,
            &sides.universe,
            positions,
            vectors,
            &mut points.claims,
        )?;
    }
    Ok(points)
}

// The same of all points.
fn all_with_equations(
    alloc: Global,
    sides: &Sides<'_>,
    work: &mut Work,
    visited: Vec<Visits>,
) -> Result<Vec<VisitedPoints>, Stop> {
    let mut out = Vec::new(alloc);
    for visits in visited {
        out.push(with_equations(alloc, sides, work, visits)?)?;
    }
    Ok(out)
}

/// What holds at the first visits of pairs of points, in the modes that points have had, along runs of both machines: from each
/// of these nodes, over its free positions, or from the start where there is none; of numbers also which linear equations.
/// `Exhausted` comes where too little work is left.
pub fn visit_points(
    alloc: Global,
    sides: &Sides<'_>,
    flags: &[Flags],
    settled: &[ClaimedNode],
    work: &mut Work,
) -> Result<Vec<VisitedPoints>, Stop> {
    let mut walks = first_walks(alloc, sides, settled)?;
    let mut visited = Vec::new(alloc);
    go_on_all(alloc, sides, work, flags, &mut walks, &mut visited)?;
    all_with_equations(alloc, sides, work, visited)
}
