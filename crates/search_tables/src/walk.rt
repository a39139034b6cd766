//! Depth-first search: each node gets its rank once its targets have theirs, or an edge leads back to the stack.

ghost use Rattle.std.specs.Prelude.{◌≡◌, ℕ, List, ◌<◌, ◌≤◌, ◌++◌, ◌∷◌, [], Some, length, drop, IfNone, IfSome, IfOk};
ghost use Rattle.std.specs.Prelude.{OnOk, slice_get, map};
ghost use Rattle.search_tables.specs.Graphs.{IsCycle, BeginsLeast};
ghost use Rattle.search_tables.specs.Walks.{AreRight, IsStack, InRange, NoneOpen, StepsWalk, Visits, IsRanking, lists_in};
ghost use Rattle.search_tables.specs.Walks.{frame_nodes, rank_of, ranks_in, walk_work};

use crate::least::least_cycle;
use crate::marks::{Frame, Mark};
use crate::memory::NoMemory;
use crate::ranking::Ranking;
use std::alloc::Global;

// Appends a frame.
fn push(stack: &mut Vec<Frame>, frame: Frame) -> Result<(), NoMemory>
    ensures { OnOk result (stack.new.items ≡ stack.old.items ++ frame ∷ []) }
{
    stack.push(frame)?;
    Ok(())
}

/// The target of this number, if the node has one.
pub(crate) fn target(edges: &[Vec<u32>], node: u32, number: usize) -> Option<u32>
    requires { node < length edges.now }
    ensures none { IfNone result ((js : List ℕ) → slice_get (lists_in edges.now) node ≡ Some js → length js ≤ number) }
    ensures some { IfSome result
        (λ j. (js : List ℕ) × (slice_get (lists_in edges.now) node ≡ Some js) × (slice_get js number ≡ Some j)) }
{
    edges[node as usize].get(number).copied()
}

// One turn of the walk, at the top of the stack.
fn turn(
    edges: &[Vec<u32>],
    marks: &mut Vec<Mark>,
    stack: &mut Vec<Frame>,
    top: Frame,
) -> Result<Option<usize>, NoMemory>
    requires range { InRange (lists_in edges.now) }
    requires right { AreRight (lists_in edges.now) marks.old.items }
    requires stack { IsStack (lists_in edges.now) marks.old.items (stack.old.items ++ top ∷ []) }
    ensures { IfOk result
        (StepsWalk (lists_in edges.now) marks.old.items marks.new.items stack.new.items
        (walk_work (lists_in edges.now) marks.old.items (stack.old.items ++ top ∷ []))) }
{
    match target(edges, top.node, top.next) {
        None => {
            marks[top.node as usize] = Mark::Ranked(top.best);
            Ok(None)
        }
        Some(next) => match marks[next as usize] {
            Mark::Ranked(rank) => {
                let best = top.best.max(rank + 1);
                push(
                    stack,
                    Frame {
                        node: top.node,
                        next: top.next + 1,
                        best,
                    },
                )?;
                Ok(None)
            }
            Mark::Open(depth) => {
                push(stack, top)?;
                Ok(Some(depth))
            }
            Mark::New => {
                push(stack, top)?;
                marks[next as usize] = Mark::Open(stack.len());
                push(
                    stack,
                    Frame {
                        node: next,
                        next: 0,
                        best: 0,
                    },
                )?;
                Ok(None)
            }
        },
    }
}

// The frames from a place on.
fn tail(stack: &[Frame], place: usize) -> &[Frame]
    ensures { result.now ≡ drop place stack.now }
{
    if place <= stack.len() {
        &stack[place..]
    } else {
        &[]
    }
}

// The nodes of frames.
fn nodes(alloc: Global, frames: &[Frame]) -> Result<Vec<u32>, NoMemory>
    ensures { IfOk result (λ v. v.items ≡ frame_nodes frames.now) }
{
    Ok(frames.iter().map(|frame| frame.node).collect(alloc)?)
}

// Gives a new node its rank, and those that it leads to, or finds a cycle.
fn visit(
    alloc: Global,
    edges: &[Vec<u32>],
    marks: &mut Vec<Mark>,
    root: u32,
) -> Result<Option<Vec<u32>>, NoMemory>
    requires range { InRange (lists_in edges.now) }
    requires right { AreRight (lists_in edges.now) marks.old.items }
    requires closed { NoneOpen marks.old.items }
    requires new { slice_get marks.old.items root ≡ Some Mark.New }
    ensures { IfOk result (Visits (lists_in edges.now) marks.old.items marks.new.items root) }
{
    let mut stack = Vec::new(alloc);
    marks[root as usize] = Mark::Open(0);
    push(
        &mut stack,
        Frame {
            node: root,
            next: 0,
            best: 0,
        },
    )?;
    'walk: loop {
        match stack.pop() {
            None => return Ok(None),
            Some(top) => {
                match turn(edges, marks, &mut stack, top)? {
                    Some(place) => {
                        return Ok(Some(nodes(alloc, tail(stack.as_slice(), place))?));
                    }
                    None => {}
                }
            }
        }
    }
}

// Sees that a node has its rank, or finds a cycle.
fn rank_root(
    alloc: Global,
    edges: &[Vec<u32>],
    marks: &mut Vec<Mark>,
    root: u32,
) -> Result<Option<Vec<u32>>, NoMemory>
    requires range { InRange (lists_in edges.now) }
    requires right { AreRight (lists_in edges.now) marks.old.items }
    requires closed { NoneOpen marks.old.items }
    requires root { root < length edges.now }
    ensures { IfOk result (Visits (lists_in edges.now) marks.old.items marks.new.items root) }
{
    match marks[root as usize] {
        Mark::New => visit(alloc, edges, marks, root),
        _ => Ok(None),
    }
}

// A mark for each node.
fn new_marks(alloc: Global, edges: &[Vec<u32>]) -> Result<Vec<Mark>, NoMemory>
    ensures { IfOk result (λ v. v.items ≡ map (λ _. Mark.New) edges.now) }
{
    Ok(edges.iter().map(|_| Mark::New).collect(alloc)?)
}

// The rank of a mark, and 0 where it has none.
fn rank_of(mark: Mark) -> u32
    ensures { result ≡ rank_of mark }
{
    match mark {
        Mark::Ranked(rank) => rank,
        Mark::New | Mark::Open(_) => 0,
    }
}

// The ranks of marks.
fn ranks_in(alloc: Global, marks: &[Mark]) -> Result<Vec<u32>, NoMemory>
    ensures { IfOk result (λ v. v.items ≡ ranks_in marks.now) }
{
    Ok(marks.iter().map(|mark| rank_of(*mark)).collect(alloc)?)
}

// The cycle that begins at the least node on any, where there is a cycle.
#[tactic(auto, using(crate::proofs::WayBack::some_cycle))]
fn expect_least_cycle(
    alloc: Global,
    edges: &[Vec<u32>],
    cycle: Vec<u32>,
) -> Result<Vec<u32>, NoMemory>
    requires range { InRange (lists_in edges.now) }
    requires cycle { IsCycle (lists_in edges.now) cycle.items }
    ensures { IfOk result (λ v. IsCycle (lists_in edges.now) v.items × BeginsLeast (lists_in edges.now) v.items) }
{
    match least_cycle(alloc, edges)? {
        Some(least) => Ok(least),
        None => unreachable!(),
    }
}

/// For each node the length of the longest chain of edges from it; or, where there is a cycle, nodes that follow one another with
/// the last leading to the first, of which the first is the least node that lies on any cycle. The edges are a list of targets
/// for each node: at most 4,096 nodes, at most 4,096 targets for each, and each target a node. Ranks take time linear in the
/// number of nodes and edges; so does a cycle for each node up to its first.
///
/// `Cycle` comes exactly where there are no ranks. `NoMemory`: out of memory.
pub fn rank_all(alloc: Global, edges: &[Vec<u32>]) -> Result<Ranking, NoMemory>
    requires { InRange (lists_in edges.now) }
    ensures { IfOk result (IsRanking (lists_in edges.now)) }
{
    let mut marks = new_marks(alloc, edges)?;
    'roots: for root in 0..edges.len() {
        match rank_root(alloc, edges, &mut marks, root as u32)? {
            Some(cycle) => return Ok(Ranking::Cycle(expect_least_cycle(alloc, edges, cycle)?)),
            None => {}
        }
    }
    Ok(Ranking::Ranks(ranks_in(alloc, marks.as_slice())?))
}
