//! The heights of items, and the chain of a block.

ghost use Rattle.std.specs.Prelude.{◌≡◌, ◌+◌, ◌-◌, ◌<◌, ◌≤◌, max, length, slice_get, IfOk};
ghost use Rattle.std.specs.List.{slice_index_or};
ghost use Rattle.hls_block_filling.specs.Heights.{greatest};
ghost use Rattle.hls_block_filling.specs.Profiles.{through_edge, edge_of_effects, height_upto};
ghost use Rattle.hls_block_filling.specs.KnownHeights.{AreLowHeights, AreHeights};

use crate::effects::{Edge, Effects, edge_between};
use fs_model::name::NoMemory;
use std::alloc::Global;

// The strict edges of a walk that begins with an edge to an item of a height.
fn through(edge: Edge, height: u32) -> u32
    requires { height < 4096 }
    ensures { result ≡ through_edge edge height }
{
    match edge {
        Edge::Apart => 0,
        Edge::Weak => height,
        Edge::Strict => height + 1,
    }
}

// The edge from an item to another.
fn edge(effects: &[Effects], i: usize, j: usize) -> Edge
    requires first { i < length effects.now }
    requires second { j < length effects.now }
    ensures { result ≡ edge_of_effects (slice_get effects.now i) (slice_get effects.now j) }
{
    edge_between(&effects[i], &effects[j])
}

// The greater of a height and that of an item over one more.
fn height_by(effects: &[Effects], heights: &[u32], item: usize, j: usize, best: u32) -> u32
    requires few { length effects.now ≤ 4096 }
    requires same { length heights.now ≡ length effects.now }
    requires first { item < length effects.now }
    requires second { j < length effects.now }
    requires low { slice_index_or heights.now j 0 + j < length effects.now }
    ensures { result ≡ max best
        (through_edge (edge_of_effects (slice_get effects.now item) (slice_get effects.now j)) (slice_index_or heights.now j 0)) }
{
    best.max(through(edge(effects, item, j), heights[j]))
}

// The height of an item over later ones, whose heights are known.
fn height(effects: &[Effects], heights: &[u32], item: usize) -> u32
    requires few { length effects.now ≤ 4096 }
    requires same { length heights.now ≡ length effects.now }
    requires in_range { item < length effects.now }
    requires low { AreLowHeights (length effects.now) (item + 1) heights.now }
    ensures height { result ≡ height_upto effects.now heights.now item (length effects.now) }
    ensures low { result + item < length effects.now }
{
    let mut best = 0;
    for j in item + 1..effects.len() {
        best = height_by(effects, heights, item, j, best);
    }
    best
}

// As many zeros.
fn zeros(alloc: Global, count: usize) -> Result<Vec<u32>, NoMemory>
    ensures { IfOk result (λ out. length out.items ≡ count) }
{
    let mut out = Vec::new(alloc);
    'zeros: for _ in 0..count {
        out.push(0u32)?;
    }
    Ok(out)
}

// The height of one item more, from the last to the first.
fn set_next(effects: &[Effects], heights: &mut [u32], done: usize)
    requires few { length effects.now ≤ 4096 }
    requires same { length heights.now ≡ length effects.now }
    requires in_range { done < length effects.now }
    requires known { AreHeights effects.now (length effects.now - done) heights.now }
    requires low { AreLowHeights (length effects.now) (length effects.now - done) heights.now }
    ensures known { AreHeights effects.now (length effects.now - (done + 1)) heights.new }
    ensures low { AreLowHeights (length effects.now) (length effects.now - (done + 1)) heights.new }
    ensures count { length heights.new ≡ length effects.now }
{
    let item = effects.len() - 1 - done;
    let found = height(effects, heights, item);
    heights[item] = found;
}

// The heights of all items.
fn set_all(effects: &[Effects], heights: &mut [u32])
    requires few { length effects.now ≤ 4096 }
    requires same { length heights.now ≡ length effects.now }
    ensures known { AreHeights effects.now 0 heights.new }
    ensures low { AreLowHeights (length effects.now) 0 heights.new }
    ensures count { length heights.new ≡ length effects.now }
{
    for done in 0..effects.len() {
        set_next(effects, heights, done);
    }
}

/// The height of each item: the greatest number of strict edges on a walk from it. Takes time in the
/// square of the items. The one refusal is out of memory.
pub fn heights(alloc: Global, effects: &[Effects]) -> Result<Vec<u32>, NoMemory>
    requires few { length effects.now ≤ 4096 }
    ensures heights { IfOk result (λ heights. AreHeights effects.now 0 heights.items) }
    ensures low { IfOk result (λ heights. AreLowHeights (length effects.now) 0 heights.items) }
    ensures count { IfOk result (λ heights. length heights.items ≡ length effects.now) }
{
    let mut heights = zeros(alloc, effects.len())?;
    set_all(effects, heights.as_mut_slice());
    Ok(heights)
}

/// One more than the greatest height, and 0 where there is no item.
pub fn chain(heights: &[u32]) -> u32
    requires low { AreLowHeights (length heights.now) 0 heights.now }
    requires few { length heights.now ≤ 4096 }
    ensures { result ≡ greatest heights.now }
{
    let mut chain = 0;
    for i in 0..heights.len() {
        chain = chain.max(heights[i] + 1);
    }
    chain
}
