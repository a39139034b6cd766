//! How many earlier items hold an item back.

ghost use Rattle.std.specs.Prelude.{◌≡◌, ◌≢◌, ◌+◌, ◌<◌, ◌≤◌, ℕ, true, cond, length, IfOk};
ghost use Rattle.std.specs.List.{slice_index_or};
ghost use Rattle.hls_block_filling.specs.Profiles.{edge_at, graph_in};
ghost use Rattle.hls_block_filling.specs.WaitingItems.{none_placed, waits_below, same_edge, holds_back, AreWaiting, AreReleased};

use crate::effects::{Edge, edge_between};
use crate::profiles::Profile;
use fs_model::name::NoMemory;
use std::alloc::Global;

// The edge from an item to another.
fn edge(table: &[Profile], k: usize, j: usize) -> Edge
    requires first { k < length table.now }
    requires second { j < length table.now }
    ensures { result ≡ edge_at table.now k j }
{
    edge_between(&table[k].effects, &table[j].effects)
}

// Whether two edges are of one kind.
fn same_edge(edge: Edge, kind: Edge) -> bool
    ensures { result ≡ same_edge edge kind }
{
    edge == kind
}

// Whether item k holds back item j by an edge of this kind.
fn holds_back(table: &[Profile], edge_kind: Edge, k: usize, j: usize) -> bool
    requires first { k < j }
    requires second { j < length table.now }
    ensures { result ≡ holds_back table.now edge_kind k j }
{
    same_edge(edge(table, k, j), edge_kind)
}

// Item k holds back item j no longer, where it has an edge of this kind to it.
fn release_one(table: &[Profile], waits: &mut [u32], edge_kind: Edge, k: usize, j: usize)
    requires first { k < j }
    requires second { j < length table.now }
    requires waits { length waits.now ≡ length table.now }
    requires held { holds_back table.now edge_kind k j ≡ true → 1 ≤ slice_index_or waits.now j 0 }
    ensures here { slice_index_or waits.new j 0 + cond (holds_back table.now edge_kind k j) 1 0 ≡ slice_index_or waits.old j 0 }
    ensures others { (i : ℕ) → i ≢ j → slice_index_or waits.new i 0 ≡ slice_index_or waits.old i 0 }
    ensures count { length waits.new ≡ length waits.old }
{
    if holds_back(table, edge_kind, k, j) {
        waits[j] -= 1;
    }
}

/// Item k holds back no longer those to which it has an edge of this kind.
pub fn release(table: &[Profile], waits: &mut [u32], edge_kind: Edge, k: usize)
    requires in_range { k < length table.now }
    requires waits { length waits.now ≡ length table.now }
    requires held { (j : ℕ) → j < length table.now → holds_back table.now edge_kind k j ≡ true
        → 1 ≤ slice_index_or waits.now j 0 }
    ensures { AreReleased table.now edge_kind k waits.old waits.new }
{
    for j in k + 1..table.len() {
        release_one(table, waits, edge_kind, k, j);
    }
}

// How many earlier items hold an item back while none is placed.
fn first_wait(table: &[Profile], j: usize) -> u32
    requires few { length table.now ≤ 4096 }
    requires in_range { j < length table.now }
    ensures { result ≡ waits_below (graph_in table.now) none_placed 0 j j }
{
    let mut count = 0;
    for i in 0..j {
        if edge(table, i, j) != Edge::Apart {
            count += 1;
        }
    }
    count
}

/// For each item, how many earlier ones hold it back while none is placed. The one refusal is out of memory.
pub fn first_waits(alloc: Global, table: &[Profile]) -> Result<Vec<u32>, NoMemory>
    requires few { length table.now ≤ 4096 }
    ensures waiting { IfOk result (λ waits. AreWaiting (graph_in table.now) none_placed 0 waits.items) }
    ensures count { IfOk result (λ waits. length waits.items ≡ length table.now) }
{
    let mut waits = Vec::new(alloc);
    for j in 0..table.len() {
        waits.push(first_wait(table, j))?;
    }
    Ok(waits)
}
