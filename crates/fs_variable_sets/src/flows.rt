//! Sets of live variables, one for each state.

ghost use Rattle.std.specs.Prelude.{◌≡◌, ◌<◌, ℕ, true, false, length, All, IfOk};
ghost use Rattle.fs_variable_sets.specs.Sets.{has_variable};
ghost use Rattle.fs_variable_sets.specs.Flows.{has_at, live_before, live_with_flow, IsFixedPoint, flow_weight, AreLive, IsInside};
ghost use Rattle.fs_variable_sets.specs.Flows.{IsExact};

use crate::VariableSet;
use std::alloc::{AllocError, Global};

/// What a branch does to the variables that are live: by its two states, what it reads, and what it writes.
#[derive(Clone, Copy)]
pub struct Flow {
    pub from: usize,
    pub target: usize,
    pub reads: VariableSet,
    pub writes: VariableSet,
}

// What is live before a branch by it.
fn live_before(flow: &Flow, reset: usize, live: &[VariableSet]) -> VariableSet
    requires inside { IsInside (length live.now) flow.now }
    ensures { has_variable result ≡ live_before reset live.now flow.now }
{
    if flow.target == reset {
        flow.reads
    } else {
        flow.reads.union(live[flow.target].without(flow.writes))
    }
}

// Adds what is live by one branch. Whether that is more than was known.
fn grow(flow: &Flow, reset: usize, live: &mut Vec<VariableSet>) -> bool
    requires inside { IsInside (length live.old.items) flow.now }
    ensures count { length live.new.items ≡ length live.old.items }
    ensures stepped { (q x : ℕ) → has_at live.new.items q x ≡ live_with_flow reset live.old.items flow.now q x }
    ensures settled { result ≡ false → (live.new.items ≡ live.old.items) × IsFixedPoint reset live.old.items flow.now }
    ensures grows { result ≡ true → flow_weight live.new.items < flow_weight live.old.items }
{
    let old = live[flow.from];
    let new = old.union(live_before(flow, reset, live.as_slice()));
    live[flow.from] = new;
    new.bits != old.bits
}

// Adds what is live by each branch. Whether that is more than was known.
fn round(flows: &[Flow], reset: usize, live: &mut Vec<VariableSet>) -> bool
    requires inside { All (IsInside (length live.old.items)) flows.now }
    ensures same { length live.new.items ≡ length live.old.items }
    ensures settled { result ≡ false → (live.new.items ≡ live.old.items) × All (IsFixedPoint reset live.old.items) flows.now }
    ensures grows { result ≡ true → flow_weight live.new.items < flow_weight live.old.items }
    ensures sound { AreLive flows.now reset live.old.items → AreLive flows.now reset live.new.items }
{
    let mut changed = false;
    for flow in flows {
        if grow(flow, reset, live) {
            changed = true;
        }
    }
    changed
}

// Adds all that is live.
fn close(flows: &[Flow], reset: usize, live: &mut Vec<VariableSet>)
    requires inside { All (IsInside (length live.old.items)) flows.now }
    ensures same { length live.new.items ≡ length live.old.items }
    ensures settled { All (IsFixedPoint reset live.new.items) flows.now }
    ensures sound { AreLive flows.now reset live.old.items → AreLive flows.now reset live.new.items }
{
    'rounds: while round(flows, reset, live) {}
}

fn empty_sets(alloc: Global, states: usize) -> Result<Vec<VariableSet>, AllocError>
    ensures empty { IfOk result (λ v. (q x : ℕ) → has_at v.items q x ≡ false) }
    ensures count { IfOk result (λ v. length v.items ≡ states) }
{
    let mut out = Vec::new(alloc);
    for _ in 0..states {
        out.push(VariableSet::empty())?;
    }
    Ok(out)
}

/// For each state the set of the variables that are live there. All branches are gone over backwards again and again
/// until none adds a variable, so at most once more than there are variables in the sets. The one refusal is out of
/// memory.
pub fn live_sets(
    alloc: Global,
    flows: &[Flow],
    states: usize,
    reset: usize,
) -> Result<Vec<VariableSet>, AllocError>
    requires inside { All (IsInside states) flows.now }
    ensures count { IfOk result (λ v. length v.items ≡ states) }
    ensures exact { IfOk result (λ v. IsExact flows.now reset v.items) }
{
    let mut live = empty_sets(alloc, states)?;
    close(flows, reset, &mut live);
    Ok(live)
}
