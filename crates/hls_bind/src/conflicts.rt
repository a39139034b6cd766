//! The first branch that loses one of two locals with one register.

ghost use Rattle.std.specs.Prelude.{◌≡◌, ◌<◌, ◌==◌, false, cond, length, map, None, IfOk};
ghost use Rattle.std.specs.Option.{option_map};
ghost use Rattle.fs_model.specs.View.{branch_of};
ghost use Rattle.fs_model.specs.SoundMachines.{branch_count};
ghost use Rattle.fs_cut.specs.Paths.{branch_at};
ghost use Rattle.fs_variable_sets.specs.Sets.{has_variable};
ghost use Rattle.fs_variable_sets.specs.Flows.{has_at};
ghost use Rattle.hls_bind.specs.BindingEntries.{binding_entry, lost_pair, conflict_of};
ghost use Rattle.hls_bind.specs.Shared.{others_in};
ghost use Rattle.hls_bind.specs.ConflictSearch.{is_lost, lost_with, lost_by, conflict_at, conflict_in, first_conflict};

use crate::binding::BoundLocal;
use crate::flows::assigned_scalars;
use crate::sharing::{Sharing, others_of_each};
use fs_ast::machine::Machine;
use fs_model::name::NoMemory;
use fs_model::parts::{Branch, StateId, VarId};
use fs_variable_sets::VariableSet;
use std::alloc::Global;

// Two locals of which a branch loses the other by writing the first.
#[derive(Clone, Copy)]
struct Pair {
    written: VarId,
    other: VarId,
    twice: bool,
}

/// A branch of a state that loses one of two locals with one register.
#[derive(Clone, Copy)]
pub struct Conflict {
    pub state: StateId,
    pub branch: u32,
    pub written: VarId,
    pub other: VarId,
    /// Whether the branch writes both.
    pub twice: bool,
}

// Whether another local has the same register, and is written or live.
fn is_lost(writes: VariableSet, live: VariableSet, one: &BoundLocal, other: &BoundLocal) -> bool
    ensures { result ≡ is_lost (has_variable writes) (has_variable live) (binding_entry one.now) (binding_entry other.now) }
{
    other.local != one.local
        && (writes.contains(other.local) || live.contains(other.local))
        && other.register == one.register
}

// The first local that is lost as one is written.
fn lost_with(
    writes: VariableSet,
    live: VariableSet,
    one: &BoundLocal,
    all: &[BoundLocal],
) -> Option<Pair>
    ensures { option_map lost_pair result ≡ lost_with (has_variable writes) (has_variable live) (binding_entry one.now)
        (map binding_entry all.now) }
{
    for other in all {
        if is_lost(writes, live, one, other) {
            return Some(Pair {
                written: one.local,
                other: other.local,
                twice: writes.contains(other.local),
            });
        }
    }
    None
}

// What is lost as one is written, if it is. `others` are the other locals that have its register.
fn lost_if_written(
    writes: VariableSet,
    live: VariableSet,
    one: &BoundLocal,
    others: VariableSet,
    all: &[BoundLocal],
) -> Option<Pair>
    requires { has_variable others ≡ others_in (map binding_entry all.now) (binding_entry one.now) }
    ensures { option_map lost_pair result ≡ cond (has_variable writes one.now.local.0)
        (lost_with (has_variable writes) (has_variable live) (binding_entry one.now) (map binding_entry all.now)) None }
{
    if writes.contains(one.local) && others.meets(writes.union(live)) {
        lost_with(writes, live, one, all)
    } else {
        None
    }
}

// The first pair of which a branch loses one.
fn lost_by(writes: VariableSet, live: VariableSet, all: &Sharing) -> Option<Pair>
    ensures { option_map lost_pair result ≡ lost_by (has_variable writes) (has_variable live)
        (map binding_entry all.now.entries.now) (map binding_entry all.now.entries.now) }
{
    let entries = all.entries;
    let others = all.others;
    for k in 0..entries.len() {
        if let Some(pair) = lost_if_written(writes, live, &entries[k], others[k], entries) {
            return Some(pair);
        }
    }
    None
}

// What is live where a branch leads, nothing where it returns to the reset state.
fn live_after(m: &Machine, live: &[VariableSet], target: StateId) -> VariableSet
    requires { target.0 < length live.now }
    ensures { has_variable result ≡ cond (target.0 == m.now.reset) (λ x. false) (has_at live.now target.0) }
{
    if target == m.reset() {
        VariableSet::empty()
    } else {
        live[target.0 as usize]
    }
}

// The branch of a number.
fn branch_at(m: &Machine, state: StateId, number: u32) -> &Branch
    requires state { state.0 < length m.now.states }
    requires number { number < branch_count m.now state.0 }
    ensures branch { branch_of result.now ≡ branch_at m.now state.0 number }
    ensures target { result.now.target.0 < length m.now.states }
{
    &m.branches(state)[number as usize]
}

// The first pair of which the branch of a number loses one.
fn conflict_at(
    m: &Machine,
    all: &Sharing,
    live: &[VariableSet],
    state: StateId,
    number: u32,
) -> Option<Conflict>
    requires state { state.0 < length m.now.states }
    requires number { number < branch_count m.now state.0 }
    requires live { length live.now ≡ length m.now.states }
    ensures { option_map conflict_of result ≡ conflict_at (map binding_entry all.now.entries.now) m.now live.now state.0 number }
{
    let branch = branch_at(m, state, number);
    let after = live_after(m, live, branch.target);
    match lost_by(assigned_scalars(branch), after, all) {
        Some(pair) => Some(Conflict {
            state,
            branch: number,
            written: pair.written,
            other: pair.other,
            twice: pair.twice,
        }),
        None => None,
    }
}

// The first conflict of a state.
fn conflict_in(m: &Machine, all: &Sharing, live: &[VariableSet], state: StateId) -> Option<Conflict>
    requires state { state.0 < length m.now.states }
    requires live { length live.now ≡ length m.now.states }
    ensures { option_map conflict_of result ≡ conflict_in (map binding_entry all.now.entries.now) m.now live.now state.0 }
{
    let count = m.branches(state).len() as u32;
    for number in 0..count {
        if let Some(conflict) = conflict_at(m, all, live, state, number) {
            return Some(conflict);
        }
    }
    None
}

// The first conflict of a machine.
fn conflict_of_any(m: &Machine, all: &Sharing, live: &[VariableSet]) -> Option<Conflict>
    requires live { length live.now ≡ length m.now.states }
    ensures { option_map conflict_of result ≡ first_conflict (map binding_entry all.now.entries.now) m.now live.now }
{
    for state in 0..m.state_count() {
        if let Some(conflict) = conflict_in(m, all, live, StateId(state)) {
            return Some(conflict);
        }
    }
    None
}

/// The first conflict by state, then by branch, then by the written local, then by the other. `live` has for each state
/// the scalars that are live there. The one refusal is out of memory.
pub fn first_conflict(
    alloc: Global,
    m: &Machine,
    all: &[BoundLocal],
    live: &[VariableSet],
) -> Result<Option<Conflict>, NoMemory>
    requires live { length live.now ≡ length m.now.states }
    ensures { IfOk result (λ o. option_map conflict_of o ≡ first_conflict (map binding_entry all.now) m.now live.now) }
{
    let others = others_of_each(alloc, all)?;
    let sharing = Sharing {
        entries: all,
        others: others.as_slice(),
    };
    Ok(conflict_of_any(m, &sharing, live))
}
