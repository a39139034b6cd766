//! The branches of a machine, followed.

ghost use Rattle.std.specs.Prelude.{◌≡◌, ◌<◌, ◌++◌, length, map, IfOk};
ghost use Rattle.std.specs.Result.{OnOk};
ghost use Rattle.fs_model.specs.SoundMachines.{branch_count, is_cutpoint};
ghost use Rattle.fs_cut.specs.Paths.{is_fork, end_at, target_of};
ghost use Rattle.fs_cut.specs.Covers.{passed_states, state_reached, path_by, paths_by};
ghost use Rattle.fs_cut.specs.View.{point_of, path_of};

use crate::cover::{Path, Point};
use crate::memory::NoMemory;
use fs_ast::machine::Machine;
use fs_model::parts::StateId;
use std::alloc::Global;

/// Whether a state has more than one branch and isn't the reset state.
pub fn is_fork(m: &Machine, state: StateId) -> bool
    requires { state.0 < length m.now.states }
    ensures { result ≡ is_fork m.now state.0 }
{
    state.0 != m.reset().0 && m.branches(state).len() > 1
}

// Whether paths are cut at a state.
fn is_cutpoint(m: &Machine, state: StateId) -> bool
    requires { state.0 < length m.now.states }
    ensures { result ≡ is_cutpoint m.now state.0 }
{
    state.0 == m.reset().0 || m.branches(state).len() > 1
}

// The point at which a path ends that comes to a state.
fn end_at(m: &Machine, state: StateId) -> Point
    ensures { point_of result ≡ end_at m.now state.0 }
{
    if state.0 == m.reset().0 {
        Point::Done
    } else {
        Point::At(state)
    }
}

// Where a branch of a state leads.
fn target(m: &Machine, state: StateId, branch: u32) -> StateId
    requires in_range { state.0 < length m.now.states }
    requires branch { branch < branch_count m.now state.0 }
    ensures target { result.0 ≡ target_of m.now state.0 branch }
    ensures in_range { result.0 < length m.now.states }
{
    m.branches(state)[branch as usize].target
}

// Where the first branch of a state leads.
fn first_target(m: &Machine, state: StateId) -> StateId
    requires { state.0 < length m.now.states }
    ensures target { result.0 ≡ target_of m.now state.0 0 }
    ensures in_range { result.0 < length m.now.states }
{
    m.branches(state)[0].target
}

// Goes from a state through states with one branch, and adds them to those left before. Gives the
// state with a cut to which they lead.
fn pass(m: &Machine, first: StateId, left: &mut Vec<StateId>) -> Result<StateId, NoMemory>
    requires { first.0 < length m.now.states }
    ensures passed { OnOk result
        (map (λ s. s.0) left.new.items ≡ map (λ s. s.0) left.old.items ++ passed_states m.now (length m.now.states) first.0) }
    ensures reached { IfOk result (λ end. end.0 ≡ state_reached m.now (length m.now.states) first.0) }
{
    let mut at = first;
    // A cut comes within as many steps as there are states.
    'states: for _ in 0..m.state_count() {
        if is_cutpoint(m, at) {
            return Ok(at);
        }
        left.push(at)?;
        at = first_target(m, at);
    }
    Ok(at)
}

// The path from a point by a branch of its state.
fn path(
    alloc: Global,
    m: &Machine,
    from: Point,
    state: StateId,
    branch: u32,
) -> Result<Path, NoMemory>
    requires in_range { state.0 < length m.now.states }
    requires branch { branch < branch_count m.now state.0 }
    ensures { IfOk result (λ p. path_of p ≡ path_by m.now (point_of from) state.0 branch) }
{
    let mut states = Vec::new(alloc);
    states.push(state)?;
    let end = pass(m, target(m, state, branch), &mut states)?;
    Ok(Path {
        from,
        branch,
        states,
        to: end_at(m, end),
    })
}

/// The paths from a point by the branches of its state, in order.
pub fn paths(alloc: Global, m: &Machine, from: Point, state: StateId) -> Result<Vec<Path>, NoMemory>
    requires { state.0 < length m.now.states }
    ensures { IfOk result (λ out. map path_of out.items ≡ paths_by m.now (point_of from) state.0) }
{
    let mut out = Vec::new(alloc);
    let count = m.branches(state).len() as u32;
    for branch in 0..count {
        out.push(path(alloc, m, from, state, branch)?)?;
    }
    Ok(out)
}
