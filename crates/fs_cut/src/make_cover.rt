//! The cover of a machine, made.

ghost use Rattle.std.specs.Prelude.{◌≡◌, ◌<◌, ◌++◌, [], ◌∷◌, length, map, cond, IfOk};
ghost use Rattle.std.specs.List.{range_with_len};
ghost use Rattle.std.specs.Result.{OnOk};
ghost use Rattle.fs_cut.specs.Paths.{At, is_fork};
ghost use Rattle.fs_cut.specs.Covers.{paths_of, paths_from, points_of, cover_of};
ghost use Rattle.fs_cut.specs.View.{point_of, path_of};

use crate::cover::{Cover, Path, Point};
use crate::memory::NoMemory;
use crate::walk::{is_fork, paths};
use fs_ast::machine::Machine;
use fs_model::parts::StateId;
use std::alloc::Global;

/// The cover of a machine. Its size is that of all paths: each lists its states, and a state stands on
/// as many paths as lead through it. The one refusal is out of memory.
pub fn cover(alloc: Global, m: &Machine) -> Result<Cover, NoMemory>
    ensures { IfOk result (λ c. c ≡ cover_of m.now) }
{
    let points = points(alloc, m)?;
    let start = paths(alloc, m, Point::Start, m.reset())?;
    let forks = all_forks(alloc, m)?;
    Ok(Cover::of(points, start, forks))
}

/// The points of a machine, in the order of its cover. The one refusal is out of memory.
pub fn points(alloc: Global, m: &Machine) -> Result<Vec<Point>, NoMemory>
    ensures { IfOk result (λ out. map point_of out.items ≡ points_of m.now) }
{
    let mut out = Vec::new(alloc);
    out.push(Point::Start)?;
    for state in 0..m.state_count() {
        push_fork(m, StateId(state), &mut out)?;
    }
    out.push(Point::Done)?;
    Ok(out)
}

// Adds the point of a state, if it has more than one branch and isn't the reset state.
fn push_fork(m: &Machine, state: StateId, out: &mut Vec<Point>) -> Result<(), NoMemory>
    requires { state.0 < length m.now.states }
    ensures { OnOk result
        (map point_of out.new.items ≡ map point_of out.old.items ++ cond (is_fork m.now state.0) (At state.0 ∷ []) []) }
{
    if is_fork(m, state) {
        out.push(Point::At(state))?;
    }
    Ok(())
}

// The paths of a state that is a point, and none of another state.
fn fork_paths(alloc: Global, m: &Machine, state: StateId) -> Result<Vec<Path>, NoMemory>
    requires { state.0 < length m.now.states }
    ensures { IfOk result (λ out. map path_of out.items ≡ cond (is_fork m.now state.0) (paths_of m.now (At state.0)) []) }
{
    if is_fork(m, state) {
        paths(alloc, m, Point::At(state), state)
    } else {
        Ok(Vec::new(alloc))
    }
}

// The paths that the cover has of a state by its number, none where no state has it.
#[tactic(auto, using(crate::proofs::Listed::fork_listed))]
fn state_paths(alloc: Global, m: &Machine, state: StateId) -> Result<Vec<Path>, NoMemory>
    ensures { IfOk result (λ out. map path_of out.items ≡ paths_from (cover_of m.now) (At state.0)) }
{
    if state.0 < m.state_count() {
        fork_paths(alloc, m, state)
    } else {
        Ok(Vec::new(alloc))
    }
}

/// The paths that the cover of a machine has of a point: one for each branch of its state in order of branches, and none of
/// what isn't among the points. The one refusal is out of memory.
#[tactic(auto, using(crate::proofs::Listed::start_listed))]
pub fn point_paths(alloc: Global, m: &Machine, point: Point) -> Result<Vec<Path>, NoMemory>
    ensures { IfOk result (λ out. map path_of out.items ≡ paths_from (cover_of m.now) (point_of point)) }
{
    match point {
        Point::Start => paths(alloc, m, point, m.reset()),
        Point::At(state) => state_paths(alloc, m, state),
        Point::Done => Ok(Vec::new(alloc)),
    }
}

// The paths of each state that is a point, by its number.
fn all_forks(alloc: Global, m: &Machine) -> Result<Vec<Vec<Path>>, NoMemory>
    ensures { IfOk result
        (λ out. map (λ ps. map path_of ps.items) out.items ≡ map (λ q. cond (is_fork m.now q) (paths_of m.now (At q)) [])
        (range_with_len 0 (length m.now.states))) }
{
    let mut out = Vec::new(alloc);
    for state in 0..m.state_count() {
        out.push(fork_paths(alloc, m, StateId(state))?)?;
    }
    Ok(out)
}
