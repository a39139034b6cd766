//! Paths over a vector.

ghost use Rattle.std.specs.Prelude.{◌≡◌, map};
ghost use Rattle.fs_model.specs.View.{branch_of, shared_literal_of, assignment_of};
ghost use Rattle.fs_model.specs.Machines.{transitions_of};
ghost use Rattle.fs_model.specs.Trees.{branches_of};
ghost use Rattle.nf_terms.specs.Computed.{Answers};
ghost use Rattle.nf_rel.specs.View.{literal_in};
ghost use Rattle.fs_cut.specs.Paths.{state_of, branch_at, steps_in};
ghost use Rattle.fs_cut.specs.View.{point_of, path_of};
ghost use Rattle.sym_paths.specs.Execution.{conditions as conditions_of, steps_over, execute as executed};
ghost use Rattle.sym_paths.specs.View.{answer_in_data, post_in};

use crate::assignments::act_over;
use crate::evaluation::evaluate_literals;
use fs_cut::cover::{Path, Point};
use fs_cut::machine::Machine;
use fs_model::parts::{Assign, Branch, Lit, StateId, VarId};
use nf_rel::literals::NLit;
use nf_terms::stop::NfStop;
use nf_terms::tree::Side;
use nf_vectors::vector::Vector;
use std::alloc::Global;
use std::rc::Rc;

/// Conditions, and a vector where they are true.
#[derive(Drop)]
pub struct Post {
    pub conds: Vec<NLit>,
    pub vector: Vector,
}

// The state of a point.
fn state_at(m: &Machine, p: Point) -> StateId
    ensures { result.0 ≡ state_of m.now (point_of p) }
{
    match p {
        Point::Start | Point::Done => m.reset(),
        Point::At(state) => state,
    }
}

// The branches of a state. None where there is no such state.
fn branches(m: &Machine, state: StateId) -> &[Branch]
    ensures { map branch_of result.now ≡ branches_of (transitions_of m.now state.0) }
{
    if state.0 < m.state_count() {
        m.branches(state)
    } else {
        &[]
    }
}

// The literals of a branch. None where there is no such branch.
fn literals(m: &Machine, state: StateId, number: u32) -> &[Rc<Lit<VarId>>]
    ensures { map shared_literal_of result.now ≡ (branch_at m.now state.0 number).literals }
{
    match branches(m, state).get(number as usize) {
        Some(branch) => branch.lits.as_slice(),
        None => &[],
    }
}

// The assignments of a branch. None where there is no such branch.
fn assignments(m: &Machine, state: StateId, number: u32) -> &[Assign<VarId>]
    ensures { map assignment_of result.now ≡ (branch_at m.now state.0 number).assignments }
{
    match branches(m, state).get(number as usize) {
        Some(branch) => branch.assigns.as_slice(),
        None => &[],
    }
}

// A vector, which becomes the vector after the steps of a path.
fn take_steps(
    alloc: Global,
    m: &Machine,
    path: &Path,
    side: Side,
    v: &mut Vector,
) -> Result<(), NfStop>
    ensures { Answers (answer_in_data (λ _. v.new) result) (steps_over m.now side (steps_in (path_of path.now)) v.old) }
{
    let mut number = path.branch;
    for state in &path.states {
        act_over(alloc, side, assignments(m, *state, number), v)?;
        number = 0;
    }
    Ok(())
}

/// The literals of a path's branch over a vector, in order.
///
/// `Wide` and `Large` come exactly at the first operation that is not narrow, or narrow and not small, in the order of the
/// literals, in each the left side, the right side and the literal. `NoMemory`: out of memory.
pub fn conditions(
    alloc: Global,
    m: &Machine,
    path: &Path,
    side: Side,
    v: &Vector,
) -> Result<Vec<NLit>, NfStop>
    ensures { Answers (answer_in_data (λ ls. map literal_in ls.items) result)
        (conditions_of m.now (path_of path.now) side v.now) }
{
    let literals = literals(m, state_at(m, path.from), path.branch);
    evaluate_literals(alloc, side, v, literals)
}

/// The literals of a path's branch over a vector, which then becomes the vector after the path. Nothing is copied but what
/// changes.
///
/// `Wide` and `Large` come exactly at the first operation that is not narrow, or narrow and not small: those of the literals come
/// first, then those of the steps in order, in each step all right sides and indices over the vector before it, and then the
/// writes and the emitted numbers in the order listed. `NoMemory`: out of memory. After a refusal the vector is that of some step
/// on the way.
pub fn advance(
    alloc: Global,
    m: &Machine,
    path: &Path,
    side: Side,
    v: &mut Vector,
) -> Result<Vec<NLit>, NfStop>
    ensures { Answers (answer_in_data (λ ls. record { conditions = map literal_in ls.items; vector = v.new }) result)
        (executed m.now (path_of path.now) side v.old) }
{
    let conds = conditions(alloc, m, path, side, v)?;
    take_steps(alloc, m, path, side, v)?;
    Ok(conds)
}

/// The literals of a path's branch over a vector, and the vector after the path. Positions of the other side stay as they are.
///
/// `Wide` and `Large` come as by `advance`. `NoMemory`: out of memory.
pub fn execute(
    alloc: Global,
    m: &Machine,
    path: &Path,
    side: Side,
    v: &Vector,
) -> Result<Post, NfStop>
    ensures { Answers (answer_in_data post_in result) (executed m.now (path_of path.now) side v.now) }
{
    let mut vector = v.try_clone(alloc)?;
    let conds = advance(alloc, m, path, side, &mut vector)?;
    Ok(Post { conds, vector })
}
