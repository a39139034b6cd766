//! How often each state is led to, as far as blocks need it.

ghost use Rattle.std.specs.Prelude.{◌≡◌, ℕ, ◌<◌, ◌++◌, List, [], ◌∷◌, length, map, IfOk};
ghost use Rattle.std.specs.List.{slice_index_or};
ghost use Rattle.fs_model.specs.View.{branch_of};
ghost use Rattle.hls_block_filling.specs.BasicBlocks.{is_only};
ghost use Rattle.hls_sched.specs.Arrivals.{arrivals_of, source_per_branch, AreArrivals};
ghost use Rattle.hls_sched.specs.declared.arrivals.Arrivals.TheVariants as variants;

use fs_ast::machine::Machine;
use fs_model::name::NoMemory;
use fs_model::parts::{Branch, StateId};
use std::alloc::Global;

/// How many branches lead to a state: none, one of this state, or more.
#[derive(Clone, Copy)]
pub enum Arrivals {
    Never,
    Once(StateId),
    Often,
}

impl Arrivals {
    // After one branch more, of this state.
    fn and_from(self, state: StateId) -> Arrivals
        ensures { (qs : List ℕ) → self ≡ arrivals_of qs → result ≡ arrivals_of (qs ++ state.0 ∷ []) }
    {
        match self {
            Arrivals::Never => Arrivals::Once(state),
            _ => Arrivals::Often,
        }
    }

    /// Whether one branch leads there, and it is of this state.
    pub(crate) fn is_once_from(self, state: StateId) -> bool
        ensures { (qs : List ℕ) → self ≡ arrivals_of qs → result ≡ is_only state.0 qs }
    {
        match self {
            Arrivals::Once(from) => from == state,
            _ => false,
        }
    }
}

// Notes a branch of a state.
fn arrive(table: &mut Vec<Arrivals>, from: StateId, branch: &Branch)
    ensures count { length table.new.items ≡ length table.old.items }
    ensures known { (r : ℕ) (qs : List ℕ) → r < length table.old.items
        → slice_index_or table.old.items r variants.Never ≡ arrivals_of qs
        → slice_index_or table.new.items r variants.Never ≡ arrivals_of
        (qs ++ source_per_branch from.0 r (branch_of branch.now ∷ [])) }
{
    let place = branch.target.0 as usize;
    if place < table.len() {
        table[place] = table[place].and_from(from);
    }
}

// Notes the branches of a state.
fn arrive_all(table: &mut Vec<Arrivals>, from: StateId, branches: &[Branch])
    ensures count { length table.new.items ≡ length table.old.items }
    ensures known { (r : ℕ) (qs : List ℕ) → r < length table.old.items
        → slice_index_or table.old.items r variants.Never ≡ arrivals_of qs
        → slice_index_or table.new.items r variants.Never ≡ arrivals_of
        (qs ++ source_per_branch from.0 r (map branch_of branches.now)) }
{
    for branch in branches {
        arrive(table, from, branch);
    }
}

// No branch is noted.
fn none_noted(alloc: Global, count: u32) -> Result<Vec<Arrivals>, NoMemory>
    ensures count { IfOk result (λ table. length table.items ≡ count) }
    ensures none { IfOk result (λ table. (r : ℕ) → slice_index_or table.items r variants.Never ≡ variants.Never) }
{
    let mut table = Vec::new(alloc);
    'none: for _ in 0..count {
        table.push(Arrivals::Never)?;
    }
    Ok(table)
}

/// How often each state of a machine is led to, in time linear in its branches. The one refusal is out of memory.
pub fn count_arrivals(alloc: Global, m: &Machine) -> Result<Vec<Arrivals>, NoMemory>
    ensures { IfOk result (λ table. AreArrivals m.now table.items) }
{
    let mut table = none_noted(alloc, m.state_count())?;
    for q in 0..m.state_count() {
        arrive_all(&mut table, StateId(q), m.branches(StateId(q)));
    }
    Ok(table)
}
