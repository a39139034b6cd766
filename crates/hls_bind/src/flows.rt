//! What is live at each state, as sets of variables.

ghost use Rattle.std.specs.Prelude.{◌≡◌, ◌++◌, length, map, IfOk};
ghost use Rattle.std.specs.List.{flat_map};
ghost use Rattle.std.specs.Result.{OnOk};
ghost use Rattle.fs_model.specs.View.{expression_of, literal_of, shared_literal_of, assignment_of, branch_of};
ghost use Rattle.fs_model.specs.PartFolds.{scalars, uses_in_literal};
ghost use Rattle.fs_model.specs.SoundMachines.{scalars_in, assigned_in};
ghost use Rattle.fs_variable_sets.specs.Sets.{has_variable, also_all};
ghost use Rattle.hls_bind.specs.Liveness.{read_by_assignment};
ghost use Rattle.hls_bind.specs.BranchFlows.{has_below_128, transfer_of, transfer_by, transfers_below};
ghost use Rattle.hls_bind.specs.Live.{HasLive};

use fs_ast::machine::Machine;
use fs_model::name::NoMemory;
use fs_model::parts::{Assign, Branch, Expr, Lit, StateId, VarId};
use fs_variable_sets::VariableSet;
use fs_variable_sets::flows::{Flow, live_sets};
use std::alloc::Global;
use std::rc::Rc;

// A set and the scalars that an expression reads.
#[tactic(auto, using(fs_variable_sets::proofs::Members::also_joined))]
fn with_read(set: VariableSet, expr: &Expr<VarId>) -> VariableSet
    ensures { has_variable result ≡ also_all (scalars_in (expression_of expr.now)) (has_variable set) }
{
    match expr {
        Expr::Num(_) => set,
        Expr::Var(x) => set.with(*x),
        Expr::Read(_, index) => with_read(set, index),
        Expr::Add(a, b) | Expr::Sub(a, b) | Expr::Mul(a, b) | Expr::Div(a, b) | Expr::Rem(a, b) =>
            with_read(with_read(set, a), b),
        Expr::Neg(a) => with_read(set, a),
    }
}

// A set and the scalars that a literal reads.
#[tactic(auto, using(fs_variable_sets::proofs::Members::also_joined))]
fn with_literal(set: VariableSet, lit: &Lit<VarId>) -> VariableSet
    ensures { has_variable result ≡ also_all (uses_in_literal scalars (literal_of lit.now)) (has_variable set) }
{
    with_read(with_read(set, &lit.left), &lit.right)
}

// A set and the scalars that an assignment reads.
#[tactic(auto, using(fs_variable_sets::proofs::Members::also_joined))]
fn with_assignment(set: VariableSet, assign: &Assign<VarId>) -> VariableSet
    ensures { has_variable result ≡ also_all (read_by_assignment (assignment_of assign.now)) (has_variable set) }
{
    match assign {
        Assign::Set(_, value) | Assign::Emit(_, value) => with_read(set, value),
        Assign::Put(_, index, value) => with_read(with_read(set, index), value),
    }
}

// The scalars that literals read.
fn read_by_literals(lits: &[Rc<Lit<VarId>>]) -> VariableSet
    ensures { has_variable result ≡ has_below_128 (flat_map (uses_in_literal scalars) (map shared_literal_of lits.now)) }
{
    let mut set = VariableSet::empty();
    for lit in lits {
        set = with_literal(set, lit);
    }
    set
}

// A set and the scalars that assignments read.
fn with_assignments(set: VariableSet, assigns: &[Assign<VarId>]) -> VariableSet
    ensures { has_variable result ≡ also_all (flat_map read_by_assignment (map assignment_of assigns.now)) (has_variable set) }
{
    let mut set = set;
    for assign in assigns {
        set = with_assignment(set, assign);
    }
    set
}

/// The scalars that a branch assigns.
pub fn assigned_scalars(branch: &Branch) -> VariableSet
    ensures { has_variable result ≡ has_below_128 (assigned_in (branch_of branch.now).assignments) }
{
    let assigns = branch.assigns.as_slice();
    let mut set = VariableSet::empty();
    for assign in assigns {
        if let Assign::Set(x, _) = assign {
            set = set.with(*x);
        }
    }
    set
}

// What a branch of a state does to the sets of what is live.
fn flow(from: u32, branch: &Branch) -> Flow
    ensures { transfer_of result ≡ transfer_by from (branch_of branch.now) }
{
    Flow {
        from: from as usize,
        target: branch.target.0 as usize,
        reads: with_assignments(read_by_literals(&branch.lits), branch.assigns.as_slice()),
        writes: assigned_scalars(branch),
    }
}

// Adds what branches of a state do.
fn add_flows(flows: &mut Vec<Flow>, from: u32, branches: &[Branch]) -> Result<(), NoMemory>
    ensures { OnOk result
        (map transfer_of flows.new.items ≡ map transfer_of flows.old.items
        ++ map (transfer_by from) (map branch_of branches.now)) }
{
    for branch in branches {
        flows.push(flow(from, branch))?;
    }
    Ok(())
}

// What the branches of all states do. From the last state to the first, since variables become live backwards.
fn all_flows(alloc: Global, m: &Machine) -> Result<Vec<Flow>, NoMemory>
    ensures { IfOk result (λ flows. map transfer_of flows.items ≡ transfers_below m.now (length m.now.states)) }
{
    let mut flows = Vec::new(alloc);
    let count = m.state_count();
    for k in 0..count {
        let state = count - 1 - k;
        add_flows(&mut flows, state, m.branches(StateId(state)))?;
    }
    Ok(flows)
}

/// For each state of a machine the scalars that are live there.
pub fn live_at_states(alloc: Global, m: &Machine) -> Result<Vec<VariableSet>, NoMemory>
    ensures count { IfOk result (λ sets. length sets.items ≡ length m.now.states) }
    ensures live { IfOk result (λ sets. HasLive m.now sets.items) }
{
    let flows = all_flows(alloc, m)?;
    let sets = live_sets(
        alloc,
        flows.as_slice(),
        m.state_count() as usize,
        m.reset().0 as usize,
    )?;
    Ok(sets)
}
