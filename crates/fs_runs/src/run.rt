//! Runs: steps from the reset state up to the first return to it.

ghost use Rattle.std.specs.Prelude.{◌≡◌, ◌≤◌, ◌==◌, ◌++◌, ◌∷◌, [], ℕ, List, length, map, IfOk, IfErr};
ghost use Rattle.fs_model.specs.Runs.{Run, Inputs as Given, start, output};
ghost use Rattle.fs_model.specs.Touched.{StaysInRange};
ghost use Rattle.fs_stores.specs.Values.{content_of, store_of, IsStoreOf};
ghost use Rattle.fs_stores.specs.InputValues.{inputs_of, signatures_of, Serves};
ghost use Rattle.fs_runs.specs.Outcomes.{output_names, outs_of, told_by, HoldsEach, IsStopped};
ghost use Rattle.std.specs.Result.{OnOk};

use crate::step::step_with;
use fs_ast::machine::Machine;
use fs_model::parts::{StateId, VarInfo};
use fs_stores::changes::StepStop;
use fs_stores::inputs::{Inputs, start};
use fs_stores::memory::NoMemory;
use fs_stores::store::Store;
use fs_stores::values::Value;
use std::alloc::Global;

/// How a run ended: what the outputs hold, in order of declaration, and after how many steps.
#[derive(Drop)]
pub struct Ended {
    pub outputs: Vec<Value>,
    pub steps: u64,
}

/// Why a run has no end.
#[derive(Clone, Copy)]
pub enum RunStop {
    /// Within so many steps it does not return to the reset state.
    StepsOver { limit: u64 },
    /// The step of this number, counted from 1, touches a number outside 128 bits.
    PastWide { step: u64 },
    NoMemory,
}

/// Runs a machine on inputs up to the first return to the reset state, at most so many steps. The
/// outputs are as many as the machine has, and each holds something.
///
/// `PastWide` comes exactly when a number outside 128 bits is touched within the limit, and by no
/// step after the return; `StepsOver` where within the limit there is neither such a number nor a return.
pub fn run(alloc: Global, m: &Machine, inputs: &Inputs, limit: u64) -> Result<Ended, RunStop>
    requires limit { 1 ≤ limit }
    requires inputs { Serves (signatures_of inputs.now) m.now }
    ensures ended { IfOk result (λ e. Run m.now (inputs_of inputs.now) (told_by m.now e.outputs.items) e.steps) }
    ensures count { IfOk result (λ e. length e.outputs.items ≡ length (output_names m.now.variables)) }
    ensures holds { IfOk result (λ e. HoldsEach (told_by m.now e.outputs.items) (output_names m.now.variables)) }
    ensures within { IfOk result (λ e. e.steps ≤ limit) }
    ensures in_range { IfOk result (λ e. StaysInRange m.now e.steps m.now.reset (start m.now (inputs_of inputs.now))) }
    ensures stopped { IfErr result (λ e. IsStopped m.now (inputs_of inputs.now) limit e) }
{
    let mut store = match start(alloc, m, inputs) {
        Ok(store) => store,
        Err(_) => return Err(RunStop::NoMemory),
    };
    run_from(alloc, m, &mut store, limit)
}

// Runs a machine from a store in which it starts.
fn run_from(alloc: Global, m: &Machine, store: &mut Store, limit: u64) -> Result<Ended, RunStop>
    requires limit { 1 ≤ limit }
    requires store { IsStoreOf m.now store.old }
    ensures ended { (ins : Given) → store_of store.old ≡ start m.now ins
        → IfOk result (λ e. Run m.now ins (told_by m.now e.outputs.items) e.steps) }
    ensures count { IfOk result (λ e. length e.outputs.items ≡ length (output_names m.now.variables)) }
    ensures holds { IfOk result (λ e. HoldsEach (told_by m.now e.outputs.items) (output_names m.now.variables)) }
    ensures within { IfOk result (λ e. e.steps ≤ limit) }
    ensures in_range { (ins : Given) → store_of store.old ≡ start m.now ins
        → IfOk result (λ e. StaysInRange m.now e.steps m.now.reset (start m.now ins)) }
    ensures stopped { (ins : Given) → store_of store.old ≡ start m.now ins → IfErr result (λ e. IsStopped m.now ins limit e) }
{
    let mut changes = Vec::new(alloc);
    let mut at = m.reset();
    for done in 0..limit {
        match step_with(&mut changes, m, store, at) {
            Ok(next) => at = next,
            Err(StepStop::PastWide) => return Err(RunStop::PastWide { step: done + 1 }),
            Err(StepStop::NoMemory) => return Err(RunStop::NoMemory),
        }
        if is_reset(m, at) {
            return end_after(alloc, m, store, done + 1);
        }
    }
    Err(RunStop::StepsOver { limit })
}

fn is_reset(m: &Machine, s: StateId) -> bool
    ensures { result ≡ (s.0 == m.now.reset) }
{
    s.0 == m.reset().0
}

// The end of a run after so many steps.
fn end_after(alloc: Global, m: &Machine, store: &Store, steps: u64) -> Result<Ended, RunStop>
    requires { IsStoreOf m.now store.now }
    ensures outputs { IfOk result
        (λ e. (name : List ℕ) → output m.now (store_of store.now) name ≡ told_by m.now e.outputs.items name) }
    ensures count { IfOk result (λ e. length e.outputs.items ≡ length (output_names m.now.variables)) }
    ensures holds { IfOk result (λ e. HoldsEach (told_by m.now e.outputs.items) (output_names m.now.variables)) }
    ensures steps { IfOk result (λ e. e.steps ≡ steps) }
    ensures full { IfErr result (λ e. e ≡ RunStop.NoMemory) }
{
    match outputs(alloc, m, store) {
        Ok(outputs) => Ok(Ended { outputs, steps }),
        Err(_) => Err(RunStop::NoMemory),
    }
}

// What the outputs hold, in order of declaration.
fn outputs(alloc: Global, m: &Machine, store: &Store) -> Result<Vec<Value>, NoMemory>
    requires { IsStoreOf m.now store.now }
    ensures told { IfOk result (λ out. (name : List ℕ) → output m.now (store_of store.now) name ≡ told_by m.now out.items name) }
    ensures count { IfOk result (λ out. length out.items ≡ length (output_names m.now.variables)) }
    ensures holds { IfOk result (λ out. HoldsEach (told_by m.now out.items) (output_names m.now.variables)) }
{
    let vars = m.vars();
    let values = store.values.as_slice();
    let mut out = Vec::new(alloc);
    for k in 0..vars.len() {
        add_output(&mut out, &vars[k], &values[k])?;
    }
    Ok(out)
}

// Adds a copy of what a variable holds that is an output.
fn add_output(out: &mut Vec<Value>, var: &VarInfo, value: &Value) -> Result<(), NoMemory>
    ensures { OnOk result
        (map content_of out.new.items ≡ map content_of out.old.items ++ outs_of (var.now ∷ []) (value.now ∷ [])) }
{
    if var.role.is_output() {
        out.push(value.try_clone()?)?;
    }
    Ok(())
}
