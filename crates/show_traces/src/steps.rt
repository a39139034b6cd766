//! One step of a machine, with its line.

ghost use Rattle.std.specs.Prelude.{◌≡◌, ◌<◌, length, IfOk, MatchOption};
ghost use Rattle.std.specs.Result.{OnOk};
ghost use Rattle.fs_model.specs.Touched.{touched_by_step, AllInRange};
ghost use Rattle.fs_stores.specs.Values.{store_of, values_of, IsStoreOf};
ghost use Rattle.fs_stores.specs.Changes.{changed_all, AllSuit};
ghost use Rattle.show_traces.specs.Traces.{place_at};
ghost use Rattle.show_traces.specs.Stepping.{IsStepAt, StepsAt};

use crate::lines::write_step;
use fs_ast::machine::Machine;
use fs_model::parts::StateId;
use fs_stores::branches::taken_branch;
use fs_stores::changes::{Change, StepStop, change_all, value_changes};
use fs_stores::memory::NoMemory;
use fs_stores::store::Store;
use std::alloc::Global;

// The state to which a step leads, and what it changes.
#[derive(Drop)]
struct NextStep {
    target: StateId,
    changes: Vec<Change>,
}

// The step from a state, valued in the store before it, and none exactly where it touches a number outside 128 bits.
fn next_step(
    alloc: Global,
    m: &Machine,
    store: &Store,
    s: StateId,
) -> Result<Option<NextStep>, NoMemory>
    requires { s.0 < length m.now.states }
    ensures { IfOk result (λ o. MatchOption o (¬ AllInRange (touched_by_step m.now s.0 (store_of store.now)))
        (λ n. IsStepAt m.now (place_at s.0 (store_of store.now)) n.target.0 n.changes.items)) }
{
    let Some(branch) = taken_branch(m.branches(s), store.values.as_slice()) else {
        return Ok(None);
    };
    let mut changes = Vec::new(alloc);
    match value_changes(
        &mut changes,
        branch.assigns.as_slice(),
        store.values.as_slice(),
    ) {
        Ok(()) => Ok(Some(NextStep {
            target: branch.target,
            changes,
        })),
        Err(StepStop::PastWide) => Ok(None),
        Err(StepStop::NoMemory) => Err(NoMemory),
    }
}

// Makes changes in order.
fn make_changes(m: &Machine, store: &mut Store, changes: &[Change]) -> Result<(), NoMemory>
    requires store { IsStoreOf m.now store.old }
    requires suit { AllSuit (values_of store.old) changes.now }
    ensures changed { OnOk result (store_of store.new ≡ changed_all (store_of store.old) changes.now) }
    ensures kept { IsStoreOf m.now store.new }
{
    change_all(store.values.as_mut_slice(), changes)
}

/// Takes the step from a state and adds its line, and gives the state to which it leads. Nothing is given exactly where the step
/// touches a number outside 128 bits; then nothing is added. The one refusal is out of memory.
pub fn add_step(
    alloc: Global,
    out: &mut Vec<u8>,
    m: &Machine,
    store: &mut Store,
    s: StateId,
    number: u64,
) -> Result<Option<StateId>, NoMemory>
    requires state { s.0 < length m.now.states }
    requires store { IsStoreOf m.now store.old }
    ensures step { IfOk result (λ o. StepsAt m.now number (place_at s.0 (store_of store.old)) o (store_of store.new) out.old.items
        out.new.items) }
    ensures kept { OnOk result (IsStoreOf m.now store.new) }
{
    let Some(next) = next_step(alloc, m, store, s)? else {
        return Ok(None);
    };
    write_step(out, m, number, s, next.target, next.changes.as_slice())?;
    make_changes(m, store, next.changes.as_slice())?;
    Ok(Some(next.target))
}
