//! One step of a machine.

ghost use Rattle.std.specs.Prelude.{◌≡◌, ◌<◌, length, IfOk, IfErr};
ghost use Rattle.std.specs.Result.{OnOk, OnErr};
ghost use Rattle.fs_model.specs.Runs.{Step};
ghost use Rattle.fs_model.specs.Touched.{touched_by_step, AllInRange};
ghost use Rattle.fs_stores.specs.Values.{store_of, IsStoreOf};
ghost use Rattle.fs_stores.specs.Changes.{PastOnly};

use fs_ast::machine::Machine;
use fs_model::parts::StateId;
use fs_stores::branches::taken_branch;
use fs_stores::changes::{Change, StepStop, assign_all};
use fs_stores::store::Store;
use std::alloc::Global;

/// Takes the step from a state, and answers the state to which it leads.
///
/// The right sides, indices and emitted expressions are valued in the store before, and the assignments
/// are then done in order. `PastWide` comes exactly when a literal on the way taken, a right side, an
/// index, an emitted expression or a part of these has its value outside 128 bits. After an error the
/// store is as before.
pub fn step(alloc: Global, m: &Machine, store: &mut Store, s: StateId) -> Result<StateId, StepStop>
    requires state { s.0 < length m.now.states }
    requires store { IsStoreOf m.now store.old }
    ensures step { IfOk result (λ r. Step m.now s.0 (store_of store.old) r.0 (store_of store.new)) }
    ensures target { IfOk result (λ r. r.0 < length m.now.states) }
    ensures in_range { OnOk result (AllInRange (touched_by_step m.now s.0 (store_of store.old))) }
    ensures past { IfErr result (λ e. PastOnly e (¬ AllInRange (touched_by_step m.now s.0 (store_of store.old)))) }
    ensures unchanged { OnErr result (store_of store.new ≡ store_of store.old) }
    ensures kept { IsStoreOf m.now store.new }
{
    let mut changes = Vec::new(alloc);
    step_with(&mut changes, m, store, s)
}

// The same; `changes` lends its memory.
pub(crate) fn step_with(
    changes: &mut Vec<Change>,
    m: &Machine,
    store: &mut Store,
    s: StateId,
) -> Result<StateId, StepStop>
    requires state { s.0 < length m.now.states }
    requires store { IsStoreOf m.now store.old }
    ensures step { IfOk result (λ r. Step m.now s.0 (store_of store.old) r.0 (store_of store.new)) }
    ensures target { IfOk result (λ r. r.0 < length m.now.states) }
    ensures in_range { OnOk result (AllInRange (touched_by_step m.now s.0 (store_of store.old))) }
    ensures past { IfErr result (λ e. PastOnly e (¬ AllInRange (touched_by_step m.now s.0 (store_of store.old)))) }
    ensures unchanged { OnErr result (store_of store.new ≡ store_of store.old) }
    ensures kept { IsStoreOf m.now store.new }
{
    let Some(branch) = taken_branch(m.branches(s), store.values.as_slice()) else {
        return Err(StepStop::PastWide);
    };
    match assign_all(
        changes,
        branch.assigns.as_slice(),
        store.values.as_mut_slice(),
    ) {
        Ok(()) => Ok(branch.target),
        Err(stop) => Err(stop),
    }
}
