//! What stays the same where blocks are replaced by rows, over the definitions alone. The functions do nothing.

ghost use Rattle.std.specs.Prelude.{◌≡◌, ℕ, suc, ◌<◌, true, false, List, length};
ghost use Rattle.fs_model.specs.Machines.{Fsmd};
ghost use Rattle.fs_model.specs.Runs.{SameBehaviour};
ghost use Rattle.fs_model.specs.SoundMachines.{IsSound};
ghost use Rattle.fs_rules.specs.Rules.{IsEndless};
ghost use Rattle.hls_block_filling.specs.Items.{Item};
ghost use Rattle.hls_block_filling.specs.BasicBlocks.{is_in_block, follows, basic_block_at, is_first_of_block, StandsInBlock};
ghost use Rattle.hls_block_filling.specs.MachineSelections.{machine_of_states, selected_place, IsClosedUnderTargets};
ghost use Rattle.hls_block_filling.specs.ScheduledMachines.{kept_states, scheduled_machine};
ghost use Rattle.hls_block_filling.specs.RowMachines.{machine_with_rows, state_at, KeepsStores};

/// States to which nothing leads may be left out, and the others numbered anew.
pub fn unreached_states_may_go()
    ensures { (m : Fsmd) (keep : List ℕ) → IsClosedUnderTargets m keep → SameBehaviour m (machine_of_states m keep) }
{}

/// Rows that end with the stores of their blocks may stand in place of these.
pub fn rows_stand_for_blocks()
    ensures { (m : Fsmd) (rows : ℕ → List Item) → IsSound m → KeepsStores m rows → SameBehaviour m (machine_with_rows m rows) }
{}

/// A machine whose blocks are in rows behaves as it did.
pub fn a_scheduled_machine_behaves()
    ensures { (m : Fsmd) (rows : ℕ → List Item) → IsSound m → KeepsStores m rows → SameBehaviour m (scheduled_machine m rows) }
{}

/// From each state of a scheduled machine a cutpoint comes.
pub fn a_scheduled_machine_is_nowhere_endless()
    ensures { (m : Fsmd) (rows : ℕ → List Item) (q : ℕ) → IsSound m → KeepsStores m rows → q < length (kept_states m rows)
        → IsEndless (scheduled_machine m rows) q → ⊥ }
{}

/// Each state with one way on, but the reset state, stands in exactly one block, at one place.
pub fn each_state_with_one_way_stands_in_one_block()
    ensures some { (m : Fsmd) (q : ℕ) → IsSound m → q < length m.states → is_in_block m q ≡ true → StandsInBlock m q }
    ensures line { (m : Fsmd) (q : ℕ) (a b : StandsInBlock m q) → IsSound m → a.first ≡ b.first }
    ensures place { (m : Fsmd) (q : ℕ) (a b : StandsInBlock m q) → IsSound m → a.index ≡ b.index }
{}

/// A block is as long as can be: no state leads into it at its first state, and none follows its last.
pub fn a_block_is_longest()
    ensures before { (m : Fsmd) (p h : ℕ) → IsSound m → is_first_of_block m h ≡ true → p < length m.states
        → follows m p h ≡ false }
    ensures behind { (m : Fsmd) (q r : ℕ) (a : StandsInBlock m q) → IsSound m → length (basic_block_at m a.first) ≡ suc a.index
        → follows m q r ≡ false }
{}

/// The rows of a block are a block of the new machine: it begins at the block's first state there, which keeps its name, and has
/// a
/// state for each row.
pub fn rows_are_blocks_of_the_new_machine()
    ensures first { (m : Fsmd) (rows : ℕ → List Item) (q : ℕ) → IsSound m → KeepsStores m rows → q < length m.states
        → is_first_of_block m q ≡ true → is_first_of_block (scheduled_machine m rows)
        (selected_place (kept_states m rows) q) ≡ true }
    ensures length { (m : Fsmd) (rows : ℕ → List Item) (q : ℕ) → IsSound m → KeepsStores m rows → q < length m.states
        → is_first_of_block m q ≡ true
        → length (basic_block_at (scheduled_machine m rows) (selected_place (kept_states m rows) q)) ≡ length (rows q) }
    ensures name { (m : Fsmd) (rows : ℕ → List Item) (q : ℕ) → IsSound m → KeepsStores m rows → q < length m.states
        → is_first_of_block m q ≡ true
        → (state_at (scheduled_machine m rows) (selected_place (kept_states m rows) q)).name ≡ (state_at m q).name }
{}
