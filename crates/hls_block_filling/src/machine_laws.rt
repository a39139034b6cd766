//! Laws of schedules, over the definitions alone. The functions do nothing.

ghost use Rattle.std.specs.Prelude.{◌≡◌, ℕ, ◌<◌, ◌≤◌, true, length};
ghost use Rattle.fs_model.specs.Machines.{Fsmd};
ghost use Rattle.fs_model.specs.Runs.{SameBehaviour};
ghost use Rattle.fs_model.specs.SoundMachines.{IsSound};
ghost use Rattle.hls_block_filling.specs.BasicBlocks.{is_first_of_block, basic_block_at, items_at};
ghost use Rattle.hls_block_filling.specs.ItemUnits.{Units, none_used, suffice};
ghost use Rattle.hls_block_filling.specs.Heights.{chain_of};
ghost use Rattle.hls_block_filling.specs.Filling.{graph_of, used_by_all};
ghost use Rattle.hls_block_filling.specs.Schedules.{IsWithin, rows_by, schedule_of};

/// A machine each of whose transitions is within the units behaves as it did when its blocks are scheduled under these.
pub fn a_schedule_behaves()
    ensures { (m : Fsmd) (units : Units) → IsSound m → IsWithin units m → SameBehaviour m (schedule_of units m) }
{}

/// No block gets longer, none is shorter than its chain, and where the units suffice for all its items it is as long as that.
pub fn blocks_have_their_lengths()
    ensures no_longer { (m : Fsmd) (units : Units) (q : ℕ) → IsSound m → IsWithin units m → q < length m.states
        → is_first_of_block m q ≡ true → length (rows_by units m q) ≤ length (basic_block_at m q) }
    ensures chain { (m : Fsmd) (units : Units) (q : ℕ) → IsSound m → IsWithin units m → q < length m.states
        → is_first_of_block m q ≡ true → chain_of (items_at m q) ≤ length (rows_by units m q) }
    ensures ample { (m : Fsmd) (units : Units) (q : ℕ) → IsSound m → IsWithin units m → q < length m.states
        → is_first_of_block m q ≡ true → suffice units none_used (used_by_all (graph_of (items_at m q)) (length (items_at m q)))
        ≡ true → length (rows_by units m q) ≡ chain_of (items_at m q) }
{}

/// No transition of a scheduled machine uses more than the units.
pub fn a_schedule_is_within_the_units()
    ensures { (m : Fsmd) (units : Units) → IsSound m → IsWithin units m → IsWithin units (schedule_of units m) }
{}
