//! Machines within a number of units, over the definitions alone. The functions do nothing.

ghost use Rattle.std.specs.Prelude.{◌≡◌, ℕ, ◌<◌, true, List, None, length};
ghost use Rattle.fs_model.specs.Machines.{Fsmd};
ghost use Rattle.fs_model.specs.SoundMachines.{IsSound};
ghost use Rattle.hls_block_filling.specs.BasicBlocks.{is_first_of_block, items_at};
ghost use Rattle.hls_block_filling.specs.ItemUnits.{Units};
ghost use Rattle.hls_block_filling.specs.Schedules.{IsWithin};
ghost use Rattle.hls_block_filling.specs.declared.effects.Effects.{Effects};
ghost use Rattle.hls_block_filling.specs.declared.uses.Uses.{Uses};
ghost use Rattle.hls_block_filling.specs.Plans.{AreCountedOf};
ghost use Rattle.hls_block_filling.specs.Over.{over_in};
ghost use Rattle.hls_block_filling.specs.Counted.{AreCounts, AreCounted};

/// No branch of a sound machine uses more of a unit than is given exactly where each transition is within the units.
pub fn machines_within_the_units()
    ensures none { (m : Fsmd) (units : Units) → IsSound m → IsWithin units m → over_in units m ≡ None }
    ensures within { (m : Fsmd) (units : Units) → IsSound m → over_in units m ≡ None → IsWithin units m }
{}

/// Where each transition of a sound machine is within the units, what is counted of the items of a block is exact: no
/// use is cut off, and each variable fits into a set.
pub fn items_within_the_units_are_counted()
    ensures { (m : Fsmd) (units : Units) (q : ℕ) (es : List Effects) (us : List Uses) → IsSound m → IsWithin units m
        → AreCounts units → q < length m.states → is_first_of_block m q ≡ true → AreCounted es us (items_at m q)
        → AreCountedOf es us (items_at m q) }
{}
