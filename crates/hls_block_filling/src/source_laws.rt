//! Laws of scheduled parts, over the definitions alone. The functions do nothing.

ghost use Rattle.std.specs.Prelude.{◌≡◌, ℕ, ◌<◌, IsTrue, Option, Some, length};
ghost use Rattle.fs_model.specs.Source.{Source};
ghost use Rattle.fs_model.specs.Machines.{Fsmd};
ghost use Rattle.fs_model.specs.WellFormed.{is_well_formed};
ghost use Rattle.fs_rules.specs.MachineOfParts.{machine_of};
ghost use Rattle.fs_model.specs.SoundMachines.{IsSound};
ghost use Rattle.fs_rules.specs.Rules.{BreaksNoRule};
ghost use Rattle.hls_block_filling.specs.ItemUnits.{Units};
ghost use Rattle.hls_block_filling.specs.Schedules.{IsWithin, schedule_of};
ghost use Rattle.hls_block_filling.specs.SourceRows.{named_moves, RowEffect, first_row_effect};
ghost use Rattle.hls_block_filling.specs.Sources.{source_by_rows, scheduled_source};

/// The parts of a scheduled machine spell it.
pub fn a_scheduled_text_spells_the_schedule()
    ensures { (units : Units) (p : Source) (m : Fsmd) → IsSound m → m ≡ machine_of p
        → machine_of (scheduled_source units p m) ≡ schedule_of units m }
{}

/// The parts of a scheduled machine are well formed where the parts before were, and keep all rules where no transition uses
/// more than the units.
pub fn a_scheduled_text_is_lawful()
    ensures formed { (units : Units) (p : Source) (m : Fsmd) → IsTrue (is_well_formed p)
        → IsTrue (is_well_formed (scheduled_source units p m)) }
    ensures lawful { (units : Units) (p : Source) (m : Fsmd) → IsSound m → m ≡ machine_of p → IsWithin units m
        → BreaksNoRule (scheduled_source units p m) }
{}

/// The rows of states decide the parts: where each state has the row that the blocks give it, they are the scheduled ones.
pub fn rows_decide_the_text()
    ensures { (units : Units) (p : Source) (m : Fsmd) (rows : ℕ → Option RowEffect)
        → ((q : ℕ) → q < length m.states → rows q ≡ first_row_effect (named_moves units p m) q)
        → source_by_rows p m rows ≡ scheduled_source units p m }
{}

/// The row of each state leads to a state.
pub fn rows_lead_to_states()
    ensures { (units : Units) (p : Source) (m : Fsmd) (q : ℕ) (d : RowEffect) → IsSound m
        → first_row_effect (named_moves units p m) q ≡ Some d → d.1 < length m.states }
{}
