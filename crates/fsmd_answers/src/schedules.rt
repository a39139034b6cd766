//! Reads unit counts, and schedules machines under them.

ghost use Rattle.std.specs.Prelude.{◌≤◌, ℕ, List, length, IfOk};
ghost use Rattle.std.specs.Result.{IfErr};
ghost use Rattle.fs_model.specs.Limits.{most_text_bytes};
ghost use Rattle.fs_model.specs.View.{source_of};
ghost use Rattle.hls_unit_counts.specs.Counts.{units_in};
ghost use Rattle.hls_unit_counts.specs.Refusals.{IsRefusedAsCounts};
ghost use Rattle.hls_bind.specs.Results.{IsBuiltOf};
ghost use Rattle.fsmd_answers.specs.Readings.{Readable};
ghost use Rattle.fsmd_answers.specs.ScheduleFiles.{SpellUnits, RefusesUnits, IsOfSchedule};
ghost use Rattle.fsmd_answers.specs.Refusing.{WhereAnswered};

use crate::reading::refused_at;
use crate::refused::Refused;
use fs_ast::machine::Machine;
use fs_cut::cover::Point;
use fs_cut::path_text::point_text;
use fs_model::parts::Parts;
use fsmd_replies::answer::{Answer, KeyFault, Lines, Operand};
use fsmd_synthesis_answers::SchedError;
use fsmd_synthesis_answers::schedules::scheduled_text;
use hls_unit_counts::{UnitError, Units, read_units as read_unit_counts};
use std::alloc::{AllocError, Global};

// The refusal of a file of unit counts.
fn refused_units(file: Operand, error: UnitError) -> Refused
    ensures { (bytes : List ℕ) → length bytes ≤ most_text_bytes → IsRefusedAsCounts bytes error
        → WhereAnswered (RefusesUnits file (Readable bytes)) result }
{
    match error {
        UnitError::NotJson => Refused::Answered(Answer::NotJson { file }),
        UnitError::Shape { name } => refused_at(file, KeyFault::Shape, name),
        UnitError::UnknownName { name } => refused_at(file, KeyFault::UnknownName, name),
        UnitError::NoMemory => Refused::NoMemory,
    }
}

/// The unit counts that the bytes of a file spell, or the answer that refuses them.
pub fn read_units(alloc: Global, file: Operand, bytes: &[u8]) -> Result<Units, Refused>
    requires { length bytes.now ≤ most_text_bytes }
    ensures spell { IfOk result (λ u. SpellUnits (units_in u) bytes.now) }
    ensures refused { IfErr result (WhereAnswered (RefusesUnits file (Readable bytes.now))) }
{
    match read_unit_counts(alloc, bytes) {
        Ok(units) => Ok(units),
        Err(error) => Err(refused_units(file, error)),
    }
}

/// What the machine of parts is answered under unit counts: its schedule, or the first state of which a transition uses
/// more of a unit than they give. The one refusal is out of memory.
pub fn schedule_machine(
    alloc: Global,
    parts: &Parts,
    machine: &Machine,
    units: &Units,
) -> Result<Answer, AllocError>
    requires { IsBuiltOf (source_of parts.now) machine.now }
    ensures { IfOk result (IsOfSchedule (source_of parts.now) (units_in units.now)) }
{
    match scheduled_text(alloc, parts, machine, units) {
        Ok(text) => Ok(Answer::Text {
            lines: Lines::of(text),
        }),
        Err(SchedError::Over { state, unit }) => {
            let name = point_text(machine, Point::At(state)).to_vec(alloc)?;
            Ok(Answer::Over {
                file: Operand(1),
                state: Lines::of(name),
                unit,
            })
        }
        Err(SchedError::NoMemory) => Err(AllocError),
    }
}
