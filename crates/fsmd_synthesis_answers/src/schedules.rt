//! The texts of schedules.

ghost use Rattle.std.specs.Prelude.{◌≡◌, ◌++◌, length, map, IsTrue, IfOk};
ghost use Rattle.std.specs.List.{flat_map};
ghost use Rattle.std.specs.Result.{OnOk, IfErr};
ghost use Rattle.fs_model.specs.View.{source_of};
ghost use Rattle.fs_model.specs.WellFormed.{is_well_formed};
ghost use Rattle.fs_lex.specs.MachineTexts.{TextSpells};
ghost use Rattle.fs_write.specs.Canonical.{canonical};
ghost use Rattle.fs_write.specs.CanonicalLines.{with_canonical_lines};
ghost use Rattle.fs_write.specs.CommentLines.{lines_moved};
ghost use Rattle.hls_unit_counts.specs.Counts.{units_in};
ghost use Rattle.hls_bind.specs.Results.{IsBuiltOf};
ghost use Rattle.hls_sched.specs.Reports.{report_of, IsNotScheduled};
ghost use Rattle.fsmd_synthesis_answers.specs.ScheduleAnswers.{report_text, IsScheduleText};

use fs_ast::machine::Machine;
use fs_cut::cover::Point;
use fs_cut::path_text::point_text;
use fs_model::parts::Parts;
use fs_write::write_parts;
use fsmd_replies::schedules::write_report_line;
use hls_sched::{LineReport, SchedError, Scheduled, schedule};
use hls_unit_counts::Units;
use std::alloc::{AllocError, Global};

// Adds what is told of a line.
fn write_report(
    alloc: Global,
    machine: &Machine,
    line: &LineReport,
    out: &mut Vec<u8>,
) -> Result<(), AllocError>
    ensures { OnOk result (out.new.items ≡ out.old.items ++ report_text machine.now (report_of line.now)) }
{
    let LineReport {
        first,
        before,
        after,
        chain,
    } = *line;
    write_report_line(
        alloc,
        point_text(machine, Point::At(first)),
        before,
        after,
        chain,
        out,
    )
}

// What is told of lines.
fn reports_text(
    alloc: Global,
    machine: &Machine,
    lines: &[LineReport],
) -> Result<Vec<u8>, AllocError>
    ensures { IfOk result (λ bytes. bytes.items ≡ flat_map (report_text machine.now) (map report_of lines.now)) }
{
    let mut out = Vec::new(alloc);
    for line in lines {
        write_report(alloc, machine, line, &mut out)?;
    }
    Ok(out)
}

// What is told of the lines of a machine, and the canonical text of its scheduled parts. Together they spell these parts, since
// what is told stands in comments.
fn schedule_text(
    alloc: Global,
    machine: &Machine,
    scheduled: &Scheduled,
) -> Result<Vec<u8>, AllocError>
    requires { IsTrue (is_well_formed (source_of scheduled.now.parts)) }
    ensures text { IfOk result
        (λ bytes. bytes.items ≡ flat_map (report_text machine.now) (map report_of scheduled.now.lines.items)
        ++ canonical (source_of scheduled.now.parts)) }
    ensures spells { IfOk result
        (λ bytes. TextSpells bytes.items
        (lines_moved (length scheduled.now.lines.items) (with_canonical_lines (source_of scheduled.now.parts)))) }
{
    let _sound = machine.vars(); // The call tells the proof that the machine is sound.
    let mut bytes = reports_text(alloc, machine, scheduled.lines.as_slice())?;
    match write_parts(alloc, &scheduled.parts) {
        Ok(text) => {
            bytes.extend_from_slice(text.as_slice())?;
            Ok(bytes)
        }
        Err(_) => Err(AllocError),
    }
}

/// What is told of the lines of the machine of parts under unit counts, and the canonical text of the parts with their lines in
/// rows. Together they spell the schedule of the machine. `Over` comes exactly where a transition uses more of a unit than is
/// given, and names the state of the first such transition and its first such unit. `NoMemory` may come at any time.
pub fn scheduled_text(
    alloc: Global,
    parts: &Parts,
    machine: &Machine,
    units: &Units,
) -> Result<Vec<u8>, SchedError>
    requires { IsBuiltOf (source_of parts.now) machine.now }
    ensures scheduled { IfOk result (λ text. IsScheduleText (units_in units.now) (source_of parts.now) text.items) }
    ensures refused { IfErr result (λ e. IsNotScheduled (units_in units.now) machine.now e) }
{
    let scheduled = schedule(alloc, parts, machine, units)?;
    match schedule_text(alloc, machine, &scheduled) {
        Ok(text) => Ok(text),
        Err(_) => Err(SchedError::NoMemory),
    }
}
