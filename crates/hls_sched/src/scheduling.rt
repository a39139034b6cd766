//! List scheduling: the basic blocks of a machine in rows.

ghost use Rattle.std.specs.Prelude.{◌≡◌, ◌<◌, ◌++◌, true, None, length, map, IsTrue, IfOk};
ghost use Rattle.std.specs.List.{All};
ghost use Rattle.std.specs.Result.{OnOk, IfErr};
ghost use Rattle.fs_model.specs.Runs.{SameBehaviour};
ghost use Rattle.fs_model.specs.Source.{Source};
ghost use Rattle.fs_model.specs.View.{source_of};
ghost use Rattle.fs_model.specs.WellFormed.{is_well_formed};
ghost use Rattle.fs_ast.specs.MachineOfParts.{machine_of};
ghost use Rattle.fs_ast.specs.Rules.{BreaksNoRule};
ghost use Rattle.hls_block_filling.specs.ItemUnits.{units_in};
ghost use Rattle.hls_block_filling.specs.Schedules.{IsWithin, schedule_of};
ghost use Rattle.hls_block_filling.specs.SourceRows.{named_moves};
ghost use Rattle.hls_block_filling.specs.BasicBlocks.{is_first_of_block};
ghost use Rattle.hls_block_filling.specs.Sources.{scheduled_source};
ghost use Rattle.hls_block_filling.specs.Over.{over_in};
ghost use Rattle.hls_sched.specs.Arrivals.{AreArrivals};
ghost use Rattle.hls_sched.specs.RowMoves.{move_of, IsMoveAmong};
ghost use Rattle.hls_sched.specs.TracedBlocks.{moves_from};
ghost use Rattle.hls_sched.specs.Reports.{report_of, report_at, reports, KeepsLengths, IsNotScheduled};
ghost use Rattle.hls_sched.specs.declared.scheduling.SchedError.TheVariants as errors;

use crate::arrivals::{Arrivals, count_arrivals};
use crate::blocks::{firsts, trace_block};
use crate::moves::{Move, add_moves};
use crate::parts::moved_parts;
use crate::plans::plan_block;
use fs_ast::lawful_machines::build_lawful;
use fs_ast::machine::Machine;
use fs_model::memory::push_made;
use fs_model::name::NoMemory;
use fs_model::parts::{Parts, StateId};
use hls_block_filling::over::over_in;
use hls_block_filling::source_laws::{
    a_scheduled_text_is_lawful, a_scheduled_text_spells_the_schedule,
};
use hls_block_filling::unit_laws::machines_within_the_units;
use hls_unit_counts::{Unit, Units};
use std::alloc::Global;

/// A block: its first state, its length, how many rows it has now, and its chain.
#[derive(Clone, Copy)]
pub struct LineReport {
    pub first: StateId,
    pub before: u32,
    pub after: u32,
    pub chain: u32,
}

/// A machine whose blocks are scheduled: its parts, the machine that they spell, and what became of each block, in the
/// order of first states.
#[derive(Drop)]
pub struct Scheduled {
    pub parts: Parts,
    pub machine: Machine,
    pub lines: Vec<LineReport>,
}

/// Why a machine is not scheduled.
#[derive(Clone, Copy)]
pub enum SchedError {
    /// A transition of the state uses more of the unit than is given.
    Over { state: StateId, unit: Unit },
    /// There is no memory.
    NoMemory,
}

impl From<NoMemory> for SchedError {
    ghost from_gives = { λ _ e. e ≡ errors.NoMemory };

    fn from(_refused: NoMemory) -> SchedError {
        SchedError::NoMemory
    }
}

// The rows of all blocks in their states, and what becomes of each block.
#[derive(Drop)]
struct Blocks {
    moves: Vec<Move>,
    reports: Vec<LineReport>,
}

// Adds the rows of the block of a first state, in the first states of the block. What becomes of it.
fn schedule_block(
    alloc: Global,
    m: &Machine,
    units: &Units,
    arrivals: &[Arrivals],
    first: StateId,
    out: &mut Vec<Move>,
) -> Result<LineReport, NoMemory>
    requires within { IsWithin (units_in units.now) m.now }
    requires arrivals { AreArrivals m.now arrivals.now }
    requires first { first.0 < length m.now.states }
    requires starts { is_first_of_block m.now first.0 ≡ true }
    requires among { All (IsMoveAmong (length m.now.states)) out.now.items }
    ensures report { IfOk result (λ r. report_of r ≡ report_at (units_in units.now) m.now first.0) }
    ensures moves { OnOk result
        ((p : Source) → map (move_of p) out.new.items ≡ map (move_of p) out.old.items
        ++ moves_from (units_in units.now) p m.now first.0) }
    ensures among { OnOk result (All (IsMoveAmong (length m.now.states)) out.new.items) }
{
    let _vars = m.vars(); // The call tells the proof that the machine is sound.
    let block = trace_block(alloc, m, arrivals, first)?;
    let plan = plan_block(alloc, m, first, &block, units)?;
    add_moves(alloc, &block, &plan, out)?;
    Ok(LineReport {
        first,
        before: block.states.len() as u32,
        after: plan.count,
        chain: plan.chain,
    })
}

// The rows of all blocks in their states, and what becomes of each block.
fn schedule_blocks(alloc: Global, m: &Machine, units: &Units) -> Result<Blocks, NoMemory>
    requires within { IsWithin (units_in units.now) m.now }
    ensures reports { IfOk result (λ l. map report_of l.reports.items ≡ reports (units_in units.now) m.now) }
    ensures moves { IfOk result (λ l. (p : Source) → map (move_of p) l.moves.items ≡ named_moves (units_in units.now) p m.now) }
    ensures among { IfOk result (λ l. All (IsMoveAmong (length m.now.states)) l.moves.items) }
{
    let arrivals = count_arrivals(alloc, m)?;
    let firsts = firsts(alloc, m, &arrivals)?;
    let mut moves = Vec::new(alloc);
    let mut reports = Vec::new(alloc);
    for first in &firsts {
        push_made(
            &mut reports,
            schedule_block(alloc, m, units, &arrivals, *first, &mut moves),
        )?;
    }
    Ok(Blocks { moves, reports })
}

// The parts with all blocks in rows, and what becomes of each block.
fn parts_in_rows(
    alloc: Global,
    parts: &Parts,
    m: &Machine,
    units: &Units,
) -> Result<(Parts, Vec<LineReport>), NoMemory>
    requires within { IsWithin (units_in units.now) m.now }
    requires built { m.now ≡ machine_of (source_of parts.now) }
    ensures parts { IfOk result (λ r. source_of r.0 ≡ scheduled_source (units_in units.now) (source_of parts.now) m.now) }
    ensures lines { IfOk result (λ r. map report_of r.1.items ≡ reports (units_in units.now) m.now) }
{
    let Blocks { moves, reports } = schedule_blocks(alloc, m, units)?;
    let parts = moved_parts(alloc, parts, m, &moves)?;
    Ok((parts, reports))
}

/// Schedules each basic block of a machine under a number of units. Rows are filled one after another, of the
/// items whose earlier ones and whose units let them stand in the row the highest first, at a tie the first; the rows
/// stand in the first states of the block, and its other states are left out. The parts are those of which the machine
/// was built.
///
/// `Over` comes exactly where a transition uses more of a unit than is given: it names the first state, in order, that
/// has such a branch, and the first such unit of its first such branch. `NoMemory` may come at any time.
///
/// Takes time in the square of the states and linear in the rest.
pub fn schedule(
    alloc: Global,
    parts: &Parts,
    m: &Machine,
    units: &Units,
) -> Result<Scheduled, SchedError>
    requires formed { IsTrue (is_well_formed (source_of parts.now)) }
    requires built { m.now ≡ machine_of (source_of parts.now) }
    ensures parts { IfOk result (λ s. source_of s.parts ≡ scheduled_source (units_in units.now) (source_of parts.now) m.now) }
    ensures formed { IfOk result (λ s. IsTrue (is_well_formed (source_of s.parts))) }
    ensures lawful { IfOk result (λ s. BreaksNoRule (source_of s.parts)) }
    ensures spelled { IfOk result (λ s. s.machine ≡ machine_of (source_of s.parts)) }
    ensures machine { IfOk result (λ s. s.machine ≡ schedule_of (units_in units.now) m.now) }
    ensures behaves { IfOk result (λ s. SameBehaviour m.now s.machine) }
    ensures within { IfOk result (λ s. IsWithin (units_in units.now) s.machine) }
    ensures lines { IfOk result (λ s. map report_of s.lines.items ≡ reports (units_in units.now) m.now) }
    ensures lengths { IfOk result (λ s. All (λ r. KeepsLengths (units_in units.now) m.now (report_of r)) s.lines.items) }
    ensures fits { OnOk result (over_in (units_in units.now) m.now ≡ None) }
    ensures refused { IfErr result (λ e. IsNotScheduled (units_in units.now) m.now e) }
{
    let _vars = m.vars(); // The call tells the proof that the machine is sound.
    if let Some((state, unit)) = over_in(m, units) {
        return Err(SchedError::Over { state, unit });
    }
    machines_within_the_units();
    let (parts, lines) = parts_in_rows(alloc, parts, m, units)?;
    a_scheduled_text_is_lawful();
    let machine = build_lawful(alloc, &parts)?;
    a_scheduled_text_spells_the_schedule();
    Ok(Scheduled {
        parts,
        machine,
        lines,
    })
}
