//! What the commands of synthesis answer, from their files.

ghost use Rattle.std.specs.Prelude.{Some};
ghost use Rattle.fsmd_words.specs.AskedWords.{asked_of_ask};
ghost use Rattle.fs_model.specs.View.{source_of};
ghost use Rattle.fs_ast.specs.MachineOfParts.{machine_of};
ghost use Rattle.hls_bind.specs.Results.{IsBuiltOf};
ghost use Rattle.fsmd_answers.specs.ProgramFiles.{IsOfProgram};
ghost use Rattle.fsmd_answers.specs.ScheduleFiles.{IsOfSchedule};
ghost use Rattle.fsmd_answers.specs.BindingFiles.{IsOfBinding};
ghost use Rattle.fsmd_answers.specs.Follows.{Ends, OpensParts, OpensProgram, OpensUnits, OpensBinding};
ghost use Rattle.fsmd_tool.specs.Calls.{call, OnlyRead, LoadsAtMost, IsCorrectInOrder, AnswersBy};

use crate::load::{load, load_binding, load_compiled, load_units};
use fs_base::outside::Files;
use fsmd_answers::bindings::bind_machine;
use fsmd_answers::reading::Loaded;
use fsmd_answers::refused::{Refused, made_answer};
use fsmd_answers::schedules::schedule_machine;
use fsmd_replies::answer::{Answer, Operand};
use fsmd_words::asking::Ask;
use std::alloc::Global;

/// What `compile` answers: the canonical text of the machine of a program. Where the file spells none, the answer that refuses
/// it; or out of memory.
pub fn compile_file<F: Files>(alloc: Global, ask: &Ask, files: &mut F) -> Result<Answer, Refused>
    ensures answers { AnswersBy (IsCorrectInOrder (OpensProgram (λ p. Ends (IsOfProgram p))) 0
        (call (Some (asked_of_ask ask.now)) (F.told files.old) (F.told files.new))) result }
    ensures only_read { OnlyRead (F.told files.old) (F.told files.new) }
    ensures at_most { LoadsAtMost (Some (asked_of_ask ask.now)) 0 1 (F.told files.old) (F.told files.new) }
{
    load_compiled(alloc, Operand(0), ask, files)
}

// What the machine of parts is answered under the file of unit counts.
fn schedule_from<F: Files>(
    alloc: Global,
    ask: &Ask,
    loaded: &Loaded,
    files: &mut F,
) -> Result<Answer, Refused>
    requires { IsBuiltOf (source_of loaded.now.parts) loaded.now.machine }
    ensures answers { AnswersBy (IsCorrectInOrder
        (OpensUnits (λ counts. Ends (IsOfSchedule (source_of loaded.now.parts) counts))) 1
        (call (Some (asked_of_ask ask.now)) (F.told files.old) (F.told files.new))) result }
    ensures only_read { OnlyRead (F.told files.old) (F.told files.new) }
    ensures at_most { LoadsAtMost (Some (asked_of_ask ask.now)) 1 1 (F.told files.old) (F.told files.new) }
{
    let units = load_units(alloc, Operand(1), ask, files)?;
    made_answer(schedule_machine(alloc, &loaded.parts, &loaded.machine, &units))
}

/// What `schedule` answers: a machine with its lines in rows, under the units of a file. Where a file is refused, the answer
/// that refuses the first such; or out of memory.
pub fn schedule_files<F: Files>(alloc: Global, ask: &Ask, files: &mut F) -> Result<Answer, Refused>
    ensures answers { AnswersBy (IsCorrectInOrder
        (OpensParts (λ parts. OpensUnits (λ counts. Ends (IsOfSchedule parts counts)))) 0
        (call (Some (asked_of_ask ask.now)) (F.told files.old) (F.told files.new))) result }
    ensures only_read { OnlyRead (F.told files.old) (F.told files.new) }
    ensures at_most { LoadsAtMost (Some (asked_of_ask ask.now)) 0 2 (F.told files.old) (F.told files.new) }
{
    let loaded = load(alloc, Operand(0), ask, files)?;
    schedule_from(alloc, ask, &loaded, files)
}

// What the machine of parts is answered to the file of its binding.
fn bind_from<F: Files>(
    alloc: Global,
    ask: &Ask,
    loaded: &Loaded,
    files: &mut F,
) -> Result<Answer, Refused>
    requires { IsBuiltOf (source_of loaded.now.parts) loaded.now.machine }
    ensures answers { AnswersBy (IsCorrectInOrder
        (OpensBinding (machine_of (source_of loaded.now.parts)) (λ b. Ends (IsOfBinding (source_of loaded.now.parts) b))) 1
        (call (Some (asked_of_ask ask.now)) (F.told files.old) (F.told files.new))) result }
    ensures only_read { OnlyRead (F.told files.old) (F.told files.new) }
    ensures at_most { LoadsAtMost (Some (asked_of_ask ask.now)) 1 1 (F.told files.old) (F.told files.new) }
{
    let binding = load_binding(alloc, Operand(1), ask, &loaded.machine, files)?;
    made_answer(bind_machine(alloc, &loaded.parts, &loaded.machine, &binding))
}

/// What `bind` answers: a machine with registers for its locals, or the first branch that loses one. Where a file is refused,
/// the answer that refuses the first such; or out of memory.
pub fn bind_files<F: Files>(alloc: Global, ask: &Ask, files: &mut F) -> Result<Answer, Refused>
    ensures answers { AnswersBy (IsCorrectInOrder
        (OpensParts (λ parts. OpensBinding (machine_of parts) (λ b. Ends (IsOfBinding parts b)))) 0
        (call (Some (asked_of_ask ask.now)) (F.told files.old) (F.told files.new))) result }
    ensures only_read { OnlyRead (F.told files.old) (F.told files.new) }
    ensures at_most { LoadsAtMost (Some (asked_of_ask ask.now)) 0 2 (F.told files.old) (F.told files.new) }
{
    let loaded = load(alloc, Operand(0), ask, files)?;
    bind_from(alloc, ask, &loaded, files)
}
