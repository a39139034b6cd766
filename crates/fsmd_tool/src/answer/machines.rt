//! What the commands of one machine answer, from their files.

ghost use Rattle.std.specs.Prelude.{◌≡◌, ◌≤◌, IfOk, IsTrue, Some};
ghost use Rattle.fsmd_words.specs.AskedWords.{asked_of_ask};
ghost use Rattle.fs_model.specs.View.{source_of};
ghost use Rattle.fs_model.specs.WellFormed.{is_well_formed};
ghost use Rattle.fs_write.specs.Canonical.{canonical};
ghost use Rattle.fs_cut.specs.PathTexts.{paths_text};
ghost use Rattle.fsmd_replies.specs.declared.answer.Answer.TheVariants.{Text};
ghost use Rattle.fsmd_answers.specs.RunAnswers.{IsOfRun};
ghost use Rattle.fsmd_answers.specs.Follows.{Ends, OpensMachine, OpensParts, OpensInputs};
ghost use Rattle.fsmd_tool.specs.Calls.{call, OnlyRead, LoadsAtMost, IsCorrectInOrder, AnswersBy};

use crate::load::{load, load_inputs};
use fs_ast::machine::Machine;
use fs_base::outside::Files;
use fs_cut::path_text::list_paths;
use fs_model::parts::Parts;
use fs_write::write_parts;
use fsmd_answers::refused::{Refused, made_answer};
use fsmd_answers::runs::run_machine;
use fsmd_replies::answer::{Answer, Lines, Operand};
use fsmd_words::asking::Ask;
use std::alloc::{AllocError, Global};

// The canonical text of parts, as an answer. The one refusal is out of memory.
fn canonical_text(alloc: Global, parts: &Parts) -> Result<Answer, AllocError>
    requires { IsTrue (is_well_formed (source_of parts.now)) }
    ensures { IfOk result (λ answer. answer ≡ Text (canonical (source_of parts.now))) }
{
    match write_parts(alloc, parts) {
        Ok(text) => Ok(Answer::Text {
            lines: Lines::of(text),
        }),
        Err(_) => Err(AllocError),
    }
}

// The paths of a machine, as an answer. The one refusal is out of memory.
fn text_of_paths(alloc: Global, machine: &Machine) -> Result<Answer, AllocError>
    ensures { IfOk result (λ answer. answer ≡ Text (paths_text machine.now)) }
{
    let lines = Lines::of(list_paths(alloc, machine)?);
    Ok(Answer::Text { lines })
}

/// What `fmt` answers: the canonical text of a machine. Where the file spells none, the answer that refuses it; or out of
/// memory.
pub fn format_text<F: Files>(alloc: Global, ask: &Ask, files: &mut F) -> Result<Answer, Refused>
    ensures answers { AnswersBy (IsCorrectInOrder (OpensParts (λ parts. Ends (λ answer. answer ≡ Text (canonical parts)))) 0
        (call (Some (asked_of_ask ask.now)) (F.told files.old) (F.told files.new))) result }
    ensures only_read { OnlyRead (F.told files.old) (F.told files.new) }
    ensures at_most { LoadsAtMost (Some (asked_of_ask ask.now)) 0 1 (F.told files.old) (F.told files.new) }
{
    let loaded = load(alloc, Operand(0), ask, files)?;
    made_answer(canonical_text(alloc, &loaded.parts))
}

/// What `cuts` answers: the paths of a machine. Where the file spells none, the answer that refuses it; or out of memory.
pub fn cut_paths<F: Files>(alloc: Global, ask: &Ask, files: &mut F) -> Result<Answer, Refused>
    ensures answers { AnswersBy (IsCorrectInOrder (OpensMachine (λ m. Ends (λ answer. answer ≡ Text (paths_text m)))) 0
        (call (Some (asked_of_ask ask.now)) (F.told files.old) (F.told files.new))) result }
    ensures only_read { OnlyRead (F.told files.old) (F.told files.new) }
    ensures at_most { LoadsAtMost (Some (asked_of_ask ask.now)) 0 1 (F.told files.old) (F.told files.new) }
{
    let loaded = load(alloc, Operand(0), ask, files)?;
    made_answer(text_of_paths(alloc, &loaded.machine))
}

// What a run of a machine answers to the file of its inputs.
fn run_from<F: Files>(
    alloc: Global,
    ask: &Ask,
    machine: &Machine,
    steps: u64,
    files: &mut F,
) -> Result<Answer, Refused>
    requires { 1 ≤ steps }
    ensures answers { AnswersBy (IsCorrectInOrder (OpensInputs machine.now (λ ins. Ends (IsOfRun steps machine.now ins))) 1
        (call (Some (asked_of_ask ask.now)) (F.told files.old) (F.told files.new))) result }
    ensures only_read { OnlyRead (F.told files.old) (F.told files.new) }
    ensures at_most { LoadsAtMost (Some (asked_of_ask ask.now)) 1 1 (F.told files.old) (F.told files.new) }
{
    let inputs = load_inputs(alloc, Operand(1), ask, machine, files)?;
    made_answer(run_machine(alloc, machine, &inputs, steps))
}

/// What `run` answers: the end of a machine's run of at most so many steps, or why it has none. Where a file is refused, the
/// answer that refuses the first such; or out of memory.
pub fn run_files<F: Files>(
    alloc: Global,
    ask: &Ask,
    steps: u64,
    files: &mut F,
) -> Result<Answer, Refused>
    requires { 1 ≤ steps }
    ensures answers { AnswersBy (IsCorrectInOrder (OpensMachine (λ m. OpensInputs m (λ ins. Ends (IsOfRun steps m ins)))) 0
        (call (Some (asked_of_ask ask.now)) (F.told files.old) (F.told files.new))) result }
    ensures only_read { OnlyRead (F.told files.old) (F.told files.new) }
    ensures at_most { LoadsAtMost (Some (asked_of_ask ask.now)) 0 2 (F.told files.old) (F.told files.new) }
{
    let loaded = load(alloc, Operand(0), ask, files)?;
    run_from(alloc, ask, &loaded.machine, steps, files)
}
