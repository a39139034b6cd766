//! Runs machines on inputs, and says what they answer.

ghost use Rattle.std.specs.Prelude.{◌≡◌, ◌≤◌, cond, None, IfOk};
ghost use Rattle.fs_pair.specs.Interfaces.{interface_fault};
ghost use Rattle.fs_stores.specs.InputValues.{inputs_of, signatures_of, Serves};
ghost use Rattle.fsmd_answers.specs.RunAnswers.{IsOfStop, IsOfRun};
ghost use Rattle.fsmd_answers.specs.Replays.{IsOfReplay};
ghost use Rattle.fsmd_replies.specs.declared.answer.Answer.TheVariants.{Text, Differs};

use crate::pair::Pair;
use fs_ast::machine::Machine;
use fs_run_text::ends::{Side, end_text, stop_text};
use fs_run_text::replay::{Replay, replay_text};
use fs_runs::run::{RunStop, run};
use fs_stores::inputs::Inputs;
use fsmd_replies::answer::{Answer, Lines};
use std::alloc::{AllocError, Global};

// What a run without an end answers.
fn stop_answer(alloc: Global, side: Side, stop: RunStop) -> Result<Answer, AllocError>
    ensures { IfOk result (IsOfStop side stop) }
{
    match stop_text(alloc, side, stop) {
        Ok(text) => Ok(Answer::Undecided {
            lines: Lines::of(text),
        }),
        Err(_) => Err(AllocError),
    }
}

/// What a run of a machine of at most so many steps from inputs answers. The one refusal is out of memory.
pub fn run_machine(
    alloc: Global,
    machine: &Machine,
    inputs: &Inputs,
    steps: u64,
) -> Result<Answer, AllocError>
    requires steps { 1 ≤ steps }
    requires inputs { Serves (signatures_of inputs.now) machine.now }
    ensures { IfOk result (IsOfRun steps machine.now (inputs_of inputs.now)) }
{
    let ended = match run(alloc, machine, inputs, steps) {
        Ok(ended) => ended,
        Err(stop) => return stop_answer(alloc, Side::Only, stop),
    };
    match end_text(alloc, machine, &ended) {
        Ok(text) => Ok(Answer::Text {
            lines: Lines::of(text),
        }),
        Err(_) => Err(AllocError),
    }
}

// What two runs that ended answer, with the same outputs or others.
fn replay_answer(same: bool, lines: Lines) -> Answer
    ensures { result ≡ cond same (Text lines) (Differs lines) }
{
    if same {
        Answer::Text { lines }
    } else {
        Answer::Differs { lines }
    }
}

/// What runs of at most so many steps of two machines with the same inputs and outputs answer, from the same inputs. The one
/// refusal is out of memory.
pub fn replay_machines(
    alloc: Global,
    pair: &Pair,
    inputs: &Inputs,
    steps: u64,
) -> Result<Answer, AllocError>
    requires steps { 1 ≤ steps }
    requires alike { interface_fault pair.now.left pair.now.right ≡ None }
    requires left_inputs { Serves (signatures_of inputs.now) pair.now.left }
    requires right_inputs { Serves (signatures_of inputs.now) pair.now.right }
    ensures { IfOk result (IsOfReplay steps pair.now.left pair.now.right (inputs_of inputs.now)) }
{
    let Pair { left, right, .. } = pair;
    let left_end = match run(alloc, left, inputs, steps) {
        Ok(ended) => ended,
        Err(stop) => return stop_answer(alloc, Side::Left, stop),
    };
    let right_end = match run(alloc, right, inputs, steps) {
        Ok(ended) => ended,
        Err(stop) => return stop_answer(alloc, Side::Right, stop),
    };
    match replay_text(alloc, left, &left_end, right, &right_end) {
        Ok(Replay { same, text }) => Ok(replay_answer(same, Lines::of(text))),
        Err(_) => Err(AllocError),
    }
}
