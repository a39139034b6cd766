//! Makes inputs small that show a difference.

ghost use Rattle.std.specs.Prelude.{◌≡◌, ◌≤◌, None, IfOk, IsTrue};
ghost use Rattle.fs_pair.specs.Interfaces.{interface_fault};
ghost use Rattle.fs_stores.specs.InputValues.{inputs_of, signatures_of, Serves};
ghost use Rattle.fs_trials.specs.Differences.{ShowsDifference};
ghost use Rattle.hls_shrink.specs.Given.{has_no_input_port};
ghost use Rattle.fsmd_answers.specs.InputFiles.{signatures};
ghost use Rattle.fsmd_answers.specs.Shrinks.{IsOfShrink};

use crate::pair::Pair;
use crate::runs::replay_machines;
use fs_run_text::counterexample::counterexample_text;
use fs_stores::inputs::Inputs;
use fs_trials::differences::differing_ends;
use fsmd_replies::answer::{Answer, Lines};
use hls_shrink::laws::inputs_are_given_by_name;
use hls_shrink::shrink;
use std::alloc::{AllocError, Global};

// What inputs answer that show a difference: the lines of a counterexample, from the end of the chain of first reductions.
fn shrunk_answer(
    alloc: Global,
    pair: &Pair,
    inputs: &Inputs,
    steps: u64,
) -> Result<Answer, AllocError>
    requires steps { 1 ≤ steps }
    requires alike { interface_fault pair.now.left pair.now.right ≡ None }
    requires ports { IsTrue (has_no_input_port pair.now.left) }
    requires inputs { signatures_of inputs.now ≡ signatures pair.now.left }
    requires shows { ShowsDifference pair.now.left pair.now.right (inputs_of inputs.now) steps }
    ensures { IfOk result (IsOfShrink steps pair.now.left pair.now.right (inputs_of inputs.now)) }
{
    let Pair {
        left,
        right,
        pairing,
    } = pair;
    let _left = left.vars(); // The call tells the proof that the machine is sound.
    inputs_are_given_by_name();
    let small = match shrink(alloc, left, right, pairing, inputs, steps) {
        Ok(small) => small,
        Err(_) => return Err(AllocError),
    };
    match counterexample_text(alloc, &small.inputs, left, &small.left, right, &small.right) {
        Ok(text) => Ok(Answer::Differs {
            lines: Lines::of(text),
        }),
        Err(_) => Err(AllocError),
    }
}

/// What inputs of two machines with the same inputs and outputs answer that are to be made small, of runs of at most so many
/// steps: where they show a difference, the lines of a counterexample, from the end of the chain of first reductions that show
/// one; and else what a replay answers. The one refusal is out of memory.
pub fn shrink_inputs(
    alloc: Global,
    pair: &Pair,
    inputs: &Inputs,
    steps: u64,
) -> Result<Answer, AllocError>
    requires steps { 1 ≤ steps }
    requires alike { interface_fault pair.now.left pair.now.right ≡ None }
    requires ports { IsTrue (has_no_input_port pair.now.left) }
    requires inputs { signatures_of inputs.now ≡ signatures pair.now.left }
    requires serves { Serves (signatures_of inputs.now) pair.now.left }
    ensures { IfOk result (IsOfShrink steps pair.now.left pair.now.right (inputs_of inputs.now)) }
{
    match differing_ends(alloc, &pair.left, &pair.right, inputs, steps) {
        Ok(Some(_)) => shrunk_answer(alloc, pair, inputs, steps),
        Ok(None) => replay_machines(alloc, pair, inputs, steps),
        Err(_) => Err(AllocError),
    }
}
