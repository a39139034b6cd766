//! Counterexamples among stated candidate inputs.

ghost use Rattle.std.specs.Prelude.{◌≡◌, ◌≤◌, None, map, IfOk, MatchOption};
ghost use Rattle.fs_pair.specs.Interfaces.{interface_fault};
ghost use Rattle.fs_stores.specs.Values.{content_of};
ghost use Rattle.fs_stores.specs.InputValues.{input_values, signatures_of, input_signatures};
ghost use Rattle.fs_runs.specs.Outcomes.{output_names, told_by, HoldsEach};
ghost use Rattle.fs_run_text.specs.ItemTexts.{input_names};
ghost use Rattle.fs_run_text.specs.EndTexts.{IsCounterexampleText};
ghost use Rattle.fsmd_pair_answers.specs.PairAnswers.{IsCounterexample, NoneDiffers};

use fs_ast::machine::Machine;
use fs_pair::positions::Pairing;
use fs_run_text::counterexample::counterexample_text;
use fs_trials::differences::{Found, first_difference, first_difference_among};
use nf_terms::stop::NoMemory;
use std::alloc::Global;

fn text_of(alloc: Global, a: &Machine, b: &Machine, found: &Found) -> Result<Vec<u8>, NoMemory>
    requires interface { interface_fault a.now b.now ≡ None }
    requires inputs { signatures_of found.now.inputs ≡ input_signatures a.now.variables }
    requires left { HoldsEach (told_by a.now found.now.left.outputs.items) (output_names a.now.variables) }
    requires right { HoldsEach (told_by b.now found.now.right.outputs.items) (output_names b.now.variables) }
    ensures { IfOk result
        (λ text. IsCounterexampleText (input_names a.now.variables) (map content_of (input_values found.now.inputs))
        (output_names a.now.variables) (told_by a.now found.now.left.outputs.items)
        (told_by b.now found.now.right.outputs.items) text.items) }
{
    match counterexample_text(alloc, &found.inputs, a, &found.left, b, &found.right) {
        Ok(text) => Ok(text),
        Err(_) => Err(NoMemory),
    }
}

/// The lines of the first stated candidate that shows a difference within so many steps, if one does. The one refusal is out of
/// memory.
pub fn counterexample(
    alloc: Global,
    a: &Machine,
    b: &Machine,
    p: &Pairing,
    steps: u64,
) -> Result<Option<Vec<u8>>, NoMemory>
    requires steps { 1 ≤ steps }
    requires interface { interface_fault a.now b.now ≡ None }
    ensures { IfOk result
        (λ o. MatchOption o (NoneDiffers steps a.now b.now) (λ lines. IsCounterexample steps a.now b.now lines.items)) }
{
    let _left = a.vars(); // These two calls tell the proof that both machines are sound.
    let _right = b.vars();
    match first_difference(alloc, a, b, p, steps) {
        Ok(Some(found)) => Ok(Some(text_of(alloc, a, b, &found)?)),
        Ok(None) => Ok(None),
        Err(_) => Err(NoMemory),
    }
}

// How many of the stated candidates are tried before a second search, and with how many steps at most.
const FIRST_CANDIDATES: u64 = 256;

const FIRST_STEPS: u64 = 1_000;

/// Whether one of the first 256 stated candidates shows a difference within 1,000 steps, and within so many. The one refusal is
/// out of memory.
pub fn differ_soon(
    alloc: Global,
    a: &Machine,
    b: &Machine,
    p: &Pairing,
    steps: u64,
) -> Result<bool, NoMemory>
    requires steps { 1 ≤ steps }
    requires interface { interface_fault a.now b.now ≡ None }
{
    match first_difference_among(alloc, a, b, p, steps.min(FIRST_STEPS), FIRST_CANDIDATES) {
        Ok(found) => Ok(found.is_some()),
        Err(_) => Err(NoMemory),
    }
}
