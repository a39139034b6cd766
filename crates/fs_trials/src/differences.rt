//! Inputs that show a difference of two machines, and the first stated candidate that does.

ghost use Rattle.std.specs.Prelude.{◌≡◌, ◌≤◌, ◌<◌, ℕ, IfOk, MatchOption, IfSome, None, map};
ghost use Rattle.fs_pair.specs.Interfaces.{interface_fault};
ghost use Rattle.fs_stores.specs.Values.{content_of};
ghost use Rattle.fs_stores.specs.InputValues.{input_values, inputs_of, signatures_of, input_signatures, Serves};
ghost use Rattle.fs_trials.specs.Candidates.{stated_count, stated_contents, stated_inputs};
ghost use Rattle.fs_trials.specs.Differences.{ShowsDifference, DiffersAt, IsEnd, HasNoEnd, AreApart};

use crate::candidates::Candidates;
use fs_ast::machine::Machine;
use fs_pair::positions::Pairing;
use fs_run_text::replay::same_outputs;
use fs_runs::run::{Ended, RunStop, run};
use fs_stores::inputs::Inputs;
use fs_stores::memory::NoMemory;
use std::alloc::Global;

/// A stated candidate that shows a difference: its number, its inputs, and how the run of each machine ended.
#[derive(Drop)]
pub struct Found {
    pub j: u64,
    pub inputs: Inputs,
    pub left: Ended,
    pub right: Ended,
}

/// The first of so many stated candidates that shows a difference of two machines with the same inputs and outputs: both runs end
/// within so many steps and touch no number outside 128 bits, and an output differs. `None` exactly where none of these does. The
/// only refusal is out of memory.
pub fn first_difference_among(
    alloc: Global,
    a: &Machine,
    b: &Machine,
    _p: &Pairing,
    steps: u64,
    most: u64,
) -> Result<Option<Found>, NoMemory>
    requires steps { 1 ≤ steps }
    requires interfaces { interface_fault a.now b.now ≡ None }
    ensures number { IfOk result (λ o. IfSome o (λ f. f.j < stated_count a.now b.now)) }
    ensures inputs { IfOk result (λ o. IfSome o (λ f. inputs_of f.inputs ≡ stated_inputs a.now b.now f.j)) }
    ensures signatures { IfOk result (λ o. IfSome o (λ f. signatures_of f.inputs ≡ input_signatures a.now.variables)) }
    ensures contents { IfOk result
        (λ o. IfSome o (λ f. map content_of (input_values f.inputs) ≡ stated_contents a.now b.now f.j)) }
    ensures ends { IfOk result (λ o. IfSome o (λ f. AreApart a.now b.now (inputs_of f.inputs) steps f.left f.right)) }
    ensures shows { IfOk result (λ o. IfSome o (λ f. DiffersAt a.now b.now steps f.j)) }
    ensures first { IfOk result (λ o. IfSome o (λ f. (i : ℕ) → i < f.j → ¬ DiffersAt a.now b.now steps i)) }
    ensures none { IfOk result
        (λ o. o ≡ None → (i : ℕ) → i < most → i < stated_count a.now b.now → ¬ DiffersAt a.now b.now steps i) }
{
    let candidates = Candidates::of(alloc, a, b)?;
    for j in 0..candidates.count() {
        if most <= j {
            return Ok(None);
        }
        let inputs = candidates.inputs(alloc, j, a)?;
        if let Some((left, right)) = differing_ends(alloc, a, b, &inputs, steps)? {
            return Ok(Some(Found {
                j,
                inputs,
                left,
                right,
            }));
        }
    }
    Ok(None)
}

/// The first stated candidate that shows a difference of two machines with the same inputs and outputs: both runs end within
/// so many steps and touch no number outside 128 bits, and an output differs. `None` exactly where no stated candidate does.
/// The further candidates are tried only where no candidate of the pool does. The only refusal is out of memory.
pub fn first_difference(
    alloc: Global,
    a: &Machine,
    b: &Machine,
    p: &Pairing,
    steps: u64,
) -> Result<Option<Found>, NoMemory>
    requires steps { 1 ≤ steps }
    requires interfaces { interface_fault a.now b.now ≡ None }
    ensures number { IfOk result (λ o. IfSome o (λ f. f.j < stated_count a.now b.now)) }
    ensures inputs { IfOk result (λ o. IfSome o (λ f. inputs_of f.inputs ≡ stated_inputs a.now b.now f.j)) }
    ensures signatures { IfOk result (λ o. IfSome o (λ f. signatures_of f.inputs ≡ input_signatures a.now.variables)) }
    ensures contents { IfOk result
        (λ o. IfSome o (λ f. map content_of (input_values f.inputs) ≡ stated_contents a.now b.now f.j)) }
    ensures ends { IfOk result (λ o. IfSome o (λ f. AreApart a.now b.now (inputs_of f.inputs) steps f.left f.right)) }
    ensures shows { IfOk result (λ o. IfSome o (λ f. DiffersAt a.now b.now steps f.j)) }
    ensures first { IfOk result (λ o. IfSome o (λ f. (i : ℕ) → i < f.j → ¬ DiffersAt a.now b.now steps i)) }
    ensures none { IfOk result (λ o. o ≡ None → (i : ℕ) → i < stated_count a.now b.now → ¬ DiffersAt a.now b.now steps i) }
{
    let most = Candidates::of(alloc, a, b)?.count();
    first_difference_among(alloc, a, b, p, steps, most)
}

/// How the runs of two machines with the same inputs and outputs end on inputs, where both end within so many steps and touch
/// no number outside 128 bits, and an output differs. `None` exactly where that is not so. The only refusal is out of memory.
pub fn differing_ends(
    alloc: Global,
    a: &Machine,
    b: &Machine,
    inputs: &Inputs,
    steps: u64,
) -> Result<Option<(Ended, Ended)>, NoMemory>
    requires steps { 1 ≤ steps }
    requires interfaces { interface_fault a.now b.now ≡ None }
    requires left { Serves (signatures_of inputs.now) a.now }
    requires right { Serves (signatures_of inputs.now) b.now }
    ensures found { IfOk result (λ o. IfSome o (λ p. AreApart a.now b.now (inputs_of inputs.now) steps p.0 p.1)) }
    ensures none { IfOk result (λ o. o ≡ None → ¬ ShowsDifference a.now b.now (inputs_of inputs.now) steps) }
{
    let Some(left) = end_of(alloc, a, inputs, steps)? else {
        return Ok(None);
    };
    let Some(right) = end_of(alloc, b, inputs, steps)? else {
        return Ok(None);
    };
    match same_outputs(alloc, a, &left, b, &right) {
        Err(_) => Err(NoMemory),
        Ok(true) => Ok(None),
        Ok(false) => Ok(Some((left, right))),
    }
}

// How a run ends, if it does.
fn end_of(
    alloc: Global,
    m: &Machine,
    inputs: &Inputs,
    steps: u64,
) -> Result<Option<Ended>, NoMemory>
    requires steps { 1 ≤ steps }
    requires inputs { Serves (signatures_of inputs.now) m.now }
    ensures { IfOk result
        (λ o. MatchOption o (HasNoEnd m.now (inputs_of inputs.now) steps) (IsEnd m.now (inputs_of inputs.now) steps)) }
{
    match run(alloc, m, inputs, steps) {
        Ok(ended) => Ok(Some(ended)),
        Err(RunStop::NoMemory) => Err(NoMemory),
        Err(RunStop::StepsOver { .. }) => Ok(None),
        Err(RunStop::PastWide { .. }) => Ok(None),
    }
}
