//! The end of the chain of first reductions.

ghost use Rattle.std.specs.Prelude.{◌≡◌, ◌≤◌, IfOk, None};
ghost use Rattle.fs_pair.specs.Interfaces.{interface_fault};
ghost use Rattle.fs_stores.specs.InputValues.{signatures_of, input_signatures, inputs_of};
ghost use Rattle.fs_trials.specs.Differences.{ShowsDifference, AreApart};
ghost use Rattle.hls_shrink.specs.InputEntries.{contents_in};
ghost use Rattle.hls_shrink.specs.Shrunk.{ShowDifference, IsLeast, IsSmall, EndsIn};

use crate::entries::entries;
use crate::reductions::first_reduction;
use fs_ast::machine::Machine;
use fs_pair::positions::Pairing;
use fs_runs::run::Ended;
use fs_stores::inputs::Inputs;
use fs_stores::memory::NoMemory;
use fs_trials::differences::differing_ends;
use std::alloc::Global;

/// Inputs that show a difference of two machines, and how the run of each machine ended.
#[derive(Drop)]
pub struct Small {
    pub inputs: Inputs,
    pub left: Ended,
    pub right: Ended,
}

/// Makes inputs small that show a difference of two machines with the same inputs and outputs within so many steps.
///
/// The reductions of inputs are a list. For the inputs in order of declaration: a scalar that is not 0 is made 0, and then, where
/// it is beyond 1 and -1, it is made its half toward zero; an array has the same two for each entry that is not 0, by
/// rising index. The first reduction that still shows a difference is taken, and its reductions are listed anew, until
/// none does. The only refusal is out of memory.
///
/// Each reduction that is taken at least halves a number, so an entry is reduced at most 128 times; before each of these all
/// entries before it are tried again.
pub fn shrink(
    alloc: Global,
    a: &Machine,
    b: &Machine,
    _p: &Pairing,
    inputs: &Inputs,
    steps: u64,
) -> Result<Small, NoMemory>
    requires steps { 1 ≤ steps }
    requires interfaces { interface_fault a.now b.now ≡ None }
    requires inputs { signatures_of inputs.now ≡ input_signatures a.now.variables }
    requires shows { ShowsDifference a.now b.now (inputs_of inputs.now) steps }
    ensures signatures { IfOk result (λ s. signatures_of s.inputs ≡ input_signatures a.now.variables) }
    ensures end { IfOk result (λ s. EndsIn (ShowDifference a.now b.now steps) (contents_in inputs.now) (contents_in s.inputs)) }
    ensures least { IfOk result (λ s. IsLeast (ShowDifference a.now b.now steps) (contents_in s.inputs)) }
    ensures shows { IfOk result (λ s. ShowsDifference a.now b.now (inputs_of s.inputs) steps) }
    ensures ends { IfOk result (λ s. AreApart a.now b.now (inputs_of s.inputs) steps s.left s.right) }
{
    let mut small = inputs_with_ends(alloc, a, b, inputs, steps)?;
    let mut list = entries(alloc, a, &small.inputs)?;
    while let Some(next) = first_reduction(alloc, a, b, &small.inputs, list.as_slice(), steps)? {
        list = entries(alloc, a, &next.inputs)?;
        small = next;
    }
    Ok(small)
}

// A copy of inputs that show a difference, with how the runs end.
fn inputs_with_ends(
    alloc: Global,
    a: &Machine,
    b: &Machine,
    inputs: &Inputs,
    steps: u64,
) -> Result<Small, NoMemory>
    requires steps { 1 ≤ steps }
    requires interfaces { interface_fault a.now b.now ≡ None }
    requires inputs { signatures_of inputs.now ≡ input_signatures a.now.variables }
    requires shows { ShowsDifference a.now b.now (inputs_of inputs.now) steps }
    ensures contents { IfOk result (λ s. contents_in s.inputs ≡ contents_in inputs.now) }
    ensures small { IfOk result (λ s. IsSmall a.now b.now steps s) }
{
    let _vars = a.vars(); // The call tells the proof that the machine is sound.
    let copy = inputs.try_clone(alloc)?;
    match differing_ends(alloc, a, b, &copy, steps)? {
        Some((left, right)) => Ok(Small {
            inputs: copy,
            left,
            right,
        }),
        None => unreachable!(),
    }
}
