//! The first reduction of inputs that still shows a difference.

ghost use Rattle.std.specs.Prelude.{◌≡◌, ◌≤◌, int_div, pos, IfOk, IfSome, None};
ghost use Rattle.fs_pair.specs.Interfaces.{interface_fault};
ghost use Rattle.fs_stores.specs.InputValues.{signatures_of, input_signatures};
ghost use Rattle.hls_shrink.specs.InputEntries.{contents_in};
ghost use Rattle.hls_shrink.specs.Reductions.{contents_with, reductions_at, reductions, is_beyond_one};
ghost use Rattle.hls_shrink.specs.Shrunk.{ShowDifference, IsFirst, NoneHas, IsSmall};

use crate::entries::{InputEntry, with_number};
use crate::shrinking::Small;
use fs_ast::machine::Machine;
use fs_stores::inputs::Inputs;
use fs_stores::memory::NoMemory;
use fs_trials::differences::differing_ends;
use std::alloc::Global;

/// The first reduction of inputs at their entries that shows a difference. `None` exactly where none does.
pub fn first_reduction(
    alloc: Global,
    a: &Machine,
    b: &Machine,
    inputs: &Inputs,
    entries: &[InputEntry],
    steps: u64,
) -> Result<Option<Small>, NoMemory>
    requires steps { 1 ≤ steps }
    requires interfaces { interface_fault a.now b.now ≡ None }
    requires inputs { signatures_of inputs.now ≡ input_signatures a.now.variables }
    ensures some { IfOk result
        (λ o. IfSome o
        (λ s. IsFirst (ShowDifference a.now b.now steps) (reductions (contents_in inputs.now) entries.now)
        (contents_in s.inputs))) }
    ensures small { IfOk result (λ o. IfSome o (λ s. IsSmall a.now b.now steps s)) }
    ensures none { IfOk result
        (λ o. o ≡ None → NoneHas (ShowDifference a.now b.now steps) (reductions (contents_in inputs.now) entries.now)) }
{
    for entry in entries {
        if let Some(small) = reduce_at(alloc, a, b, inputs, entry, steps)? {
            return Ok(Some(small));
        }
    }
    Ok(None)
}

// The first reduction at an entry that shows a difference: with 0 there, or with half the number.
fn reduce_at(
    alloc: Global,
    a: &Machine,
    b: &Machine,
    inputs: &Inputs,
    entry: &InputEntry,
    steps: u64,
) -> Result<Option<Small>, NoMemory>
    requires steps { 1 ≤ steps }
    requires interfaces { interface_fault a.now b.now ≡ None }
    requires inputs { signatures_of inputs.now ≡ input_signatures a.now.variables }
    ensures some { IfOk result
        (λ o. IfSome o
        (λ s. IsFirst (ShowDifference a.now b.now steps) (reductions_at (contents_in inputs.now) entry.now)
        (contents_in s.inputs))) }
    ensures small { IfOk result (λ o. IfSome o (λ s. IsSmall a.now b.now steps s)) }
    ensures none { IfOk result
        (λ o. o ≡ None → NoneHas (ShowDifference a.now b.now steps) (reductions_at (contents_in inputs.now) entry.now)) }
{
    if let Some(small) = try_number(alloc, a, b, inputs, entry, &0, steps)? {
        return Ok(Some(small));
    }
    if !is_beyond_one(&entry.number) {
        return Ok(None);
    }
    try_number(alloc, a, b, inputs, entry, &half(&entry.number), steps)
}

// Whether a number can be halved so that it stays other than 0.
fn is_beyond_one(number: &i128) -> bool
    ensures { result ≡ is_beyond_one number.now }
{
    number.unsigned_abs() > 1
}

// Half a number, toward zero.
fn half(number: &i128) -> i128
    ensures { result ≡ int_div number.now (pos 2) }
{
    *number / 2
}

// Inputs with another number where an entry is, if they show a difference.
fn try_number(
    alloc: Global,
    a: &Machine,
    b: &Machine,
    inputs: &Inputs,
    entry: &InputEntry,
    number: &i128,
    steps: u64,
) -> Result<Option<Small>, NoMemory>
    requires steps { 1 ≤ steps }
    requires interfaces { interface_fault a.now b.now ≡ None }
    requires inputs { signatures_of inputs.now ≡ input_signatures a.now.variables }
    ensures contents { IfOk result
        (λ o. IfSome o (λ s. contents_in s.inputs ≡ contents_with (contents_in inputs.now) entry.now number.now)) }
    ensures small { IfOk result (λ o. IfSome o (λ s. IsSmall a.now b.now steps s)) }
    ensures none { IfOk result
        (λ o. o ≡ None → ¬ ShowDifference a.now b.now steps (contents_with (contents_in inputs.now) entry.now number.now)) }
{
    let changed = with_number(alloc, a, inputs, entry, number)?;
    match differing_ends(alloc, a, b, &changed, steps)? {
        Some((left, right)) => Ok(Some(Small {
            inputs: changed,
            left,
            right,
        })),
        None => Ok(None),
    }
}
