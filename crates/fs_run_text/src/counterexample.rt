//! The text of a counterexample: inputs, and what two runs answered from them.

ghost use Rattle.std.specs.Prelude.{◌≡◌, None, map, IfOk};
ghost use Rattle.fs_pair.specs.Interfaces.{interface_fault};
ghost use Rattle.fs_stores.specs.Values.{content_of};
ghost use Rattle.fs_stores.specs.InputValues.{input_values, signatures_of, input_signatures};
ghost use Rattle.fs_runs.specs.Outcomes.{output_names, told_by, HoldsEach};
ghost use Rattle.fs_run_text.specs.ItemTexts.{input_names};
ghost use Rattle.fs_run_text.specs.EndTexts.{IsCounterexampleText, counterexample_text};

use crate::ends::append_lines;
use crate::items::{input_items, items};
use crate::memory::NoMemory;
use crate::replay::append_side;
use crate::shown::append;
use fs_ast::machine::Machine;
use fs_runs::run::Ended;
use fs_stores::inputs::Inputs;
use std::alloc::Global;

/// The text of inputs from which runs of two machines with the same inputs and outputs ended: `counterexample`, a line
/// `NAME = VALUE` for each input, in order of declaration, and the outputs of both sides, in the order of the left machine's
/// outputs. The one refusal is out of memory.
pub fn counterexample_text(
    alloc: Global,
    inputs: &Inputs,
    left: &Machine,
    left_end: &Ended,
    right: &Machine,
    right_end: &Ended,
) -> Result<Vec<u8>, NoMemory>
    requires inputs { signatures_of inputs.now ≡ input_signatures left.now.variables }
    requires interfaces { interface_fault left.now right.now ≡ None }
    requires left_outputs { HoldsEach (told_by left.now left_end.now.outputs.items) (output_names left.now.variables) }
    requires right_outputs { HoldsEach (told_by right.now right_end.now.outputs.items) (output_names right.now.variables) }
    ensures { IfOk result
        (λ text. IsCounterexampleText (input_names left.now.variables) (map content_of (input_values inputs.now))
        (output_names left.now.variables) (told_by left.now left_end.now.outputs.items)
        (told_by right.now right_end.now.outputs.items) text.items) }
{
    let given = input_items(alloc, left, inputs)?;
    let lefts = items(alloc, left, left, left_end.outputs.as_slice())?;
    let rights = items(alloc, left, right, right_end.outputs.as_slice())?;
    joined_text(alloc, given.as_slice(), lefts.as_slice(), rights.as_slice())
}

fn joined_text(
    alloc: Global,
    given: &[Vec<u8>],
    lefts: &[Vec<u8>],
    rights: &[Vec<u8>],
) -> Result<Vec<u8>, NoMemory>
    ensures { IfOk result
        (λ text. text.items ≡ counterexample_text (map (λ i. i.items) given.now) (map (λ i. i.items) lefts.now)
        (map (λ i. i.items) rights.now)) }
{
    let mut text = Vec::new(alloc);
    append(&mut text, b"counterexample\n".as_slice())?;
    append_lines(&mut text, given)?;
    append_side(alloc, &mut text, b"left:".as_slice(), lefts)?;
    append_side(alloc, &mut text, b"right:".as_slice(), rights)?;
    Ok(text)
}
