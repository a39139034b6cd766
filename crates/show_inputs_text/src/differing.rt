//! The file of inputs that show a difference.

ghost use Rattle.std.specs.Prelude.{◌≡◌, ◌≤◌, IfOk, IfSome, IsTrue, None};
ghost use Rattle.fs_pair.specs.Interfaces.{interface_fault};
ghost use Rattle.show_inputs_text.specs.InputTexts.{ShowsDifferenceOf};

use crate::values::inputs_file;
use fs_ast::machine::Machine;
use fs_inputs::{InputError, read_inputs};
use fs_pair::positions::Pairing;
use fs_run_text::laws::inputs_serve_both;
use fs_trials::differences::{differing_ends, first_difference};
use nf_terms::stop::NoMemory;
use std::alloc::Global;

// Whether the bytes spell inputs from which the runs of both machines end with other outputs. The one refusal is out of memory.
fn shows_difference(
    alloc: Global,
    a: &Machine,
    b: &Machine,
    steps: u64,
    bytes: &[u8],
) -> Result<bool, NoMemory>
    requires steps { 1 ≤ steps }
    requires interface { interface_fault a.now b.now ≡ None }
    ensures { IfOk result (λ yes. IsTrue yes → ShowsDifferenceOf steps a.now b.now bytes.now) }
{
    inputs_serve_both();
    let inputs = match read_inputs(alloc, bytes, a) {
        Ok(inputs) => inputs,
        Err(InputError::NoMemory) => return Err(NoMemory),
        Err(_) => return Ok(false),
    };
    match differing_ends(alloc, a, b, &inputs, steps) {
        Ok(Some(_ends)) => Ok(true),
        Ok(None) => Ok(false),
        Err(_) => Err(NoMemory),
    }
}

/// The file of the first stated inputs that show a difference of two machines with the same inputs and outputs within so many
/// steps: it is read back as `run` and `replay` read it, and from what it spells the runs of both machines end with other
/// outputs. None where no stated inputs show a difference. The one refusal is out of memory.
pub fn differing_inputs(
    alloc: Global,
    a: &Machine,
    b: &Machine,
    p: &Pairing,
    steps: u64,
) -> Result<Option<Vec<u8>>, NoMemory>
    requires steps { 1 ≤ steps }
    requires interface { interface_fault a.now b.now ≡ None }
    ensures { IfOk result (λ file. IfSome file (λ bytes. ShowsDifferenceOf steps a.now b.now bytes.items)) }
{
    let found = match first_difference(alloc, a, b, p, steps) {
        Ok(Some(found)) => found,
        Ok(None) => return Ok(None),
        Err(_) => return Err(NoMemory),
    };
    let file = inputs_file(alloc, a, &found.inputs)?;
    if shows_difference(alloc, a, b, steps, file.as_slice())? {
        Ok(Some(file))
    } else {
        Ok(None)
    }
}
