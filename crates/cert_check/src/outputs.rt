//! The outputs of a node at which both machines are done.

ghost use Rattle.std.specs.Prelude.{◌≡◌, ◌+◌, ◌<◌, ◌≤◌, ◌^◌, ◌∷◌, [], length, map, IfOk};
ghost use Rattle.fs_model.specs.Limits.{most_variables};
ghost use Rattle.fs_pair.specs.PairedOutputs.{output_pairs};
ghost use Rattle.nf_terms.specs.Computed.{Answers};
ghost use Rattle.cert_check.specs.Progress.{progress_from};
ghost use Rattle.cert_check.specs.VectorOutputs.{output_over};
ghost use Rattle.cert_check.specs.View.{progress_in, NumberUpTo};

use crate::progress::{Progress, advance};
use cert_model::outputs::{is_output, number_of, same_forms};
use cert_model::reason::Reason;
use fs_model::parts::{Sort, VarInfo};
use nf_terms::stop::{NfStop, NoMemory};
use nf_vectors::vector::Vector;
use std::alloc::Global;

// Why an output fails: it has not the same form as the right variable.
fn judge_output(
    alloc: Global,
    v: &Vector,
    sort: Sort,
    left: u32,
    right: Option<u32>,
) -> Result<Option<Reason>, NfStop>
    ensures { Answers result (output_over v.now (record { left = left; sort = sort; right = right })) }
{
    if same_forms(alloc, v, sort, left, right)? {
        Ok(None)
    } else {
        Ok(Some(Reason::Output { var: left }))
    }
}

// The output that a variable is, by its number, or none.
fn output_of(
    alloc: Global,
    v: &Vector,
    variable: &VarInfo,
    left: u32,
    rights: &[VarInfo],
    first: u32,
) -> Result<Progress, NoMemory>
    requires few { length rights.now ≤ most_variables }
    requires low { first < 2 ^ 31 }
    ensures output { IfOk result
        (λ p. progress_in p ≡ progress_from first (map (output_over v.now) (output_pairs left (variable.now ∷ []) rights.now))) }
    ensures bound { IfOk result (NumberUpTo (first + 1)) }
{
    if !is_output(variable.role) {
        return Ok(Progress::Held(first));
    }
    let right = number_of(rights, &variable.name);
    advance(first, judge_output(alloc, v, variable.sort, left, right))
}

/// The outputs among the left variables, each against the right variable of its name, over a vector.
///
/// Answers where they lead, from the number of the first. The one refusal is out of memory.
pub fn outputs(
    alloc: Global,
    v: &Vector,
    lefts: &[VarInfo],
    rights: &[VarInfo],
    first: u32,
) -> Result<Progress, NoMemory>
    requires few_left { length lefts.now ≤ most_variables }
    requires few_right { length rights.now ≤ most_variables }
    requires low { first < 2 ^ 30 }
    ensures outputs { IfOk result
        (λ p. progress_in p ≡ progress_from first (map (output_over v.now) (output_pairs 0 lefts.now rights.now))) }
    ensures bound { IfOk result (NumberUpTo (first + most_variables)) }
{
    let mut left = 0;
    let mut number = first;
    for variable in lefts {
        match output_of(alloc, v, variable, left, rights, number)? {
            Progress::Held(next) => number = next,
            Progress::Stopped(verdict) => return Ok(Progress::Stopped(verdict)),
        }
        left += 1;
    }
    Ok(Progress::Held(number))
}
