//! Whether outputs differ under a fact.

ghost use Rattle.std.specs.Prelude.{◌≤◌, length};
ghost use Rattle.fs_model.specs.Limits.{most_variables};

use cert_model::outputs::{is_output, number_of, same_forms};
use fs_ast::machine::Machine;
use fs_model::parts::{VarId, VarInfo};
use fs_variable_sets::VariableSet;
use nf_substitution::vector::Vector;
use nf_terms::stop::NoMemory;
use std::alloc::Global;
use sym_facts::fact::Fact;

/// The variables of two machines that may still be written.
#[derive(Clone, Copy)]
pub struct Written {
    pub left: VariableSet,
    pub right: VariableSet,
}

// Whether the right variable of a number may still be written.
fn is_written(written: VariableSet, number: Option<u32>) -> bool {
    match number {
        Some(number) => written.contains(VarId(number)),
        None => false,
    }
}

// Whether a left variable is an output that has another form than the right variable of its name, and neither may be written.
fn differs(
    alloc: Global,
    v: &Vector,
    variable: &VarInfo,
    left: u32,
    rights: &[VarInfo],
    written: Written,
) -> Result<bool, NoMemory>
    requires { length rights.now ≤ most_variables }
{
    if !is_output(variable.role) || written.left.contains(VarId(left)) {
        return Ok(false);
    }
    let right = number_of(rights, &variable.name);
    if is_written(written.right, right) {
        return Ok(false);
    }
    Ok(!same_forms(alloc, v, variable.sort, left, right)?)
}

// Whether an output has another form than the right variable of its name, and neither may be written.
fn some_differs(
    alloc: Global,
    v: &Vector,
    lefts: &[VarInfo],
    rights: &[VarInfo],
    written: Written,
) -> Result<bool, NoMemory>
    requires few_left { length lefts.now ≤ most_variables }
    requires few_right { length rights.now ≤ most_variables }
{
    for (left, variable) in lefts.iter().enumerate() {
        if differs(alloc, v, variable, left as u32, rights, written)? {
            return Ok(true);
        }
    }
    Ok(false)
}

/// Whether under a fact an output has another form than the right variable of its name, and neither may still be written. The one
/// refusal is out of memory.
pub fn outputs_differ(
    alloc: Global,
    a: &Machine,
    b: &Machine,
    fact: &Fact,
    written: Written,
) -> Result<bool, NoMemory> {
    let v = fact.vector(alloc)?;
    some_differs(alloc, &v, a.vars(), b.vars(), written)
}
