//! Public calls that the program does not make: what an input and a variable hold.

ghost use Rattle.fs_stores.specs.InputValues.{Serves, signatures_of};

use crate::machines::reading::machine;
use fs_ast::machine::Machine;
use fs_model::parts::VarId;
use fs_stores::inputs::{Inputs, start};
use fs_stores::values::Value;
use std::alloc::Global;

const TEXT: &str = "fsmd 1; input a; output y; reset s; state s: goto s: y = a;";

/// What inputs give index i of input k. A number has index 0 alone.
pub fn value_at(inputs: &Inputs, k: u32, i: i128) -> Option<i128> {
    if inputs.sort(k).is_none() {
        return None;
    }
    match inputs.get(k) {
        Value::Num(n) => Some(*n),
        Value::Arr(entries) => Some(entries.get(i)),
        Value::List(_) => None,
    }
}

// The number that the first variable holds as a run begins, where there is a variable.
fn begins_with(alloc: Global, machine: &Machine, inputs: &Inputs) -> Option<i128>
    requires { Serves (signatures_of inputs.now) machine.now }
{
    if machine.vars().is_empty() {
        return None;
    }
    let store = start(alloc, machine, inputs).ok()?;
    match store.get(VarId(0)) {
        Value::Num(n) => Some(*n),
        Value::Arr(_) | Value::List(_) => None,
    }
}

// Whether a run of a machine begins with 0 for its one input and in its first variable.
fn begins_with_zero(alloc: Global, machine: &Machine) -> bool {
    match Inputs::zero(alloc, machine) {
        Ok(inputs) => {
            value_at(&inputs, 0, 0) == Some(0)
                && value_at(&inputs, 1, 0).is_none()
                && begins_with(alloc, machine, &inputs) == Some(0)
        }
        Err(_) => false,
    }
}

#[test]
fn what_inputs_and_variables_hold(rt: HostRuntime) -> Result<(), &'static str> {
    let machine = machine(rt.alloc(), TEXT)?;
    assert!(rt; begins_with_zero(rt.alloc(), &machine));
    Ok(())
}
