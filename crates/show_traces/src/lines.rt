//! The lines of steps.

ghost use Rattle.std.specs.Prelude.{◌≡◌, ◌++◌, ◌<◌, length, OnOk, decimal};
ghost use Rattle.std.specs.List.{flat_map};
ghost use Rattle.std.specs.Fmt.{signed_decimal};
ghost use Rattle.fs_model.specs.VariableNames.{variable_name};
ghost use Rattle.show_traces.specs.Traces.{change_text, change_behind, changes_text, states_text, step_line};

use fs_ast::machine::Machine;
use fs_model::parts::{StateId, VarInfo};
use fs_stores::changes::Change;
use itoa::Buffer;
use std::alloc::AllocError;

// The name of a variable. Takes no memory.
fn variable_name(variables: &[VarInfo], x: u32) -> &[u8]
    ensures { result.now ≡ variable_name variables.now x }
{
    match variables.get(x as usize) {
        Some(variable) => variable.name.bytes(),
        None => &[],
    }
}

fn write_number(out: &mut Vec<u8>, number: &i128) -> Result<(), AllocError>
    ensures { OnOk result (out.new.items ≡ out.old.items ++ signed_decimal number.now) }
{
    let mut buffer = Buffer::new();
    out.extend_from_slice(buffer.format(*number).as_bytes())
}

fn write_count(out: &mut Vec<u8>, count: u64) -> Result<(), AllocError>
    ensures { OnOk result (out.new.items ≡ out.old.items ++ decimal count) }
{
    let mut buffer = Buffer::new();
    out.extend_from_slice(buffer.format(count).as_bytes())
}

// Adds what a change makes of a variable.
fn write_change(out: &mut Vec<u8>, variables: &[VarInfo], change: &Change) -> Result<(), AllocError>
    ensures { OnOk result (out.new.items ≡ out.old.items ++ change_text variables.now change.now) }
{
    match change {
        Change::Set(x, value) => {
            out.extend_from_slice(variable_name(variables, *x))?;
            out.extend_from_slice(b" = ")?;
            write_number(out, value)
        }
        Change::Put(x, index, value) => {
            out.extend_from_slice(variable_name(variables, *x))?;
            out.extend_from_slice(b"[")?;
            write_number(out, index)?;
            out.extend_from_slice(b"] = ")?;
            write_number(out, value)
        }
        Change::Append(x, value) => {
            out.extend_from_slice(b"emit ")?;
            out.extend_from_slice(variable_name(variables, *x))?;
            out.extend_from_slice(b" ")?;
            write_number(out, value)
        }
    }
}

// Adds changes, each behind another one.
fn write_more_changes(
    out: &mut Vec<u8>,
    variables: &[VarInfo],
    changes: &[Change],
) -> Result<(), AllocError>
    ensures { OnOk result (out.new.items ≡ out.old.items ++ flat_map (change_behind variables.now) changes.now) }
{
    for change in changes {
        out.extend_from_slice(b", ")?;
        write_change(out, variables, change)?;
    }
    Ok(())
}

// Adds the changes of a step, or nothing where it has none.
fn write_changes(
    out: &mut Vec<u8>,
    variables: &[VarInfo],
    changes: &[Change],
) -> Result<(), AllocError>
    ensures { OnOk result (out.new.items ≡ out.old.items ++ changes_text variables.now changes.now) }
{
    match changes {
        [] => Ok(()),
        [first, rest @ ..] => {
            out.extend_from_slice(b": ")?;
            write_change(out, variables, first)?;
            write_more_changes(out, variables, rest)
        }
    }
}

// Adds the names of two states.
fn write_states(
    out: &mut Vec<u8>,
    m: &Machine,
    from: StateId,
    to: StateId,
) -> Result<(), AllocError>
    requires from { from.0 < length m.now.states }
    requires to { to.0 < length m.now.states }
    ensures { OnOk result (out.new.items ≡ out.old.items ++ states_text m.now from.0 to.0) }
{
    out.extend_from_slice(m.state_name(from).bytes())?;
    out.extend_from_slice(b" -> ")?;
    out.extend_from_slice(m.state_name(to).bytes())
}

/// Adds the line of a step: its number, the states from which and to which it leads, and its changes. The one refusal is out
/// of memory.
#[tactic(auto, unfolding(crate::specs::Traces::step_line))]
pub fn write_step(
    out: &mut Vec<u8>,
    m: &Machine,
    number: u64,
    from: StateId,
    to: StateId,
    changes: &[Change],
) -> Result<(), AllocError>
    requires from { from.0 < length m.now.states }
    requires to { to.0 < length m.now.states }
    ensures { OnOk result (out.new.items ≡ out.old.items ++ step_line m.now number from.0 to.0 changes.now) }
{
    write_count(out, number)?;
    out.extend_from_slice(b" ")?;
    write_states(out, m, from, to)?;
    write_changes(out, m.vars(), changes)?;
    out.extend_from_slice(b"\n")
}
