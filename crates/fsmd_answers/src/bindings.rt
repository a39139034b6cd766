//! Reads bindings, and puts registers in the place of locals.

ghost use Rattle.std.specs.Prelude.{◌≤◌, ℕ, List, length, IfOk};
ghost use Rattle.std.specs.Result.{IfErr};
ghost use Rattle.fs_model.specs.Limits.{most_text_bytes};
ghost use Rattle.fs_model.specs.Machines.{Fsmd};
ghost use Rattle.fs_model.specs.View.{source_of};
ghost use Rattle.hls_bind.specs.Bindings.{IsBindingOf};
ghost use Rattle.hls_bind.specs.BindingMembers.{IsRefusedAsBinding};
ghost use Rattle.hls_bind.specs.Results.{IsBuiltOf};
ghost use Rattle.fsmd_answers.specs.Readings.{Readable};
ghost use Rattle.fsmd_answers.specs.BindingFiles.{SpellsBinding, RefusesBinding, IsOfBinding};
ghost use Rattle.fsmd_answers.specs.Refusing.{WhereAnswered};

use crate::reading::refused_at;
use crate::refused::Refused;
use fs_ast::machine::Machine;
use fs_model::parts::Parts;
use fsmd_replies::answer::{Answer, KeyFault, Lines, Operand};
use fsmd_synthesis_answers::bindings::{BindingAnswer, bound_text};
use hls_bind::{BindError, Binding, read_binding as read_binding_of};
use std::alloc::{AllocError, Global};

// The refusal of a file of a binding.
fn refused_binding(file: Operand, error: BindError) -> Refused
    ensures { (m : Fsmd) (bytes : List ℕ) → length bytes ≤ most_text_bytes → IsRefusedAsBinding m.variables bytes error
        → WhereAnswered (RefusesBinding m file (Readable bytes)) result }
{
    match error {
        BindError::NotJson => Refused::Answered(Answer::NotJson { file }),
        BindError::Shape { name } => refused_at(file, KeyFault::Shape, name),
        BindError::UnknownName { name } => refused_at(file, KeyFault::UnknownName, name),
        BindError::BadName { name } => refused_at(file, KeyFault::BadName, name),
        BindError::Taken { name } => refused_at(file, KeyFault::Taken, name),
        BindError::NoMemory => Refused::NoMemory,
    }
}

/// The binding that the bytes of a file give a machine, or the answer that refuses them.
pub fn read_binding(
    alloc: Global,
    file: Operand,
    bytes: &[u8],
    machine: &Machine,
) -> Result<Binding, Refused>
    requires { length bytes.now ≤ most_text_bytes }
    ensures spells { IfOk result (λ b. SpellsBinding machine.now b bytes.now) }
    ensures of_machine { IfOk result (λ b. IsBindingOf machine.now.variables b) }
    ensures refused { IfErr result (WhereAnswered (RefusesBinding machine.now file (Readable bytes.now))) }
{
    match read_binding_of(alloc, bytes, machine) {
        Ok(binding) => Ok(binding),
        Err(error) => Err(refused_binding(file, error)),
    }
}

/// What a binding of the machine of parts is answered: the canonical text of the parts with registers, or the first
/// branch that loses a local. The one refusal is out of memory.
pub fn bind_machine(
    alloc: Global,
    parts: &Parts,
    machine: &Machine,
    binding: &Binding,
) -> Result<Answer, AllocError>
    requires built { IsBuiltOf (source_of parts.now) machine.now }
    requires binding { IsBindingOf machine.now.variables binding.now }
    ensures { IfOk result (IsOfBinding (source_of parts.now) binding.now) }
{
    match bound_text(alloc, parts, machine, binding)? {
        BindingAnswer::Bound { text } => Ok(Answer::Text {
            lines: Lines::of(text),
        }),
        BindingAnswer::Lost { line } => Ok(Answer::Differs {
            lines: Lines::of(line),
        }),
    }
}
