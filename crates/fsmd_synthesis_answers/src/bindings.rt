//! The texts of machines with registers.

ghost use Rattle.std.specs.Prelude.{◌≡◌, IfOk};
ghost use Rattle.fs_model.specs.View.{source_of};
ghost use Rattle.hls_bind.specs.Bindings.{IsBindingOf};
ghost use Rattle.hls_bind.specs.Results.{IsBuiltOf};
ghost use Rattle.fsmd_synthesis_answers.specs.BindingAnswers.{conflict_text, IsRightOf};

use fs_ast::machine::Machine;
use fs_cut::cover::Point;
use fs_cut::path_text::point_text;
use fs_model::parts::{Parts, StateId, VarId};
use fs_write::write_parts;
use fsmd_replies::bindings::conflict_line;
use fsmd_replies::variables::variable_name;
use hls_bind::{Binding, Bound, bind};
use std::alloc::{AllocError, Global};

/// What a machine gets by a binding.
#[derive(Drop)]
pub enum BindingAnswer {
    /// The canonical text of its parts with registers.
    Bound { text: Vec<u8> },
    /// The line of the first branch that loses a local.
    Lost { line: Vec<u8> },
}

// The line of the branch of a state that writes a local and loses another.
fn conflict_text(
    alloc: Global,
    machine: &Machine,
    state: StateId,
    branch: u32,
    written: VarId,
    other: VarId,
    twice: bool,
) -> Result<Vec<u8>, AllocError>
    ensures { IfOk result
        (λ bytes. bytes.items ≡ conflict_text machine.now
        (record { state = state.0; branch = branch; written = written.0; other = other.0 }) twice) }
{
    conflict_line(
        alloc,
        point_text(machine, Point::At(state)),
        branch,
        variable_name(machine.vars(), written),
        twice,
        variable_name(machine.vars(), other),
    )
}

/// What the machine of parts gets by a binding: the canonical text of the parts with registers, which spells their machine, or
/// the line of the first branch that loses a local. The one refusal is out of memory.
pub fn bound_text(
    alloc: Global,
    parts: &Parts,
    machine: &Machine,
    binding: &Binding,
) -> Result<BindingAnswer, AllocError>
    requires built { IsBuiltOf (source_of parts.now) machine.now }
    requires binding { IsBindingOf machine.now.variables binding.now }
    ensures { IfOk result (IsRightOf (source_of parts.now) binding.now) }
{
    match bind(alloc, parts, machine, binding) {
        Ok(Bound::Yes { parts, .. }) => match write_parts(alloc, &parts) {
            Ok(text) => Ok(BindingAnswer::Bound { text }),
            Err(_) => Err(AllocError),
        },
        Ok(
            Bound::No {
                state,
                branch,
                written,
                other,
                twice,
            },
        ) => {
            let line = conflict_text(alloc, machine, state, branch, written, other, twice)?;
            Ok(BindingAnswer::Lost { line })
        }
        Err(_) => Err(AllocError),
    }
}
