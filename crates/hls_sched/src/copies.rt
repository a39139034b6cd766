//! Copies of states, declarations and assignments.

ghost use Rattle.std.specs.Prelude.{◌≡◌, ◌++◌, map, option_map, IfOk};
ghost use Rattle.std.specs.Result.{OnOk};
ghost use Rattle.fs_model.specs.View.{named_assignment, named_guard, source_transition_of, source_state_of, declaration_of};

use fs_model::assignment_copies::{copied_assignment, copied_guard};
use fs_model::memory::push_made;
use fs_model::name::{Name, NoMemory};
use fs_model::parts::{Assign, Decl, Guard, RawLine, RawState};
use std::alloc::Global;

/// A copy of a guard, where there is one. The one refusal is out of memory.
pub fn copied_condition(alloc: Global, guard: &Option<Guard>) -> Result<Option<Guard>, NoMemory>
    ensures { IfOk result (λ g. option_map named_guard g ≡ option_map named_guard guard.now) }
{
    match guard {
        None => Ok(None),
        Some(guard) => Ok(Some(copied_guard(alloc, guard)?)),
    }
}

/// Adds copies of assignments. The one refusal is out of memory.
pub fn add_assignments(
    alloc: Global,
    assigns: &[Assign<Name>],
    out: &mut Vec<Assign<Name>>,
) -> Result<(), NoMemory>
    ensures { OnOk result
        (map named_assignment out.new.items ≡ map named_assignment out.old.items ++ map named_assignment assigns.now) }
{
    for assign in assigns {
        push_made(out, copied_assignment(alloc, assign))?;
    }
    Ok(())
}

/// A copy of a transition. The one refusal is out of memory.
pub fn copied_transition(alloc: Global, line: &RawLine) -> Result<RawLine, NoMemory>
    ensures { IfOk result (λ l. source_transition_of l ≡ source_transition_of line.now) }
{
    let target = line.target.try_clone(alloc)?;
    let mut assigns = Vec::new(alloc);
    add_assignments(alloc, &line.assigns, &mut assigns)?;
    let guard = copied_condition(alloc, &line.guard)?;
    Ok(RawLine {
        line: line.line,
        guard,
        target,
        assigns,
    })
}

/// Copies of transitions. The one refusal is out of memory.
pub fn copied_transitions(alloc: Global, lines: &[RawLine]) -> Result<Vec<RawLine>, NoMemory>
    ensures { IfOk result (λ out. map source_transition_of out.items ≡ map source_transition_of lines.now) }
{
    let mut out = Vec::new(alloc);
    for line in lines {
        push_made(&mut out, copied_transition(alloc, line))?;
    }
    Ok(out)
}

/// A copy of a state. The one refusal is out of memory.
pub fn copied_state(alloc: Global, state: &RawState) -> Result<RawState, NoMemory>
    ensures { IfOk result (λ s. source_state_of s ≡ source_state_of state.now) }
{
    let name = state.name.try_clone(alloc)?;
    let lines = copied_transitions(alloc, &state.lines)?;
    Ok(RawState {
        line: state.line,
        name,
        lines,
    })
}

/// Copies of declarations. The one refusal is out of memory.
pub fn copied_declarations(alloc: Global, decls: &[Decl]) -> Result<Vec<Decl>, NoMemory>
    ensures { IfOk result (λ out. map declaration_of out.items ≡ map declaration_of decls.now) }
{
    let mut out = Vec::new(alloc);
    for decl in decls {
        push_made(&mut out, decl.try_clone(alloc))?;
    }
    Ok(out)
}
