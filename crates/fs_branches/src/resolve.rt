//! Transitions over the numbers of variables and states.

ghost use Rattle.std.specs.Prelude.{◌≡◌, ◌≤◌, length, map, option_map, IfOk};
ghost use Rattle.fs_model.specs.Limits.{most_variables, most_states};
ghost use Rattle.fs_model.specs.Renamed.{guard_over, assignment_over};
ghost use Rattle.fs_model.specs.View.{named_guard, named_assignment, guard_of, assignment_of, source_transition_of};
ghost use Rattle.fs_model.specs.View.{source_state_of};
ghost use Rattle.fs_rules.specs.MachineOfParts.{place_or_end, names_of, transition_spelled};
ghost use Rattle.fs_rules.specs.Places.{names_stated};
ghost use Rattle.fs_branches.specs.NumberedParts.{resolved_transition, state_with_line, spelled_state_with_line};

use fs_model::copies::renamed_assignments;
use fs_model::memory::{push_value, share};
use fs_model::name::{Name, NoMemory};
use fs_model::parts::{Assign, Guard, RawLine, RawState, StateId, VarId};
use fs_rules::scope::Scope;
use std::alloc::Global;
use std::rc::Rc;

/// A transition over the numbers of variables and states. Its branches share its assignments.
#[derive(Drop)]
pub struct Transition {
    /// When it is taken; none where always.
    pub guard: Option<Guard<VarId>>,
    /// Where it leads.
    pub target: StateId,
    /// What it assigns, in order of the text.
    pub assigns: Rc<Vec<Assign<VarId>>>,
}

/// A state with its transitions. `line` is the line of its first word.
#[derive(Drop)]
pub struct State {
    pub line: u32,
    pub name: Name,
    pub lines: Vec<Transition>,
}

// The guard of a transition, over the numbers of variables.
#[tactic(auto, using(crate::proofs::Numbered::guard_numbered))]
fn condition(
    alloc: Global,
    scope: &Scope,
    guard: &Option<Guard>,
) -> Result<Option<Guard<VarId>>, NoMemory>
    requires { length scope.now.vars.items ≤ most_variables }
    ensures { IfOk result
        (λ g. option_map guard_of g ≡ option_map (guard_over (place_or_end (names_of scope.now.vars.items)))
        (option_map named_guard guard.now)) }
{
    match guard {
        None => Ok(None),
        Some(guard) => Ok(Some(guard.copy_renamed(alloc, scope)?)),
    }
}

// Assignments over the numbers of variables, with one owner.
fn shared_assignments(
    alloc: Global,
    scope: &Scope,
    assigns: &[Assign<Name>],
) -> Result<Rc<Vec<Assign<VarId>>>, NoMemory>
    requires { length scope.now.vars.items ≤ most_variables }
    ensures { IfOk result
        (λ out. map assignment_of out.value.items ≡ map (assignment_over (place_or_end (names_of scope.now.vars.items)))
        (map named_assignment assigns.now)) }
{
    share(alloc, renamed_assignments(alloc, assigns, scope)?)
}

// A transition over numbers.
fn numbered_transition(alloc: Global, scope: &Scope, line: &RawLine) -> Result<Transition, NoMemory>
    requires variables { length scope.now.vars.items ≤ most_variables }
    requires states { length scope.now.states.now ≤ most_states }
    ensures { IfOk result
        (λ l. resolved_transition l ≡ transition_spelled (names_of scope.now.vars.items) (names_stated scope.now.states.now)
        (source_transition_of line.now)) }
{
    let assigns = shared_assignments(alloc, scope, &line.assigns)?;
    let guard = condition(alloc, scope, &line.guard)?;
    Ok(Transition {
        guard,
        target: scope.state_id(&line.target),
        assigns,
    })
}

// Transitions over numbers.
fn numbered_transitions(
    alloc: Global,
    scope: &Scope,
    lines: &[RawLine],
) -> Result<Vec<Transition>, NoMemory>
    requires variables { length scope.now.vars.items ≤ most_variables }
    requires states { length scope.now.states.now ≤ most_states }
    ensures { IfOk result
        (λ out. map resolved_transition out.items
        ≡ map (transition_spelled (names_of scope.now.vars.items) (names_stated scope.now.states.now))
        (map source_transition_of lines.now)) }
{
    let mut out = Vec::new(alloc);
    for raw in lines {
        push_value(&mut out, numbered_transition(alloc, scope, raw)?)?;
    }
    Ok(out)
}

// A state over numbers.
fn numbered_state(alloc: Global, scope: &Scope, state: &RawState) -> Result<State, NoMemory>
    requires variables { length scope.now.vars.items ≤ most_variables }
    requires states { length scope.now.states.now ≤ most_states }
    ensures { IfOk result
        (λ s. state_with_line s ≡ spelled_state_with_line (names_of scope.now.vars.items) (names_stated scope.now.states.now)
        (source_state_of state.now)) }
{
    let name = state.name.try_clone(alloc)?;
    let lines = numbered_transitions(alloc, scope, &state.lines)?;
    Ok(State {
        line: state.line,
        name,
        lines,
    })
}

/// States over numbers: each as the text spells it, with the line at which it stands. The one refusal is out of memory.
pub fn resolve(alloc: Global, scope: &Scope, states: &[RawState]) -> Result<Vec<State>, NoMemory>
    requires variables { length scope.now.vars.items ≤ most_variables }
    requires states { length scope.now.states.now ≤ most_states }
    ensures { IfOk result
        (λ out. map state_with_line out.items
        ≡ map (spelled_state_with_line (names_of scope.now.vars.items) (names_stated scope.now.states.now))
        (map source_state_of states.now)) }
{
    let mut out = Vec::new(alloc);
    for raw in states {
        push_value(&mut out, numbered_state(alloc, scope, raw)?)?;
    }
    Ok(out)
}
