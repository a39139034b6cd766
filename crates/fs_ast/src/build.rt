//! Machines from the parts of a text.

ghost use Rattle.std.specs.Prelude.{◌≡◌, ◌<◌, [], IsTrue, IfOk, length, map};
ghost use Rattle.std.specs.Result.{OnOk, IfErr};
ghost use Rattle.fs_model.specs.View.{source_of, source_state_of};
ghost use Rattle.fs_model.specs.WellFormed.{is_well_formed};
ghost use Rattle.fs_rules.specs.MachineOfParts.{state_names, place_or_end, machine_of};
ghost use Rattle.fs_rules.specs.Rules.{plain_faults, Broken, IsFirstBroken, BreaksNoRule};
ghost use Rattle.fs_rules.specs.Scopes.{IsScopeOf};
ghost use Rattle.fs_ast.specs.BuildAnswers.{IfCheck};
ghost use Rattle.fs_branches.specs.NumberedParts.{state_with_line, states_with_lines};

use crate::machine::Machine;
use crate::shape_rules::check_shapes;
use fs_branches::resolve::{State, resolve};
use fs_model::name::NoMemory;
use fs_model::parts::{Parts, StateId, VarInfo};
use fs_rules::check::CheckFault;
use fs_rules::checked::{Checked, check_parts};
use fs_rules::scope::Scope;
use std::alloc::Global;

/// Why no machine is built: a rule is broken, or memory was refused.
#[derive(Clone, Copy)]
pub enum BuildError {
    Check(CheckFault),
    NoMemory,
}

impl Machine {
    /// The machine that well-formed parts spell, with guards made into decision trees. `Check` is the first broken
    /// rule: the one of the least line, and of one line the first in the order of rules; the rules on
    /// branches and on endless lines are looked at only where all others are kept.
    pub fn build(alloc: Global, parts: &Parts) -> Result<Machine, BuildError>
        requires { IsTrue (is_well_formed (source_of parts.now)) }
        ensures spelled { IfOk result (λ m. m ≡ machine_of (source_of parts.now)) }
        ensures lawful { OnOk result (BreaksNoRule (source_of parts.now)) }
        ensures broken { IfErr result (λ e. IfCheck e (λ f. Broken (source_of parts.now) f)) }
        ensures first { IfErr result (λ e. IfCheck e (λ f. IsFirstBroken (source_of parts.now) f)) }
    {
        let Ok(Checked { scope, first }) = check_parts(alloc, parts) else {
            return Err(BuildError::NoMemory);
        };
        match first {
            Some(fault) => Err(BuildError::Check(fault)),
            None => build_checked(alloc, scope, parts),
        }
    }
}

// The machine of parts that keep the rules that are looked at first.
fn build_checked(alloc: Global, scope: Scope, parts: &Parts) -> Result<Machine, BuildError>
    requires scope { IsScopeOf (source_of parts.now) scope.vars.items (map source_state_of scope.states.now) }
    requires plain { plain_faults (source_of parts.now) ≡ [] }
    requires formed { IsTrue (is_well_formed (source_of parts.now)) }
    ensures spelled { IfOk result (λ m. m ≡ machine_of (source_of parts.now)) }
    ensures lawful { OnOk result (BreaksNoRule (source_of parts.now)) }
    ensures broken { IfErr result (λ e. IfCheck e (λ f. Broken (source_of parts.now) f)) }
    ensures first { IfErr result (λ e. IfCheck e (λ f. IsFirstBroken (source_of parts.now) f)) }
{
    let Ok(states) = numbered_states(alloc, &scope, parts) else {
        return Err(BuildError::NoMemory);
    };
    let reset = reset_state(&scope, parts);
    let vars = variables_of(scope);
    match check_shapes(alloc, states.as_slice(), reset.0 as usize) {
        Err(_) => Err(BuildError::NoMemory),
        Ok(Some(fault)) => Err(BuildError::Check(fault)),
        Ok(None) => match Machine::of(alloc, vars, reset, states) {
            Ok(machine) => Ok(machine),
            Err(_) => Err(BuildError::NoMemory),
        },
    }
}

// The variables of a scope.
fn variables_of(scope: Scope) -> Vec<VarInfo>
    ensures { result.items ≡ scope.entry.vars.items }
{
    let Scope { vars, .. } = scope;
    vars
}

// The states of parts, over the numbers of variables and states.
fn numbered_states(alloc: Global, scope: &Scope, parts: &Parts) -> Result<Vec<State>, NoMemory>
    requires scope { IsScopeOf (source_of parts.now) scope.now.vars.items (map source_state_of scope.now.states.now) }
    requires plain { plain_faults (source_of parts.now) ≡ [] }
    ensures { IfOk result (λ states. map state_with_line states.items ≡ states_with_lines (source_of parts.now)) }
{
    resolve(alloc, scope, &parts.states)
}

// The number of the reset state.
fn reset_state(scope: &Scope, parts: &Parts) -> StateId
    requires scope { IsScopeOf (source_of parts.now) scope.now.vars.items (map source_state_of scope.now.states.now) }
    requires plain { plain_faults (source_of parts.now) ≡ [] }
    ensures number { result.0 ≡ place_or_end (state_names (source_of parts.now).states) (source_of parts.now).reset }
    ensures within { result.0 < length (source_of parts.now).states }
{
    scope.state_id(&parts.reset)
}
