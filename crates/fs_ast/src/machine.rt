//! Machines that were checked.

ghost use Rattle.std.specs.Prelude.{◌≡◌, ◌^◌, ◌<◌, true, pos, int_lt, length, map, IfOk};
ghost use Rattle.std.specs.List.{list_all};
ghost use Rattle.fs_model.specs.Machines.{transitions_of};
ghost use Rattle.fs_model.specs.Trees.{branches_of};
ghost use Rattle.fs_model.specs.View.{branch_of};
ghost use Rattle.fs_model.specs.SoundMachines.{IsSound, numbers_in_states};
ghost use Rattle.fs_branches.specs.NumberedParts.{resolved_state};
ghost use Rattle.fs_ast.specs.StoredBranches.{state_name_of, KeepsTypes};
ghost use Rattle.fs_model.specs.Words.{is_name};

use crate::constants::constants_of;
use fs_branches::resolve::State;
use fs_branches::trees::branches;
use fs_model::memory::{push_value, share};
use fs_model::name::{Name, NoMemory};
use fs_model::parts::{Branch, StateId, VarInfo};
use std::alloc::Global;
use std::marker::Model;
use std::rc::Rc;

// What a machine holds, its branches and its numbers beside its parts.
#[derive(Drop)]
struct StoredMachine {
    vars: Vec<VarInfo>,
    reset: StateId,
    states: Vec<State>,
    branches: Vec<Vec<Branch>>,
    constants: Vec<i128>,
}

/// A machine that keeps all rules. Contracts see its variables, its reset state and its transitions. Copies share what it holds.
#[derive(Drop)]
pub struct Machine {
    stored: Rc<StoredMachine>,
}

impl Model for Machine {
    ghost use Rattle.std.specs.Prelude.{map};
    ghost use Rattle.fs_model.specs.Machines.{Fsmd};
    ghost use Rattle.fs_model.specs.Codes.{coded_fsmd};
    ghost use Rattle.fs_model.specs.View.{branch_of};
    ghost use Rattle.fs_branches.specs.NumberedParts.{resolved_state};
    ghost use Rattle.fs_ast.specs.StoredBranches.{IsStoredMachine};

    ghost Value = { Fsmd };

    ghost coded = { coded_fsmd };

    ghost view = { λ m. record {
      variables = m.stored.value.vars.items;
      reset = m.stored.value.reset.0;
      states = map resolved_state m.stored.value.states.items;
    } };

    ghost invariant = { λ m. IsStoredMachine
        (record {
          variables = m.stored.value.vars.items;
          reset = m.stored.value.reset.0;
          states = map resolved_state m.stored.value.states.items;
        })
        (map (λ b. map branch_of b.items) m.stored.value.branches.items) m.stored.value.constants.items };
}

impl Machine {
    /// The variables in order of declaration. The number of a variable is its place here. Takes no memory.
    pub fn vars(&self) -> &[VarInfo]
        ensures vars { result.now ≡ self.now.variables }
        ensures sound { IsSound self.now }
    {
        self.stored.vars.as_slice()
    }

    /// How many states there are. Takes no memory.
    pub fn state_count(&self) -> u32
        ensures count { result ≡ length self.now.states }
        ensures sound { IsSound self.now }
    {
        self.stored.states.len() as u32
    }

    /// The name of a state. States are numbered in order of the text. Takes no memory.
    pub fn state_name(&self, s: StateId) -> &Name
        requires { s.0 < length self.now.states }
        ensures name { result.now ≡ state_name_of self.now s.0 }
        ensures sound { IsSound self.now }
    {
        &self.stored.states[s.0 as usize].name
    }

    /// The reset state. Takes no memory.
    pub fn reset(&self) -> StateId
        ensures reset { result.0 ≡ self.now.reset }
        ensures sound { IsSound self.now }
    {
        self.stored.reset
    }

    /// The branches of a state: the leaves of its decision tree, yes before no. Takes no memory.
    pub fn branches(&self, s: StateId) -> &[Branch]
        requires { s.0 < length self.now.states }
        ensures branches { map branch_of result.now ≡ branches_of (transitions_of self.now s.0) }
        ensures sound { IsSound self.now }
    {
        self.stored.branches[s.0 as usize].as_slice()
    }

    /// Every number of guards and assignments in order of the text, repeats included. Takes no memory.
    pub fn constants(&self) -> &[i128]
        ensures constants { result.now ≡ numbers_in_states self.now.states }
        ensures sound { IsSound self.now }
    {
        self.stored.constants.as_slice()
    }

    /// An equal machine. The only refusal is out of memory.
    pub fn try_clone(&self, _alloc: Global) -> Result<Machine, NoMemory>
        ensures { IfOk result (λ m. m ≡ self.now) }
    {
        Ok(Machine {
            stored: self.stored.clone()?,
        })
    }

    /// The machine of these variables and states.
    pub(crate) fn of(
        alloc: Global,
        vars: Vec<VarInfo>,
        reset: StateId,
        states: Vec<State>,
    ) -> Result<Machine, NoMemory>
        requires { KeepsTypes vars.items (map resolved_state states.items)
            → IsSound (record { variables = vars.items; reset = reset.0; states = map resolved_state states.items }) }
        ensures { IfOk result
            (λ m. m ≡ record { variables = vars.items; reset = reset.0; states = map resolved_state states.items }) }
    {
        let branches = all_branches(alloc, states.as_slice())?;
        let constants = constants_of(alloc, states.as_slice())?;
        see_variable_names(vars.as_slice());
        see_state_names(states.as_slice());
        see_numbers(constants.as_slice());
        let stored = StoredMachine {
            vars,
            reset,
            states,
            branches,
            constants,
        };
        Ok(Machine {
            stored: share(alloc, stored)?,
        })
    }
}

// The branches of states.
fn all_branches(alloc: Global, states: &[State]) -> Result<Vec<Vec<Branch>>, NoMemory>
    ensures { IfOk result
        (λ out. map (λ b. map branch_of b.items) out.items
        ≡ map (λ s. branches_of s.transitions) (map resolved_state states.now)) }
{
    let mut out = Vec::new(alloc);
    for state in states {
        push_value(&mut out, branches(alloc, state.lines.as_slice())?)?;
    }
    Ok(out)
}

// Reads each name, which is one by its type.
fn see_variable_names(vars: &[VarInfo])
    ensures { list_all (λ v. is_name v.name) vars.now ≡ true }
{
    for var in vars {
        let _bytes = var.name.bytes(); // The call tells the proof that the bytes are a name.
    }
}

// Reads each name, which is one by its type.
fn see_state_names(states: &[State])
    ensures { list_all (λ s. is_name s.name) (map resolved_state states.now) ≡ true }
{
    for state in states {
        let _bytes = state.name.bytes(); // The call tells the proof that the bytes are a name.
    }
}

// Reads each number, which lies below 2^127 by its type.
fn see_numbers(numbers: &[i128])
    ensures { list_all (λ n. int_lt n (pos (2 ^ 127))) numbers.now ≡ true }
{
    for number in numbers {
        let _number = *number; // The read tells the proof in which range the type keeps its numbers.
    }
}
