//! States in which registers stand for the locals that are bound to them.

ghost use Rattle.std.specs.Prelude.{◌≡◌, map, option_map, IfOk};
ghost use Rattle.fs_ast.specs.MachineOfParts.{place_or_end, names_of};
ghost use Rattle.fs_model.specs.Renamed.{guard_over};
ghost use Rattle.fs_model.specs.View.{named_guard, source_transition_of, source_state_of};
ghost use Rattle.hls_bind.specs.Bindings.{register, transition_renamed, state_renamed};
ghost use Rattle.hls_bind.specs.BindingEntries.{binding_entry, name_for};

use crate::binding::BoundLocal;
use fs_model::copies::{Rename, renamed_assignments};
use fs_model::memory::push_made;
use fs_model::name::{Name, NoMemory};
use fs_model::parts::{Guard, RawLine, RawState, VarInfo};
use std::alloc::Global;

/// The variables of a machine, and the registers of some of them.
#[derive(Clone, Copy)]
pub struct Registers<'a> {
    pub vars: &'a [VarInfo],
    pub entries: &'a [BoundLocal],
}

/// The place of a name among variables, and their number where none has it.
pub fn place(vars: &[VarInfo], name: &Name) -> usize
    ensures { result ≡ place_or_end (names_of vars.now) name.now }
{
    let mut place = 0usize;
    for var in vars {
        if var.name == *name {
            return place;
        }
        place += 1;
    }
    place
}

/// The register of the local of a number, if it has one.
pub fn register_at(entries: &[BoundLocal], place: usize) -> Option<&Name>
    ensures { option_map (λ n. n.now) result ≡ register (map binding_entry entries.now) place }
{
    for entry in entries {
        if entry.local.0 as usize == place {
            return Some(&entry.register);
        }
    }
    None
}

impl<'a> Rename<Name> for Registers<'a> {
    type To = Name;

    ghost can_rename = { λ _. Unit {0} };

    ghost renamed = { λ own n. name_for own n };

    fn rename(&self, alloc: Global, variable: &Name) -> Result<Name, NoMemory> {
        match register_at(self.entries, place(self.vars, variable)) {
            Some(register) => register.try_clone(alloc),
            None => variable.try_clone(alloc),
        }
    }
}

fn renamed_condition(
    alloc: Global,
    registers: &Registers,
    guard: &Option<Guard>,
) -> Result<Option<Guard>, NoMemory>
    ensures { IfOk result
        (λ g. option_map named_guard g ≡ option_map (guard_over (name_for registers.now)) (option_map named_guard guard.now)) }
{
    match guard {
        None => Ok(None),
        Some(guard) => Ok(Some(guard.copy_renamed(alloc, registers)?)),
    }
}

fn renamed_transition(
    alloc: Global,
    registers: &Registers,
    line: &RawLine,
) -> Result<RawLine, NoMemory>
    ensures { IfOk result
        (λ l. source_transition_of l ≡ transition_renamed (name_for registers.now) (source_transition_of line.now)) }
{
    let target = line.target.try_clone(alloc)?;
    let assigns = renamed_assignments(alloc, &line.assigns, registers)?;
    Ok(RawLine {
        line: line.line,
        guard: renamed_condition(alloc, registers, &line.guard)?,
        target,
        assigns,
    })
}

fn renamed_transitions(
    alloc: Global,
    registers: &Registers,
    lines: &[RawLine],
) -> Result<Vec<RawLine>, NoMemory>
    ensures { IfOk result
        (λ out. map source_transition_of out.items ≡ map (transition_renamed (name_for registers.now))
        (map source_transition_of lines.now)) }
{
    let mut out = Vec::new(alloc);
    for line in lines {
        push_made(&mut out, renamed_transition(alloc, registers, line))?;
    }
    Ok(out)
}

fn renamed_state(
    alloc: Global,
    registers: &Registers,
    state: &RawState,
) -> Result<RawState, NoMemory>
    ensures { IfOk result (λ s. source_state_of s ≡ state_renamed (name_for registers.now) (source_state_of state.now)) }
{
    let name = state.name.try_clone(alloc)?;
    let lines = renamed_transitions(alloc, registers, &state.lines)?;
    Ok(RawState {
        line: state.line,
        name,
        lines,
    })
}

/// The states with each bound local replaced by its register.
pub fn renamed_states(
    alloc: Global,
    registers: &Registers,
    states: &[RawState],
) -> Result<Vec<RawState>, NoMemory>
    ensures { IfOk result
        (λ out. map source_state_of out.items ≡ map (state_renamed (name_for registers.now)) (map source_state_of states.now)) }
{
    let mut out = Vec::new(alloc);
    for state in states {
        push_made(&mut out, renamed_state(alloc, registers, state))?;
    }
    Ok(out)
}
