//! Binding the locals of a machine to registers.

ghost use Rattle.std.specs.Prelude.{◌≡◌, ◌++◌, map, IfOk};
ghost use Rattle.std.specs.Option.{option_map};
ghost use Rattle.fs_model.specs.View.{source_of, declaration_of};
ghost use Rattle.fs_ast.specs.MachineOfParts.{machine_of, names_of, variables_of};
ghost use Rattle.hls_bind.specs.Bindings.{IsBindingOf, remaining_declarations, of_registers, bound_parts};
ghost use Rattle.hls_bind.specs.BindingEntries.{binding_entry, conflict_of};
ghost use Rattle.hls_bind.specs.Results.{IsBuiltOf, IsBoundParts, HasNoConflict, IsVerdict, IsRight};

use crate::binding::Binding;
use crate::conflicts::{Conflict, first_conflict};
use crate::declarations::{declare, registers_of, remaining};
use crate::flows::live_at_states;
use crate::renaming::{Registers, renamed_states};
use fs_ast::lawful_machines::build_lawful;
use fs_ast::machine::Machine;
use fs_model::name::{Name, NoMemory};
use fs_model::parts::{Decl, Parts, Role, Sort, StateId, VarId};
use std::alloc::Global;

/// What comes of binding locals to registers.
#[derive(Drop)]
pub enum Bound {
    /// The parts with each bound local replaced by its register, and the machine that they spell. It has the behaviour
    /// of the machine before.
    Yes {
        parts: Parts,
        machine: Machine,
    },
    /// The first branch that loses one of two locals with one register: it writes the first, and it writes the other
    /// too (`twice`), or the other is live where it leads. Branches of a state count from 0.
    No {
        state: StateId,
        branch: u32,
        written: VarId,
        other: VarId,
        twice: bool,
    },
}

// The first conflict, if there is one.
fn conflict(alloc: Global, m: &Machine, b: &Binding) -> Result<Option<Conflict>, NoMemory>
    requires { IsBindingOf m.now.variables b.now }
    ensures { IfOk result (λ o. IsVerdict b.now m.now (option_map conflict_of o)) }
{
    let live = live_at_states(alloc, m)?;
    let _vars = m.vars(); // The call tells the proof that the machine is sound.
    first_conflict(alloc, m, b.entries(), live.as_slice())
}

// The declarations without bound locals, and one of the registers.
fn declarations(
    alloc: Global,
    registers: &Registers,
    parts: &Parts,
    names: Vec<Name>,
) -> Result<Vec<Decl>, NoMemory>
    ensures { IfOk result
        (λ ds. map declaration_of ds.items ≡ remaining_declarations (map binding_entry registers.now.entries.now)
        (names_of registers.now.vars.now) (source_of parts.now).declarations ++ of_registers parts.now.reset_line names.items) }
{
    let mut decls = remaining(alloc, registers, &parts.decls)?;
    let declaration = Decl {
        line: parts.reset_line,
        role: Role::Local,
        sort: Sort::Scalar,
        names,
    };
    declare(&mut decls, declaration)?;
    Ok(decls)
}

// The parts with each bound local replaced by its register, of which the names are listed.
fn parts_with(
    alloc: Global,
    registers: &Registers,
    parts: &Parts,
    names: Vec<Name>,
) -> Result<Parts, NoMemory>
    requires { registers.now.vars.now ≡ variables_of (source_of parts.now).declarations }
    ensures { IfOk result
        (λ p. source_of p ≡ bound_parts (map binding_entry registers.now.entries.now) names.items (source_of parts.now)) }
{
    let decls = declarations(alloc, registers, parts, names)?;
    let states = renamed_states(alloc, registers, &parts.states)?;
    Ok(Parts {
        decls,
        reset_line: parts.reset_line,
        reset: parts.reset.try_clone(alloc)?,
        states,
    })
}

// The parts with each bound local replaced by its register.
fn bound_parts(alloc: Global, parts: &Parts, m: &Machine, b: &Binding) -> Result<Parts, NoMemory>
    requires { m.now ≡ machine_of (source_of parts.now) }
    ensures { IfOk result (λ p. IsBoundParts b.now (source_of parts.now) (source_of p)) }
{
    let names = registers_of(alloc, b.entries())?;
    let registers = Registers {
        vars: m.vars(),
        entries: b.entries(),
    };
    parts_with(alloc, &registers, parts, names)
}

// The parts with registers and their machine, where no branch loses a local.
fn with_registers(alloc: Global, parts: &Parts, m: &Machine, b: &Binding) -> Result<Bound, NoMemory>
    requires built { IsBuiltOf (source_of parts.now) m.now }
    requires binding { IsBindingOf m.now.variables b.now }
    requires free { HasNoConflict b.now m.now }
    ensures { IfOk result (λ r. IsRight (source_of parts.now) m.now b.now r) }
{
    let _vars = m.vars(); // The call tells the proof that the machine is sound.
    let new_parts = bound_parts(alloc, parts, m, b)?;
    let machine = build_lawful(alloc, &new_parts)?;
    Ok(Bound::Yes {
        parts: new_parts,
        machine,
    })
}

/// Binds locals of a machine to registers, in parts that the machine was built of.
///
/// `No` comes exactly where some branch writes two locals with one register, or writes one while the other is live at
/// the state that it leads to, which isn't the reset state. It names the first such branch and pair by state, by branch,
/// by the written local and by the other. `Yes` gives the parts with registers and the machine that is built of them:
/// bound locals leave their declarations, a declaration that is then empty is dropped, and the last one declares the
/// registers in the order of their bytes, if there are any. The only error is want of memory.
///
/// Takes time in proportion to the branches and the rounds in which names become live, of which there are few, and one
/// for each state at most.
pub fn bind(alloc: Global, parts: &Parts, m: &Machine, b: &Binding) -> Result<Bound, NoMemory>
    requires built { IsBuiltOf (source_of parts.now) m.now }
    requires binding { IsBindingOf m.now.variables b.now }
    ensures { IfOk result (λ r. IsRight (source_of parts.now) m.now b.now r) }
{
    match conflict(alloc, m, b)? {
        Some(first) => Ok(Bound::No {
            state: first.state,
            branch: first.branch,
            written: first.written,
            other: first.other,
            twice: first.twice,
        }),
        None => with_registers(alloc, parts, m, b),
    }
}
