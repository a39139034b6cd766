//! Declarations in which registers stand for the locals that are bound to them.

ghost use Rattle.std.specs.Prelude.{◌≡◌, ◌==◌, [], ◌∷◌, ◌++◌, true, cond, length, map, filter, IfOk};
ghost use Rattle.std.specs.Result.{OnOk};
ghost use Rattle.fs_ast.specs.MachineOfParts.{names_of};
ghost use Rattle.fs_model.specs.View.{declaration_of};
ghost use Rattle.hls_bind.specs.Bindings.{is_rising, AreRegisters, stays, declaration_without_bound};
ghost use Rattle.hls_bind.specs.Bindings.{remaining_declarations};
ghost use Rattle.hls_bind.specs.BindingEntries.{binding_entry};

use crate::binding::BoundLocal;
use crate::renaming::{Registers, place, register_at};
use fs_model::memory::push_made;
use fs_model::name::{Name, NoMemory};
use fs_model::parts::Decl;
use std::alloc::Global;

// Whether a name stays declared.
fn stays(registers: &Registers, name: &Name) -> bool
    ensures { result ≡ stays (map binding_entry registers.now.entries.now) (names_of registers.now.vars.now) name.now }
{
    register_at(registers.entries, place(registers.vars, name)).is_none()
}

// Copies of the names that stay declared.
fn names_left(alloc: Global, registers: &Registers, names: &[Name]) -> Result<Vec<Name>, NoMemory>
    ensures { IfOk result
        (λ out. out.items ≡ filter
        (stays (map binding_entry registers.now.entries.now) (names_of registers.now.vars.now)) names.now) }
{
    let mut out = Vec::new(alloc);
    for name in names {
        if stays(registers, name) {
            push_made(&mut out, name.try_clone(alloc))?;
        }
    }
    Ok(out)
}

// A declaration without bound locals.
fn without(alloc: Global, registers: &Registers, decl: &Decl) -> Result<Decl, NoMemory>
    ensures { IfOk result
        (λ d. declaration_of d ≡ declaration_without_bound (map binding_entry registers.now.entries.now)
        (names_of registers.now.vars.now)
        (declaration_of decl.now)) }
{
    Ok(Decl {
        line: decl.line,
        role: decl.role,
        sort: decl.sort,
        names: names_left(alloc, registers, &decl.names)?,
    })
}

/// Adds a declaration, unless it has no names.
pub fn declare(decls: &mut Vec<Decl>, decl: Decl) -> Result<(), NoMemory>
    ensures { OnOk result
        (map declaration_of decls.new.items ≡ map declaration_of decls.old.items
        ++ cond (length decl.names.items == 0) [] (declaration_of decl ∷ [])) }
{
    if decl.names.len() != 0 {
        decls.push(decl)?;
    }
    Ok(())
}

/// The declarations without bound locals, those that are then empty left out.
pub fn remaining(
    alloc: Global,
    registers: &Registers,
    decls: &[Decl],
) -> Result<Vec<Decl>, NoMemory>
    ensures { IfOk result
        (λ out. map declaration_of out.items ≡ remaining_declarations (map binding_entry registers.now.entries.now)
        (names_of registers.now.vars.now) (map declaration_of decls.now)) }
{
    let mut out = Vec::new(alloc);
    for decl in decls {
        declare(&mut out, without(alloc, registers, decl)?)?;
    }
    Ok(out)
}

/// The registers of a binding, each once, in the order of their bytes.
pub fn registers_of(alloc: Global, entries: &[BoundLocal]) -> Result<Vec<Name>, NoMemory>
    requires { is_rising (map binding_entry entries.now) ≡ true }
    ensures { IfOk result (λ out. AreRegisters (map binding_entry entries.now) out.items) }
{
    let mut out = Vec::new(alloc);
    for entry in entries {
        push_made(&mut out, entry.register.try_clone(alloc))?;
    }
    out.sort_unstable();
    out.dedup();
    Ok(out)
}
