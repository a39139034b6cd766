//! From the bytes of a file to the binding of a machine.

ghost use Rattle.std.specs.Prelude.{◌≡◌, ◌≤◌, ◌++◌, length, true, None, Some, IfOk, IfErr, IfSome, OnOk, string_bytes, map};
ghost use Rattle.std.specs.Option.{option_map};
ghost use Rattle.std.specs.Str.{bytes_eq};
ghost use Rattle.serde_json.specs.View.{view, members_view};
ghost use Rattle.serde_json.specs.Find.{as_object, as_str};
ghost use Rattle.fs_model.specs.Words.{is_name};
ghost use Rattle.fs_model.specs.Limits.{most_variables};
ghost use Rattle.hls_bind.specs.Bindings.{is_scalar_local, IsBindingOf};
ghost use Rattle.hls_bind.specs.BindingEntries.{binding_entry};
ghost use Rattle.hls_bind.specs.BindingMembers.{is_taken, names_local, register_fault, fault_of_binding, first_binding_fault};
ghost use Rattle.hls_bind.specs.BindingMembers.{binding_file_fault, register_given, entry_at, binding_from, GivenBy};
ghost use Rattle.hls_bind.specs.BindingMembers.{GivesBinding, IsRefusedAsBinding, IsOfBindingFault};

use crate::binding::{Binding, BoundLocal};
use crate::faults::{BindError, Fault};
use base_json_files::{JsonError, read_json};
use fs_ast::machine::Machine;
use fs_model::name::{Name, NoMemory, is_name};
use fs_model::parts::{Role, VarId, VarInfo};
use serde_json::{Map, Value};
use std::alloc::Global;

// Whether a variable has the name.
fn is_named(var: &VarInfo, name: &[u8]) -> bool
    ensures { result ≡ bytes_eq var.now.name name.now }
{
    var.name.bytes() == name
}

// Whether one of the variables has the name.
fn is_taken(vars: &[VarInfo], name: &[u8]) -> bool
    ensures { result ≡ is_taken vars.now name.now }
{
    vars.iter().any(|var| is_named(var, name))
}

// Whether a variable is a local that holds one number.
fn is_scalar_local(var: &VarInfo) -> bool
    ensures { result ≡ is_scalar_local (Some var.now) }
{
    var.role == Role::Local && var.sort.is_scalar()
}

// Whether the name is that of a scalar local.
fn names_local(vars: &[VarInfo], name: &[u8]) -> bool
    ensures { result ≡ names_local vars.now name.now }
{
    for var in vars {
        if is_named(var, name) {
            return is_scalar_local(var);
        }
    }
    false
}

// What is wrong with the value of a local.
fn register_fault(vars: &[VarInfo], value: &Value) -> Option<Fault>
    ensures { result ≡ register_fault vars.now (as_str (view value.now)) }
{
    let Some(register) = value.as_str() else {
        return Some(Fault::Shape);
    };
    if !is_name(register.as_bytes()) {
        Some(Fault::BadName)
    } else if is_taken(vars, register.as_bytes()) {
        Some(Fault::Taken)
    } else {
        None
    }
}

// What is wrong with a name and its value.
fn fault_at(vars: &[VarInfo], name: &String, value: &Value) -> Option<Fault>
    ensures { result ≡ fault_of_binding vars.now (string_bytes name.now) (view value.now) }
{
    if names_local(vars, name.as_bytes()) {
        register_fault(vars, value)
    } else {
        Some(Fault::Unknown)
    }
}

// The first name with a fault, in the order of the members.
fn first_fault<'a>(vars: &[VarInfo], members: &'a Map<String, Value>) -> Option<(&'a String, Fault)>
    ensures { option_map (λ p. (string_bytes p.0.now, p.1)) result
        ≡ first_binding_fault vars.now (members_view members.now.entries) }
{
    for (name, value) in members.iter() {
        if let Some(fault) = fault_at(vars, name, value) {
            return Some((name, fault));
        }
    }
    None
}

// The refusal for a fault at a name, or for want of memory.
fn refusal(name: &String, fault: Fault) -> BindError
    ensures { IsOfBindingFault (Some (string_bytes name.now, fault)) result }
{
    let Ok(name) = name.clone() else {
        return BindError::NoMemory;
    };
    match fault {
        Fault::Unknown => BindError::UnknownName { name },
        Fault::Shape => BindError::Shape { name },
        Fault::BadName => BindError::BadName { name },
        Fault::Taken => BindError::Taken { name },
    }
}

// The register that an object gives a variable.
fn register_given<'a>(members: &'a Map<String, Value>, var: &VarInfo) -> Option<&'a str>
    ensures { option_map (λ r. r.now) result ≡ register_given (members_view members.now.entries) var.now.name }
{
    for (name, value) in members.iter() {
        if is_named(var, name.as_bytes()) {
            return value.as_str();
        }
    }
    None
}

// Adds the entry of a variable, if the object gives it a register.
fn add_entry(
    alloc: Global,
    entries: &mut Vec<BoundLocal>,
    local: VarId,
    register: Option<&str>,
) -> Result<(), NoMemory>
    requires { IfSome register (λ r. is_name r.now ≡ true) }
    ensures { OnOk result
        (map binding_entry entries.new.items ≡ map binding_entry entries.old.items
        ++ entry_at local.0 (option_map (λ r. r.now) register.entry)) }
{
    if let Some(text) = register {
        if let Some(register) = Name::of(alloc, text.as_bytes())? {
            entries.push(BoundLocal { local, register })?;
        } else {
            unreachable!();
        }
    }
    Ok(())
}

// The entries that an object without fault gives.
fn entries_of(
    alloc: Global,
    vars: &[VarInfo],
    members: &Map<String, Value>,
) -> Result<Vec<BoundLocal>, NoMemory>
    requires fine { first_binding_fault vars.now (members_view members.now.entries) ≡ None }
    requires few { length vars.now ≤ most_variables }
    ensures { IfOk result
        (λ entries. map binding_entry entries.items ≡ binding_from 0 vars.now (members_view members.now.entries)) }
{
    let mut entries = Vec::new(alloc);
    for k in 0..vars.len() {
        let register = register_given(members, &vars[k]);
        add_entry(alloc, &mut entries, VarId(k as u32), register)?;
    }
    Ok(entries)
}

// The binding that an object without fault gives.
fn binding_of(alloc: Global, m: &Machine, members: &Map<String, Value>) -> Result<Binding, NoMemory>
    requires { first_binding_fault m.now.variables (members_view members.now.entries) ≡ None }
    ensures given { IfOk result (λ b. b ≡ binding_from 0 m.now.variables (members_view members.now.entries)) }
    ensures of_machine { IfOk result (λ b. IsBindingOf m.now.variables b) }
{
    let entries = entries_of(alloc, m.vars(), members)?;
    Ok(Binding::of(entries))
}

// The binding that a JSON value gives.
fn read_object(alloc: Global, m: &Machine, value: &Value) -> Result<Binding, BindError>
    ensures given { IfOk result (λ b. GivenBy m.now.variables (view value.now) b) }
    ensures of_machine { IfOk result (λ b. IsBindingOf m.now.variables b) }
    ensures refused { IfErr result (λ e. IsOfBindingFault (binding_file_fault m.now.variables (as_object (view value.now))) e) }
{
    let Some(members) = value.as_object() else {
        return Err(BindError::Shape {
            name: String::new(alloc),
        });
    };
    if let Some((name, fault)) = first_fault(m.vars(), members) {
        return Err(refusal(name, fault));
    }
    Ok(binding_of(alloc, m, members)?)
}

/// Reads a file of a binding for a machine: a JSON object from names of scalar locals to names of registers.
///
/// `NotJson` comes exactly where the bytes are not UTF-8 text, or are not JSON as `serde_json` reads it. Else `Shape`
/// with the empty name comes where the file is no object. Else the names are looked at in the order of their bytes, and
/// the first that has a fault is refused: with `UnknownName` where no scalar local has it, with `Shape` where its value
/// is no string, with `BadName` where the string is no name of a machine text of at most 32 bytes, with `Taken` where it
/// is the name of a variable. Of equal names the last counts. `NoMemory` may come at any time.
pub fn read_binding(alloc: Global, bytes: &[u8], m: &Machine) -> Result<Binding, BindError>
    ensures gives { IfOk result (λ b. GivesBinding m.now.variables bytes.now b) }
    ensures of_machine { IfOk result (λ b. IsBindingOf m.now.variables b) }
    ensures refused { IfErr result (λ e. IsRefusedAsBinding m.now.variables bytes.now e) }
{
    match read_json(alloc, bytes) {
        Ok(value) => read_object(alloc, m, &value),
        Err(JsonError::NotJson) => Err(BindError::NotJson),
        Err(JsonError::NoMemory) => Err(BindError::NoMemory),
    }
}
