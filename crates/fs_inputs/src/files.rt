//! From the bytes of a file to the inputs of a machine.

ghost use Rattle.std.specs.Prelude.{◌≡◌, None, Some, IfOk, IfErr, OnOk, string_bytes, slice_get};
ghost use Rattle.std.specs.Option.{option_map};
ghost use Rattle.std.specs.Str.{bytes_eq};
ghost use Rattle.serde_json.specs.View.{view, members_view};
ghost use Rattle.serde_json.specs.Find.{as_object};
ghost use Rattle.fs_stores.specs.InputValues.{inputs_of, input_values, signatures_of, input_signatures, sort_named, Serves};
ghost use Rattle.fs_inputs.specs.InputMembers.{first_input_fault, input_file_fault, fault_of_input, input_value_fault, inputs_in};
ghost use Rattle.fs_inputs.specs.Steps.{input_place, IsGivenAt, GivesMember, inputs_over};
ghost use Rattle.fs_inputs.specs.Refusals.{ValueSpellsInputs, SpellsInputFile, IsRefusedAsInputs, IsOfInputFault};

use crate::faults::{Fault, InputError};
use crate::values::{value_fault, value_for};
use base_json_files::{JsonError, read_json};
use fs_ast::machine::Machine;
use fs_model::parts::{Role, Sort, VarInfo};
use fs_stores::inputs::Inputs;
use fs_stores::memory::NoMemory;
use serde_json::{Map, Value};
use std::alloc::Global;

// Whether a variable has the name.
fn is_named(var: &VarInfo, name: &[u8]) -> bool
    ensures { result ≡ bytes_eq var.now.name name.now }
{
    var.name.bytes() == name
}

// The place of the input of a name, counted in order of declaration from 0, and its sort.
fn input_at(m: &Machine, name: &[u8]) -> Option<(u32, Sort)>
    ensures place { option_map (λ p. p.0) result ≡ input_place (input_signatures m.now.variables) name.now }
    ensures sort { option_map (λ p. p.1) result ≡ sort_named (input_signatures m.now.variables) name.now }
{
    let mut place = 0u32;
    for var in m.vars() {
        if var.role == Role::Input {
            if is_named(var, name) {
                return Some((place, var.sort));
            }
            place += 1;
        }
    }
    None
}

// What is wrong with the value of a name, or with the name.
fn fault_at(m: &Machine, name: &String, value: &Value) -> Option<Fault>
    ensures { result ≡ fault_of_input (sort_named (input_signatures m.now.variables) (string_bytes name.now)) (view value.now) }
{
    match input_at(m, name.as_bytes()) {
        Some((_, sort)) => value_fault(sort, value),
        None => Some(Fault::Unknown),
    }
}

// The first name with a fault, in the order of the members.
fn first_fault<'a>(m: &Machine, members: &'a Map<String, Value>) -> Option<(&'a String, Fault)>
    ensures { option_map (λ p. (string_bytes p.0.now, p.1)) result
        ≡ first_input_fault (input_signatures m.now.variables) (members_view members.now.entries) }
{
    for (name, value) in members.iter() {
        if let Some(fault) = fault_at(m, name, value) {
            return Some((name, fault));
        }
    }
    None
}

// The refusal for a fault at a name.
fn refusal(name: String, fault: Fault) -> InputError
    ensures { IsOfInputFault (Some (string_bytes name, fault)) result }
{
    match fault {
        Fault::Shape => InputError::Shape { name },
        Fault::Unknown => InputError::UnknownName { name },
        Fault::TooBig => InputError::NumberTooBig { name },
    }
}

// Gives the input at a place a value.
fn give_at(
    alloc: Global,
    inputs: &mut Inputs,
    place: u32,
    sort: Sort,
    value: &Value,
) -> Result<(), NoMemory>
    requires fine { input_value_fault sort (view value.now) ≡ None }
    requires sort { option_map (λ f. f.1) (slice_get (signatures_of inputs.old) place) ≡ Some sort }
    ensures given { OnOk result (IsGivenAt (input_values inputs.old) (input_values inputs.new) place (view value.now)) }
    ensures signatures { signatures_of inputs.new ≡ signatures_of inputs.old }
{
    let held = value_for(alloc, sort, value)?;
    inputs.set(alloc, place, held)
}

// Gives the input of a name what a value spells.
fn give(
    alloc: Global,
    m: &Machine,
    inputs: &mut Inputs,
    name: &String,
    value: &Value,
) -> Result<(), NoMemory>
    requires signatures { signatures_of inputs.old ≡ input_signatures m.now.variables }
    requires fine { fault_of_input (sort_named (input_signatures m.now.variables) (string_bytes name.now))
        (view value.now) ≡ None }
    ensures given { OnOk result
        (GivesMember (string_bytes name.now) (view value.now) (inputs_of inputs.old) (inputs_of inputs.new)) }
    ensures signatures { signatures_of inputs.new ≡ signatures_of inputs.old }
{
    match input_at(m, name.as_bytes()) {
        Some((place, sort)) => give_at(alloc, inputs, place, sort, value),
        None => unreachable!(),
    }
}

// Gives each input that an object names what its value spells.
fn give_all(
    alloc: Global,
    m: &Machine,
    inputs: &mut Inputs,
    members: &Map<String, Value>,
) -> Result<(), NoMemory>
    requires signatures { signatures_of inputs.old ≡ input_signatures m.now.variables }
    requires fine { first_input_fault (input_signatures m.now.variables) (members_view members.now.entries) ≡ None }
    ensures given { OnOk result (inputs_of inputs.new ≡ inputs_over (inputs_of inputs.old) (members_view members.now.entries)) }
    ensures signatures { signatures_of inputs.new ≡ signatures_of inputs.old }
{
    for (name, value) in members.iter() {
        give(alloc, m, inputs, name, value)?;
    }
    Ok(())
}

// The inputs that an object without fault spells.
fn spelled_inputs(
    alloc: Global,
    m: &Machine,
    members: &Map<String, Value>,
) -> Result<Inputs, NoMemory>
    requires { first_input_fault (input_signatures m.now.variables) (members_view members.now.entries) ≡ None }
    ensures inputs { IfOk result (λ ins. inputs_of ins ≡ inputs_in (members_view members.now.entries)) }
    ensures signatures { IfOk result (λ ins. signatures_of ins ≡ input_signatures m.now.variables) }
    ensures serves { IfOk result (λ ins. Serves (signatures_of ins) m.now) }
{
    let mut inputs = Inputs::zero(alloc, m)?;
    give_all(alloc, m, &mut inputs, members)?;
    Ok(inputs)
}

// The inputs that a JSON value spells.
fn read_object(alloc: Global, m: &Machine, value: &Value) -> Result<Inputs, InputError>
    ensures spelled { IfOk result (λ ins. ValueSpellsInputs (input_signatures m.now.variables) (view value.now) (inputs_of ins)) }
    ensures signatures { IfOk result (λ ins. signatures_of ins ≡ input_signatures m.now.variables) }
    ensures serves { IfOk result (λ ins. Serves (signatures_of ins) m.now) }
    ensures refused { IfErr result
        (λ e. IsOfInputFault (input_file_fault (input_signatures m.now.variables) (as_object (view value.now))) e) }
{
    let Some(members) = value.as_object() else {
        return Err(InputError::Shape {
            name: String::new(alloc),
        });
    };
    if let Some((name, fault)) = first_fault(m, members) {
        return Err(refusal(name.clone()?, fault));
    }
    Ok(spelled_inputs(alloc, m, members)?)
}

/// Reads a file of inputs for a machine, in time linear in the file.
///
/// `NotJson` comes exactly when the bytes are not UTF-8 text, or are not JSON as `serde_json` reads
/// it: at most 127 levels deep, no number past the floats, no lone surrogate. Else `Shape` with the
/// empty name comes where the file is no object. Else the names are looked at in the order of their
/// bytes, and the first that has a fault is refused: with `UnknownName` where no input has it, with
/// `Shape` where its value does not have the form that the input's sort asks for (for an array all names
/// and values are looked at), with `NumberTooBig` where a number of it lies outside 128 bits. Of equal
/// names the last counts. `NoMemory` may come at any time.
pub fn read_inputs(alloc: Global, bytes: &[u8], m: &Machine) -> Result<Inputs, InputError>
    ensures spelled { IfOk result (λ ins. SpellsInputFile (input_signatures m.now.variables) bytes.now (inputs_of ins)) }
    ensures refused { IfErr result (λ e. IsRefusedAsInputs (input_signatures m.now.variables) bytes.now e) }
    ensures signatures { IfOk result (λ ins. signatures_of ins ≡ input_signatures m.now.variables) }
    ensures serves { IfOk result (λ ins. Serves (signatures_of ins) m.now) }
{
    let value = match read_json(alloc, bytes) {
        Ok(value) => value,
        Err(JsonError::NotJson) => return Err(InputError::NotJson),
        Err(JsonError::NoMemory) => return Err(InputError::NoMemory),
    };
    read_object(alloc, m, &value)
}
