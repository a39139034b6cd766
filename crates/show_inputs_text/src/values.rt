//! The JSON of the values of inputs.

use fs_ast::machine::Machine;
use fs_model::parts::VarInfo;
use fs_stores::inputs::Inputs;
use fs_stores::values::Value;
use itoa::Buffer;
use nf_terms::stop::NoMemory;
use std::alloc::Global;

// Whether a number has 64 bits.
fn has_64_bits(number: &i128) -> bool {
    i64::MIN as i128 <= *number && *number <= i64::MAX as i128
}

// Adds a number, and quotes round it where it has more than 64 bits.
fn write_number(out: &mut Vec<u8>, number: &i128) -> Result<(), NoMemory> {
    let mut buffer = Buffer::new();
    let digits = buffer.format(*number).as_bytes();
    if has_64_bits(number) {
        out.extend_from_slice(digits)?;
        return Ok(());
    }
    out.extend_from_slice(b"\"")?;
    out.extend_from_slice(digits)?;
    out.extend_from_slice(b"\"")?;
    Ok(())
}

// Adds what stands before the first item of an object, or before a later one.
fn write_separator(out: &mut Vec<u8>, is_first: bool, later: &[u8]) -> Result<(), NoMemory> {
    if !is_first {
        out.extend_from_slice(later)?;
    }
    Ok(())
}

// Adds an entry of an array.
fn write_entry(out: &mut Vec<u8>, entry: &(i128, i128)) -> Result<(), NoMemory> {
    let mut buffer = Buffer::new();
    out.extend_from_slice(b"\"")?;
    out.extend_from_slice(buffer.format(entry.0).as_bytes())?;
    out.extend_from_slice(b"\": ")?;
    write_number(out, &entry.1)
}

// Adds the entries of an array as an object.
fn write_entries(out: &mut Vec<u8>, entries: &[(i128, i128)]) -> Result<(), NoMemory> {
    let mut is_first = true;
    out.extend_from_slice(b"{")?;
    for entry in entries {
        write_separator(out, is_first, b", ")?;
        write_entry(out, entry)?;
        is_first = false;
    }
    out.extend_from_slice(b"}")?;
    Ok(())
}

// Adds the value of an input; a list of numbers is none.
fn write_value(alloc: Global, out: &mut Vec<u8>, value: &Value) -> Result<(), NoMemory> {
    match value {
        Value::Num(number) => write_number(out, number),
        Value::Arr(entries) => match entries.list(alloc) {
            Ok(list) => write_entries(out, list.as_slice()),
            Err(_) => Err(NoMemory),
        },
        Value::List(_) => write_entries(out, &[]),
    }
}

// The value of the input of a number, where there are so many.
fn value_at(inputs: &Inputs, number: u32) -> Option<&Value> {
    match inputs.sort(number) {
        Some(_) => Some(inputs.get(number)),
        None => None,
    }
}

// Adds the input that a variable is, by its number.
fn write_input(
    alloc: Global,
    out: &mut Vec<u8>,
    variable: &VarInfo,
    number: u32,
    inputs: &Inputs,
) -> Result<(), NoMemory> {
    let Some(value) = value_at(inputs, number) else {
        return Ok(());
    };
    write_separator(out, number == 0, b",")?;
    out.extend_from_slice(b"\n  \"")?;
    out.extend_from_slice(variable.name.bytes())?;
    out.extend_from_slice(b"\": ")?;
    write_value(alloc, out, value)
}

// Adds the inputs of a machine, each on a line of its own.
fn write_inputs(
    alloc: Global,
    out: &mut Vec<u8>,
    machine: &Machine,
    inputs: &Inputs,
) -> Result<(), NoMemory> {
    let mut number = 0;
    for variable in machine.vars() {
        if variable.role.is_input() {
            write_input(alloc, out, variable, number, inputs)?;
            number += 1;
        }
    }
    Ok(())
}

/// A file of the inputs of a machine: an object from their names to their values, in order of declaration. The one refusal is
/// out of memory.
pub fn inputs_file(alloc: Global, machine: &Machine, inputs: &Inputs) -> Result<Vec<u8>, NoMemory> {
    let mut out = b"{".to_vec(alloc)?;
    write_inputs(alloc, &mut out, machine, inputs)?;
    out.extend_from_slice(b"\n}\n")?;
    Ok(out)
}
