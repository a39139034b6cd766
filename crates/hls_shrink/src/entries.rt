//! The numbers of inputs that are not 0, and inputs with another number.

ghost use Rattle.std.specs.Prelude.{◌≡◌, ◌++◌, map, IfOk};
ghost use Rattle.std.specs.Result.{OnOk};
ghost use Rattle.fs_stores.specs.Values.{content_of, sort_of};
ghost use Rattle.fs_stores.specs.InputValues.{signatures_of, input_signatures, Serves};
ghost use Rattle.hls_shrink.specs.InputEntries.{contents_in, AreEntries, at_input, number_entries};
ghost use Rattle.hls_shrink.specs.Growth.{AddsEntries};
ghost use Rattle.hls_shrink.specs.Reductions.{content_with, contents_with};

use fs_ast::machine::Machine;
use fs_stores::inputs::Inputs;
use fs_stores::memory::NoMemory;
use fs_stores::values::Value;
use std::alloc::Global;

/// A number of inputs that is not 0: the input, counted in order of declaration from 0, the index, which is 0 for a scalar,
/// and the number.
#[derive(Clone, Copy)]
pub struct InputEntry {
    pub input: u32,
    pub index: i128,
    pub number: i128,
}

/// The numbers of a machine's inputs that are not 0, input after input, and those of an array by rising index. The only refusal
/// is out of memory.
pub fn entries(alloc: Global, m: &Machine, inputs: &Inputs) -> Result<Vec<InputEntry>, NoMemory>
    requires { signatures_of inputs.now ≡ input_signatures m.now.variables }
    ensures { IfOk result (λ es. AreEntries 0 (contents_in inputs.now) es.items) }
{
    let mut list = Vec::new(alloc);
    for k in 0..m.vars().len() as u32 {
        if inputs.sort(k).is_none() {
            return Ok(list);
        }
        add_entries(alloc, &mut list, k, inputs.get(k))?;
    }
    Ok(list)
}

// Adds the numbers of an input that are not 0.
fn add_entries(
    alloc: Global,
    list: &mut Vec<InputEntry>,
    input: u32,
    value: &Value,
) -> Result<(), NoMemory>
    ensures { OnOk result (AddsEntries input (content_of value.now) list.old.items list.new.items) }
{
    match value {
        Value::Num(number) => add_number(list, input, number),
        Value::Arr(numbers) => add_array(list, input, numbers.list(alloc)?.as_slice()),
        Value::List(_) => Ok(()),
    }
}

// Adds a scalar that is not 0.
fn add_number(list: &mut Vec<InputEntry>, input: u32, number: &i128) -> Result<(), NoMemory>
    ensures { OnOk result (list.new.items ≡ list.old.items ++ number_entries input number.now) }
{
    if *number == 0 {
        return Ok(());
    }
    list.push(InputEntry {
        input,
        index: 0,
        number: *number,
    })?;
    Ok(())
}

// Adds the listing of an array.
fn add_array(
    list: &mut Vec<InputEntry>,
    input: u32,
    listing: &[(i128, i128)],
) -> Result<(), NoMemory>
    ensures { OnOk result (list.new.items ≡ list.old.items ++ map (at_input input) listing.now) }
{
    for (index, number) in listing {
        list.push(InputEntry {
            input,
            index: *index,
            number: *number,
        })?;
    }
    Ok(())
}

/// Inputs of a machine with another number where an entry is. The only refusal is out of memory.
pub fn with_number(
    alloc: Global,
    m: &Machine,
    inputs: &Inputs,
    entry: &InputEntry,
    number: &i128,
) -> Result<Inputs, NoMemory>
    requires { signatures_of inputs.now ≡ input_signatures m.now.variables }
    ensures signatures { IfOk result (λ ins. signatures_of ins ≡ input_signatures m.now.variables) }
    ensures serves { IfOk result (λ ins. Serves (signatures_of ins) m.now) }
    ensures contents { IfOk result (λ ins. contents_in ins ≡ contents_with (contents_in inputs.now) entry.now number.now) }
{
    let _vars = m.vars(); // The call tells the proof that the machine is sound.
    let mut copy = inputs.try_clone(alloc)?;
    if inputs.sort(entry.input).is_none() {
        return Ok(copy);
    }
    let value = value_with(inputs.get(entry.input), &entry.index, number)?;
    copy.set(alloc, entry.input, value)?;
    Ok(copy)
}

// A value with another number at an index. A scalar has one number.
fn value_with(value: &Value, index: &i128, number: &i128) -> Result<Value, NoMemory>
    ensures content { IfOk result (λ v. content_of v ≡ content_with (content_of value.now) index.now number.now) }
    ensures sort { IfOk result (λ v. sort_of v ≡ sort_of value.now) }
{
    match value {
        Value::Num(_) => Ok(Value::Num(*number)),
        Value::Arr(numbers) => {
            let mut own = numbers.try_clone()?;
            own.set(*index, *number)?;
            Ok(Value::Arr(own))
        }
        Value::List(numbers) => Ok(Value::List(numbers.try_clone()?)),
    }
}
