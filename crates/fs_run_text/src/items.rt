//! Inputs and outputs by name, and their text.

ghost use Rattle.std.specs.Prelude.{◌≡◌, ℕ, List, [], ◌∷◌, map, option_map, IfOk};
ghost use Rattle.std.specs.Result.{OnOk};
ghost use Rattle.fs_stores.specs.Values.{content_of};
ghost use Rattle.fs_stores.specs.InputValues.{input_values, signatures_of, input_signatures};
ghost use Rattle.fs_runs.specs.Outcomes.{output_names, told_by, HoldsEach};
ghost use Rattle.fs_run_text.specs.ContentTexts.{PrintsAs};
ghost use Rattle.fs_run_text.specs.ItemTexts.{AreGiven, AreItems, AddsItems, input_names, item_text};

use crate::memory::NoMemory;
use crate::shown::{append, push, value_text};
use fs_ast::machine::Machine;
use fs_model::name::Name;
use fs_model::parts::VarInfo;
use fs_stores::inputs::Inputs;
use fs_stores::values::Value;
use std::alloc::Global;

// What the output of a name holds, of values in order of the machine's outputs. Takes no memory.
pub(crate) fn output_value<'a>(m: &Machine, outputs: &'a [Value], name: &Name) -> Option<&'a Value>
    ensures { option_map (λ v. content_of v.now) result ≡ told_by m.now outputs.now name.now }
{
    let mut rest = outputs;
    for variable in m.vars() {
        if variable.role.is_output() {
            let [value, others @ ..] = rest else {
                return None;
            };
            if variable.name == *name {
                return Some(value);
            }
            rest = others;
        }
    }
    None
}

// The name of an input or output and what it holds.
fn item(alloc: Global, name: &Name, value: &Value) -> Result<Vec<u8>, NoMemory>
    ensures { IfOk result
        (λ item. (text : List ℕ) × PrintsAs (content_of value.now) text × (item.items ≡ item_text name.now text)) }
{
    let mut item = copy_bytes(alloc, name.bytes())?;
    append(&mut item, b" = ".as_slice())?;
    append(&mut item, value_text(alloc, value)?.as_slice())?;
    Ok(item)
}

fn copy_bytes(alloc: Global, bytes: &[u8]) -> Result<Vec<u8>, NoMemory>
    ensures { IfOk result (λ own. own.items ≡ bytes.now) }
{
    match bytes.to_vec(alloc) {
        Ok(own) => Ok(own),
        Err(_) => Err(NoMemory),
    }
}

// The outputs of a machine, named in the order of another's outputs.
pub(crate) fn items(
    alloc: Global,
    order: &Machine,
    m: &Machine,
    outputs: &[Value],
) -> Result<Vec<Vec<u8>>, NoMemory>
    requires { HoldsEach (told_by m.now outputs.now) (output_names order.now.variables) }
    ensures { IfOk result
        (λ items. AreItems (told_by m.now outputs.now) (output_names order.now.variables) (map (λ i. i.items) items.items)) }
{
    let mut items = Vec::new(alloc);
    for variable in order.vars() {
        add_item(alloc, &mut items, variable, m, outputs)?;
    }
    Ok(items)
}

// Adds what the output of a variable's name holds, where the variable is an output.
fn add_item(
    alloc: Global,
    items: &mut Vec<Vec<u8>>,
    variable: &VarInfo,
    m: &Machine,
    outputs: &[Value],
) -> Result<(), NoMemory>
    requires { HoldsEach (told_by m.now outputs.now) (output_names (variable.now ∷ [])) }
    ensures { OnOk result
        (AddsItems (told_by m.now outputs.now) (output_names (variable.now ∷ [])) (map (λ i. i.items) items.old.items)
        (map (λ i. i.items) items.new.items)) }
{
    if !variable.role.is_output() {
        return Ok(());
    }
    match output_value(m, outputs, &variable.name) {
        Some(value) => push(items, item(alloc, &variable.name, value)?),
        None => Ok(()),
    }
}

// The inputs of a machine, each with what it is given.
pub(crate) fn input_items(
    alloc: Global,
    m: &Machine,
    inputs: &Inputs,
) -> Result<Vec<Vec<u8>>, NoMemory>
    requires { signatures_of inputs.now ≡ input_signatures m.now.variables }
    ensures { IfOk result
        (λ items. AreGiven (input_names m.now.variables) (map content_of (input_values inputs.now))
        (map (λ i. i.items) items.items)) }
{
    let mut items = Vec::new(alloc);
    let mut k: u32 = 0;
    for variable in m.vars() {
        if variable.role.is_input() {
            push(&mut items, item(alloc, &variable.name, inputs.get(k))?)?;
            k += 1;
        }
    }
    Ok(items)
}
