//! Inputs of machines, and the store in which a run begins.

ghost use Rattle.std.specs.Prelude.{◌≡◌, ◌<◌, ◌++◌, ◌∷◌, [], true, length, map, slice_get, slice_set, IfOk, Some};
ghost use Rattle.std.specs.Option.{option_map, option_copied};
ghost use Rattle.std.specs.Result.{OnOk, OnErr};
ghost use Rattle.fs_model.specs.Runs.{is_input, start};
ghost use Rattle.fs_stores.specs.Values.{sort_of, content_of, store_of, IsStoreOf};
ghost use Rattle.fs_stores.specs.InputValues.{value_named, input_values, inputs_of, signatures_of, input_signatures, sort_named};
ghost use Rattle.fs_stores.specs.InputValues.{Serves, all_zero, first_content, is_given, signature, AllZero};

use crate::memory::NoMemory;
use crate::store::Store;
use crate::values::Value;
use fs_ast::machine::Machine;
use fs_model::name::Name;
use fs_model::parts::{Sort, VarInfo};
use std::alloc::Global;

/// The value of an input.
#[derive(Drop)]
pub struct Input {
    name: Name,
    value: Value,
}

/// A value for each input of the machine for which they were made, by name and sort.
#[derive(Drop)]
pub struct Inputs {
    items: Vec<Input>,
}

impl Inputs {
    /// A value for each input of a machine: 0, or 0 at each index. The one refusal is out of memory.
    pub fn zero(alloc: Global, m: &Machine) -> Result<Inputs, NoMemory>
        ensures signatures { IfOk result (λ ins. signatures_of ins ≡ input_signatures m.now.variables) }
        ensures serves { IfOk result (λ ins. Serves (signatures_of ins) m.now) }
        ensures zero { IfOk result (λ ins. inputs_of ins ≡ all_zero) }
    {
        let mut items = Vec::new(alloc);
        for var in m.vars() {
            add_input(alloc, &mut items, var)?;
        }
        Ok(Inputs { items })
    }

    /// Gives the input of a number, counted in order of declaration from 0, a value of its sort. The one refusal is out of
    /// memory.
    pub fn set(&mut self, _alloc: Global, k: u32, value: Value) -> Result<(), NoMemory>
        requires { option_map (λ f. f.1) (slice_get (signatures_of self.old) k) ≡ Some (sort_of value) }
        ensures values { OnOk result (input_values self.new ≡ slice_set (input_values self.old) k value) }
        ensures signatures { signatures_of self.new ≡ signatures_of self.old }
        ensures unchanged { OnErr result (input_values self.new ≡ input_values self.old) }
    {
        self.items[k as usize].value = value;
        Ok(())
    }

    /// Inputs of the same names, sorts and values. The only refusal is out of memory.
    pub fn try_clone(&self, alloc: Global) -> Result<Inputs, NoMemory>
        ensures signatures { IfOk result (λ ins. signatures_of ins ≡ signatures_of self.now) }
        ensures contents { IfOk result (λ ins. map content_of (input_values ins) ≡ map content_of (input_values self.now)) }
    {
        let items = copy_items(alloc, &self.items)?;
        Ok(Inputs { items })
    }

    /// The sort of the input of a number, and none where there are not so many. Takes no memory.
    pub fn sort(&self, k: u32) -> Option<Sort>
        ensures { result ≡ option_map (λ f. f.1) (slice_get (signatures_of self.now) k) }
    {
        match self.items.get(k as usize) {
            Some(item) => Some(item.value.sort()),
            None => None,
        }
    }

    /// The value of the input of a number. Takes no memory.
    pub fn get(&self, k: u32) -> &Value
        requires { k < length (signatures_of self.now) }
        ensures { slice_get (input_values self.now) k ≡ Some result.now }
    {
        &self.items[k as usize].value
    }

    // The value of a name.
    fn value_named(&self, name: &Name) -> Option<&Value>
        ensures { option_copied result ≡ value_named self.now.items.items name.now }
    {
        for item in &self.items {
            if item.name == *name {
                return Some(&item.value);
            }
        }
        None
    }
}

// Copies of the values of inputs.
fn copy_items(alloc: Global, items: &[Input]) -> Result<Vec<Input>, NoMemory>
    ensures signatures { IfOk result (λ out. map signature out.items ≡ map signature items.now) }
    ensures contents { IfOk result
        (λ out. map content_of (map (λ i. i.value) out.items) ≡ map content_of (map (λ i. i.value) items.now)) }
{
    let mut out = Vec::new(alloc);
    for item in items {
        out.push(copy_input(alloc, item)?)?;
    }
    Ok(out)
}

fn copy_input(alloc: Global, item: &Input) -> Result<Input, NoMemory>
    ensures signature { IfOk result (λ copy. signature copy ≡ signature item.now) }
    ensures content { IfOk result (λ copy. content_of copy.value ≡ content_of item.now.value) }
{
    let name = item.name.try_clone(alloc)?;
    match item.value.try_clone() {
        Ok(value) => Ok(Input { name, value }),
        Err(refused) => Err(refused),
    }
}

// Whether a variable starts with what the inputs give.
fn is_given(var: &VarInfo) -> bool
    ensures { result ≡ is_given var.now }
{
    var.role.is_input() && !var.sort.is_port()
}

// Adds a value of 0 for a variable that is an input.
fn add_input(alloc: Global, items: &mut Vec<Input>, var: &VarInfo) -> Result<(), NoMemory>
    requires { AllZero items.old.items }
    ensures signatures { OnOk result
        (map signature items.new.items ≡ map signature items.old.items ++ input_signatures (var.now ∷ [])) }
    ensures zero { OnOk result (AllZero items.new.items) }
{
    if !var.role.is_input() {
        return Ok(());
    }
    let input = Input {
        name: var.name.try_clone(alloc)?,
        value: Value::zero(alloc, var.sort),
    };
    items.push(input)?;
    Ok(())
}

/// The store in which a run starts: the inputs as given, every other scalar 0, every other array 0 at
/// each index, and every port the empty list. The one refusal is out of memory.
pub fn start(alloc: Global, m: &Machine, inputs: &Inputs) -> Result<Store, NoMemory>
    requires { Serves (signatures_of inputs.now) m.now }
    ensures start { IfOk result (λ s. store_of s ≡ start m.now (inputs_of inputs.now)) }
    ensures sorts { IfOk result (λ s. IsStoreOf m.now s) }
{
    let mut values = Vec::new(alloc);
    for var in m.vars() {
        values.push(first_value(alloc, var, inputs)?)?;
    }
    Ok(Store { values })
}

// What a variable holds as a run starts.
fn first_value(alloc: Global, var: &VarInfo, inputs: &Inputs) -> Result<Value, NoMemory>
    requires { is_input var.now.role ≡ true → sort_named (signatures_of inputs.now) var.now.name ≡ Some var.now.sort }
    ensures content { IfOk result (λ v. content_of v ≡ first_content (inputs_of inputs.now) var.now) }
    ensures sort { IfOk result (λ v. sort_of v ≡ var.now.sort) }
{
    if !is_given(var) {
        return Ok(Value::zero(alloc, var.sort));
    }
    match inputs.value_named(&var.name) {
        Some(value) => Ok(value.try_clone()?),
        None => unreachable!(),
    }
}
