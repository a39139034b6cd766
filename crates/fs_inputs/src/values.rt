//! Values of inputs as JSON spells them.

ghost use Rattle.std.specs.Prelude.{◌≡◌, ◌&&◌, true, None, ℤ, IfOk, OnOk, string_bytes, is_some};
ghost use Rattle.serde_json.specs.View.{view, members_view, number_view};
ghost use Rattle.serde_json.specs.Find.{as_integer, as_object};
ghost use Rattle.fs_stores.specs.Values.{entry_number, sort_of};
ghost use Rattle.fs_model.specs.declared.parts.Sort.TheVariants.{Array};
ghost use Rattle.fs_inputs.specs.Numbers.{number_in, number_reading};
ghost use Rattle.fs_inputs.specs.InputMembers.{whole_number_of, are_numbers, fits_if_any, all_fit, input_value_fault};
ghost use Rattle.fs_inputs.specs.InputMembers.{number_fault, array_fault, input_number_or_zero, last_member_value, spells};
ghost use Rattle.fs_inputs.specs.Steps.{HoldsValue, PutsEntry, reads_number};

use crate::faults::Fault;
use crate::numbers::{Reading, read_number};
use fs_model::parts::Sort;
use fs_stores::memory::NoMemory;
use fs_stores::values::{Entries, Value as Held};
use serde_json::{Map, Number, Value};
use std::alloc::Global;

fn read_whole(number: &Number) -> Reading
    ensures { result ≡ number_reading (as_integer (number_view number.now)) }
{
    match number.as_i128() {
        Some(n) => Reading::Number(n),
        None => Reading::NoNumber,
    }
}

// The number that a value spells.
fn read_value(value: &Value) -> Reading
    ensures { result ≡ number_reading (whole_number_of (view value.now)) }
{
    if let Some(number) = value.as_number() {
        return read_whole(number);
    }
    match value.as_str() {
        Some(text) => read_number(text.as_bytes()),
        None => Reading::NoNumber,
    }
}

// What is wrong with a scalar's value.
fn scalar_fault(value: &Value) -> Option<Fault>
    ensures { result ≡ number_fault (whole_number_of (view value.now)) }
{
    match read_value(value) {
        Reading::Number(_) => None,
        Reading::TooBig => Some(Fault::TooBig),
        Reading::NoNumber => Some(Fault::Shape),
    }
}

// Whether a name and its value spell numbers.
#[tactic(auto, using(crate::proofs::Readings::reads_any))]
fn is_entry(name: &String, value: &Value) -> bool
    ensures { result ≡ (is_some (number_in (string_bytes name.now)) && is_some (whole_number_of (view value.now))) }
{
    read_number(name.as_bytes()).is_any() && read_value(value).is_any()
}

// Whether each name and each value spells a number.
fn are_numbers(members: &Map<String, Value>) -> bool
    ensures { result ≡ are_numbers (members_view members.now.entries) }
{
    for (name, value) in members.iter() {
        if !is_entry(name, value) {
            return false;
        }
    }
    true
}

// Whether neither a name nor its value spells a number outside 128 bits.
#[tactic(auto, using(crate::proofs::Readings::reads_within))]
fn fits(name: &String, value: &Value) -> bool
    ensures { result ≡ (fits_if_any (number_in (string_bytes name.now)) && fits_if_any (whole_number_of (view value.now))) }
{
    read_number(name.as_bytes()).is_within() && read_value(value).is_within()
}

// Whether no name and no value spells a number outside 128 bits.
fn all_fit(members: &Map<String, Value>) -> bool
    ensures { result ≡ all_fit (members_view members.now.entries) }
{
    for (name, value) in members.iter() {
        if !fits(name, value) {
            return false;
        }
    }
    true
}

// What is wrong with an array's value.
fn array_fault(value: &Value) -> Option<Fault>
    ensures { result ≡ array_fault (as_object (view value.now)) }
{
    let Some(members) = value.as_object() else {
        return Some(Fault::Shape);
    };
    if !are_numbers(members) {
        Some(Fault::Shape)
    } else if !all_fit(members) {
        Some(Fault::TooBig)
    } else {
        None
    }
}

/// What is wrong with the value of an input of a sort. A port is no input.
pub fn value_fault(sort: Sort, value: &Value) -> Option<Fault>
    ensures { result ≡ input_value_fault sort (view value.now) }
{
    match sort {
        Sort::Scalar => scalar_fault(value),
        Sort::Array => array_fault(value),
        Sort::Port => Some(Fault::Unknown),
    }
}

// Puts the number that a value spells at the index that its name spells.
fn put(entries: &mut Entries, name: &String, value: &Value) -> Result<(), NoMemory>
    requires index { reads_number (number_reading (number_in (string_bytes name.now))) ≡ true }
    requires number { reads_number (number_reading (whole_number_of (view value.now))) ≡ true }
    ensures { OnOk result (PutsEntry (string_bytes name.now) (view value.now) entries.old entries.new) }
{
    let i = read_number(name.as_bytes()).number();
    let v = read_value(value).number();
    entries.set(i, v)
}

// The entries that an object spells.
fn entries_of(alloc: Global, members: &Map<String, Value>) -> Result<Entries, NoMemory>
    requires numbers { are_numbers (members_view members.now.entries) ≡ true }
    requires size { all_fit (members_view members.now.entries) ≡ true }
    ensures { IfOk result
        (λ e. (i : ℤ) → entry_number e i ≡ input_number_or_zero
        (last_member_value (spells i) (members_view members.now.entries))) }
{
    let mut entries = Entries::new(alloc);
    for (name, value) in members.iter() {
        put(&mut entries, name, value)?;
    }
    Ok(entries)
}

fn array_value(alloc: Global, value: &Value) -> Result<Held, NoMemory>
    requires { array_fault (as_object (view value.now)) ≡ None }
    ensures holds { IfOk result (λ v. HoldsValue v (view value.now)) }
    ensures sort { IfOk result (λ v. sort_of v ≡ Array) }
{
    match value.as_object() {
        Some(members) => Ok(Held::Arr(entries_of(alloc, members)?)),
        None => unreachable!(),
    }
}

/// The value of an input of a sort.
pub fn value_for(alloc: Global, sort: Sort, value: &Value) -> Result<Held, NoMemory>
    requires { input_value_fault sort (view value.now) ≡ None }
    ensures holds { IfOk result (λ v. HoldsValue v (view value.now)) }
    ensures sort { IfOk result (λ v. sort_of v ≡ sort) }
{
    match sort {
        Sort::Scalar => Ok(Held::Num(read_value(value).number())),
        Sort::Array => array_value(alloc, value),
        Sort::Port => unreachable!(),
    }
}
