//! From the bytes of a file to the counts of units.

ghost use Rattle.std.specs.Prelude.{◌≡◌, Some, IfOk, IfErr, string_bytes};
ghost use Rattle.std.specs.Option.{option_map};
ghost use Rattle.serde_json.specs.View.{view, members_view};
ghost use Rattle.serde_json.specs.Find.{as_object};
ghost use Rattle.hls_unit_counts.specs.Counts.{units_in, is_kind, count_value_fault, fault_of_count, first_count_fault};
ghost use Rattle.hls_unit_counts.specs.Counts.{count_file_fault, count_of, counts_in};
ghost use Rattle.hls_unit_counts.specs.Refusals.{SpellsCounts, ValueSpellsCounts, IsRefusedAsCounts, IsOfCountFault};

use crate::faults::{Fault, UnitError};
use crate::units::Units;
use base_json_files::{JsonError, read_json};
use serde_json::{Map, Value};
use std::alloc::Global;

/// The greatest count, and that of a kind that is not named.
const MOST: u64 = 1_000_000;

// Whether a key is a kind of unit.
fn is_kind(key: &[u8]) -> bool
    ensures { result ≡ is_kind key.now }
{
    key == b"add".as_slice()
        || key == b"mul".as_slice()
        || key == b"div".as_slice()
        || key == b"mem".as_slice()
}

// What is wrong with a count.
fn value_fault(value: &Value) -> Option<Fault>
    ensures { result ≡ count_value_fault (view value.now) }
{
    match value.as_u64() {
        Some(count) if count <= MOST => None,
        _ => Some(Fault::Shape),
    }
}

// What is wrong with a key or its value.
fn fault_at(key: &String, value: &Value) -> Option<Fault>
    ensures { result ≡ fault_of_count (string_bytes key.now) (view value.now) }
{
    if is_kind(key.as_bytes()) {
        value_fault(value)
    } else {
        Some(Fault::Unknown)
    }
}

// The first key with a fault, in the order of the members.
fn first_fault<'a>(members: &'a Map<String, Value>) -> Option<(&'a String, Fault)>
    ensures { option_map (λ p. (string_bytes p.0.now, p.1)) result ≡ first_count_fault (members_view members.now.entries) }
{
    for (key, value) in members.iter() {
        if let Some(fault) = fault_at(key, value) {
            return Some((key, fault));
        }
    }
    None
}

// The refusal for a fault at a key.
fn refusal(name: String, fault: Fault) -> UnitError
    ensures { IsOfCountFault (Some (string_bytes name, fault)) result }
{
    match fault {
        Fault::Shape => UnitError::Shape { name },
        Fault::Unknown => UnitError::UnknownName { name },
    }
}

// The count that a value gives, and the greatest one where there is no value or it gives none.
fn count_of(value: Option<&Value>) -> u32
    ensures { result ≡ count_of (option_map (λ v. view v.now) value.entry) }
{
    match value.and_then(Value::as_u64) {
        Some(count) if count <= MOST => count as u32,
        _ => MOST as u32,
    }
}

// The counts that an object gives.
fn counts_in(value: &Value) -> Units
    ensures { units_in result ≡ counts_in (view value.now) }
{
    Units {
        add: count_of(value.get("add")),
        mul: count_of(value.get("mul")),
        div: count_of(value.get("div")),
        mem: count_of(value.get("mem")),
    }
}

// The counts that a JSON value spells.
fn read_object(alloc: Global, value: &Value) -> Result<Units, UnitError>
    ensures spelled { IfOk result (λ units. ValueSpellsCounts (view value.now) (units_in units)) }
    ensures refused { IfErr result (λ e. IsOfCountFault (count_file_fault (as_object (view value.now))) e) }
{
    let Some(members) = value.as_object() else {
        return Err(UnitError::Shape {
            name: String::new(alloc),
        });
    };
    if let Some((name, fault)) = first_fault(members) {
        return Err(refusal(name.clone()?, fault));
    }
    Ok(counts_in(value))
}

/// Reads a file of unit counts, in time linear in the file.
///
/// `NotJson` comes exactly when the bytes are not UTF-8 text, or are not JSON as `serde_json` reads it. Else
/// `Shape` with the empty name comes where the file is no object. Else the keys are looked at in the order of
/// their bytes, and the first that has a fault is refused: with `UnknownName` where it is no kind of unit, with
/// `Shape` where its value is no whole number from 0 to 1,000,000. Of equal keys the last counts. `NoMemory`
/// may come at any time.
pub fn read_units(alloc: Global, bytes: &[u8]) -> Result<Units, UnitError>
    ensures spelled { IfOk result (λ units. SpellsCounts bytes.now (units_in units)) }
    ensures refused { IfErr result (λ e. IsRefusedAsCounts bytes.now e) }
{
    let value = match read_json(alloc, bytes) {
        Ok(value) => value,
        Err(JsonError::NotJson) => return Err(UnitError::NotJson),
        Err(JsonError::NoMemory) => return Err(UnitError::NoMemory),
    };
    read_object(alloc, &value)
}
