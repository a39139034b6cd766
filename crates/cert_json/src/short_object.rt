//! Objects of which is kept what a certificate may have.

ghost use Rattle.std.specs.Prelude.{◌≡◌, length, true, false, None, IsTrue, IfSome, OnOk, is_some};
ghost use Rattle.std.specs.Result.{result_map_both};
ghost use Rattle.serde_json.specs.Data.{Data, Members, put};
ghost use Rattle.serde_json.specs.Find.{as_str};
ghost use Rattle.cert_values.specs.View.{view, members_view};
ghost use Rattle.cert_json.specs.Trim.{exceeds, first_names, short_object};
ghost use Rattle.cert_json.specs.Objects.{IsEmpty, IsShortObject, TellsOthers, object_of};

use crate::level::Level;
use cert_values::value::Value;
use serde_json::Map;
use std::alloc::{AllocError, Global};
use std::cmp::Ordering;
use std::collections::BTreeSet;

/// What is kept of an object.
#[derive(Drop)]
pub struct ShortObject<'a> {
    /// The members that are kept.
    pub members: Map<&'a str, Value<'a>>,
    /// Where the first names are kept: names of which the last value is no text.
    pub others: BTreeSet<&'a str>,
    /// Whether such names were left out.
    pub is_partial: bool,
}

/// An object of no members.
#[tactic(auto, using(crate::proofs::ObjectLaws::none_added))]
pub fn empty_object<'a>(alloc: Global) -> ShortObject<'a>
    ensures { IsEmpty result }
{
    ShortObject {
        members: Map::new(alloc),
        others: BTreeSet::new(alloc),
        is_partial: false,
    }
}

// Puts a member in, over the value of its name where there is one.
#[inline(always)]
fn insert_member<'a>(
    found: &mut Map<&'a str, Value<'a>>,
    name: &'a str,
    member: Value<'a>,
) -> Result<(), AllocError>
    ensures { OnOk result (members_view found.new.entries ≡ put name.now (view member.entry) (members_view found.old.entries)) }
{
    drop(found.insert(name, member)?);
    Ok(())
}

// Whether a name comes behind all that are there, as most do in a file whose names ascend.
#[inline(always)]
fn is_last(found: &Map<&str, Value<'_>>, name: &str) -> bool {
    match found.last_key_value() {
        Some((last, _)) => name.cmp(*last) == Ordering::Greater,
        None => true,
    }
}

// Puts a member in, over the value of its name where there is one: a name that may be there is looked for, so that its value is
// written in place. The one refusal is out of memory.
#[inline(always)]
fn put_member<'a>(
    found: &mut Map<&'a str, Value<'a>>,
    name: &'a str,
    member: Value<'a>,
) -> Result<(), AllocError>
    ensures { OnOk result (members_view found.new.entries ≡ put name.now (view member.entry) (members_view found.old.entries)) }
{
    if is_last(found, name) {
        return insert_member(found, name, member);
    }
    match found.get_mut(name) {
        Some(place) => {
            *place = member;
            Ok(())
        }
        None => insert_member(found, name, member),
    }
}

// Whether a name comes behind as many as are kept.
#[inline(always)]
fn is_past(found: &Map<&str, Value<'_>>, name: &str) -> bool
    ensures { IsTrue result
        → (d : Data) → first_names (put name.now d (members_view found.now.entries))
        ≡ first_names (members_view found.now.entries) }
{
    if found.len() < 385 {
        return false;
    }
    match found.last_key_value() {
        Some((last, _)) => name.cmp(*last) == Ordering::Greater,
        None => false,
    }
}

// Takes out the members behind the first.
fn cut(found: &mut Map<&str, Value<'_>>)
    ensures { members_view found.new.entries ≡ first_names (members_view found.old.entries) }
{
    while found.len() > 385 {
        drop(found.pop_last());
    }
}

// Puts a member in, of which nothing is kept behind the first names. The one refusal is out of memory.
#[inline(always)]
fn put_first<'a>(
    found: &mut Map<&'a str, Value<'a>>,
    name: &'a str,
    member: Value<'a>,
) -> Result<(), AllocError>
    ensures { OnOk result (first_names (members_view found.new.entries)
        ≡ first_names (put name.now (view member.entry) (members_view found.old.entries))) }
{
    if is_past(found, name) {
        return Ok(());
    }
    let put = put_member(found, name, member);
    cut(found);
    put
}

// Notes whether the value of a name is a text: the name stays noted as long as it is none. Where not all such names are to be
// kept, as many are as there is room for. The one refusal is out of memory.
#[inline(always)]
fn note_value<'a>(
    object: &mut ShortObject<'a>,
    name: &'a str,
    is_text: bool,
    whole: bool,
) -> Result<(), AllocError>
    ensures others { OnOk result ((ms : Members) → (d : Data) → is_some (as_str d) ≡ is_text
        → TellsOthers ms object.old.others.keys object.old.is_partial
        → TellsOthers (put name.now d ms) object.new.others.keys object.new.is_partial) }
    ensures members { object.new.members ≡ object.old.members }
    ensures whole { whole ≡ true → object.old.is_partial ≡ false → object.new.is_partial ≡ false }
{
    if is_text {
        object.others.remove(name);
        return Ok(());
    }
    if !whole && object.others.len() >= 16 {
        object.is_partial = true;
        return Ok(());
    }
    object.others.insert(name)?;
    Ok(())
}

/// Puts a member in, over the value of its name where there is one. Where `whole` is said, no name is left out of what is noted
/// of values that are no texts. The one refusal is out of memory.
#[inline(always)]
pub fn add_member<'a>(
    object: &mut ShortObject<'a>,
    level: Level,
    name: &'a str,
    member: Value<'a>,
    whole: bool,
) -> Result<(), AllocError>
    ensures short { OnOk result ((ms : Members)
        → IsShortObject level ms object.old → IsShortObject level (put name.now (view member.entry) ms) object.new) }
    ensures whole { OnOk result (whole ≡ true → object.old.is_partial ≡ false → object.new.is_partial ≡ false) }
{
    if !level.keeps_first() {
        return put_member(&mut object.members, name, member);
    }
    let is_text = member.is_string();
    put_first(&mut object.members, name, member)?;
    note_value(object, name, is_text, whole)
}

/// Leaves the members of the value of what was kept, and tells whether that is null, as it is where the first names are kept and
/// are not all texts. None where names were left out, of which one might have a value that is no text.
pub fn close_object(object: &mut ShortObject<'_>, level: Level) -> Option<bool>
    ensures value { IfSome result (λ is_null. (ms : Members) → IsShortObject level ms object.old
        → exceeds level (length object.old.members.entries) ≡ false → object_of object.new is_null ≡ short_object level ms) }
    ensures none { result ≡ None → object.old.is_partial ≡ true }
{
    if !level.keeps_first() {
        return Some(false);
    }
    if !object.others.is_empty() {
        return Some(true);
    }
    if object.is_partial {
        return None;
    }
    cut(&mut object.members);
    Some(false)
}

/// The object of what was kept, or null. A refusal is handed on.
pub fn value_of_object<'a, E: Drop>(
    object: ShortObject<'a>,
    outcome: Result<bool, E>,
) -> Result<Value<'a>, E>
    ensures { result_map_both view (λ e. e) result ≡ result_map_both (object_of object.entry) (λ e. e) outcome }
{
    match outcome {
        Ok(is_null) => {
            if is_null {
                Ok(Value::Null)
            } else {
                Ok(Value::Object(object.members))
            }
        }
        Err(refusal) => Err(refusal),
    }
}
