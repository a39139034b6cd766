//! The parts of a certificate in its JSON.

ghost use Rattle.std.specs.Prelude.{◌≡◌, option_map, option_and_then};
ghost use Rattle.cert_values.specs.JsonTexts.{text_of as text_in};
ghost use Rattle.serde_json.specs.Data.{no_items as none};
ghost use Rattle.serde_json.specs.Find.{get, as_array, as_object};
ghost use Rattle.cert_values.specs.View.{view, items_view, members_view};
ghost use Rattle.cert_facts.specs.JsonParts.{text_at as text_under, json_number as number_under};
ghost use Rattle.cert_facts.specs.JsonParts.{items_or_none};

use cert_values::value::Value;
use serde_json::Map;
use std::alloc::Global;
use std::mem;

/// The text of a value, empty where it is none.
pub fn text_of<'a>(value: &Value<'a>) -> &'a str
    ensures { result.now ≡ text_in (view value.now) }
{
    match value.as_str() {
        Some(text) => text,
        None => "",
    }
}

/// The text that a value has under a name, empty where there is none.
pub fn text_at<'a>(value: &Value<'a>, key: &str) -> &'a str
    ensures { result.now ≡ text_under key.now (view value.now) }
{
    match value.get(key) {
        Some(value) => text_of(value),
        None => "",
    }
}

/// The whole number that a value has under a name, 0 where there is none.
pub fn number_at(value: &Value<'_>, key: &str) -> u64
    ensures { result ≡ number_under key.now (view value.now) }
{
    match value.get(key) {
        Some(value) => match value.as_u64() {
            Some(number) => number,
            None => 0,
        },
        None => 0,
    }
}

// No items.
fn no_items<'v, 'a>() -> &'v [Value<'a>]
    ensures { items_view result.now ≡ none }
{
    &[]
}

/// The items that a value has under a name.
pub fn items_at<'v, 'a>(value: &'v Value<'a>, key: &str) -> &'v [Value<'a>]
    ensures { items_view result.now ≡ items_or_none (option_and_then as_array (get key.now (view value.now))) }
{
    match value.get(key) {
        Some(value) => match value.as_array() {
            Some(items) => items.as_slice(),
            None => no_items(),
        },
        None => no_items(),
    }
}

// The items of a value, where it is a list.
fn items_of<'a>(alloc: Global, value: Option<Value<'a>>) -> Vec<Value<'a>>
    ensures { items_view result.items ≡ items_or_none (option_and_then as_array (option_map view value.entry)) }
{
    match value {
        Some(Value::Array(items)) => items,
        _ => Vec::new(alloc),
    }
}

/// The items that a value has under a name, taken out of it. Nothing is left of the value.
pub fn take_items<'a>(alloc: Global, value: &mut Value<'a>, key: &str) -> Vec<Value<'a>>
    ensures { items_view result.items ≡ items_or_none (option_and_then as_array (get key.now (view value.old))) }
{
    match mem::replace(value, Value::Null) {
        Value::Object(mut members) => items_of(alloc, members.remove(key)),
        _ => Vec::new(alloc),
    }
}

/// The members that a value has under a name.
pub fn members_at<'v, 'a>(value: &'v Value<'a>, key: &str) -> Option<&'v Map<&'a str, Value<'a>>>
    ensures { option_map (λ m. members_view m.now.entries) result ≡ option_and_then as_object (get key.now (view value.now)) }
{
    match value.get(key) {
        Some(value) => value.as_object(),
        None => None,
    }
}
