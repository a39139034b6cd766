//! The form of a certificate.

ghost use Rattle.std.specs.Prelude.{◌≡◌, option_map, option_and_then};
ghost use Rattle.cert_values.specs.View.{view, items_view, members_view};
ghost use Rattle.serde_json.specs.Find.{as_array, as_object, as_str};
ghost use Rattle.cert_values.specs.Shape.{has_members, is_text, are_texts, name_texts, is_list_of_texts, is_map_of_texts};
ghost use Rattle.cert_values.specs.Shape.{is_mode, is_within, whole_number_in, is_node, are_nodes, is_list_of_nodes, is_format};
ghost use Rattle.cert_values.specs.Shape.{is_file, is_mode_name, has_more, some_has_many, some_of_file_has_many, has_too_many};

use crate::value::Value;
use serde_json::Map;

#[tactic(auto, using(crate::proofs::Counts::counts))]
fn has(value: &Value<'_>, n: usize) -> bool
    ensures { result ≡ has_members n (view value.now) }
{
    match value.as_object() {
        Some(members) => members.len() == n,
        None => n == 0,
    }
}

fn are_texts(items: &Vec<Value<'_>>) -> bool
    ensures { result ≡ are_texts (items_view items.now.items) }
{
    for item in items {
        if !item.is_string() {
            return false;
        }
    }
    true
}

// Whether each member is a text.
fn name_texts(members: &Map<&str, Value<'_>>) -> bool
    ensures { result ≡ name_texts (members_view members.now.entries) }
{
    for (_name, value) in members.iter() {
        if !value.is_string() {
            return false;
        }
    }
    true
}

fn is_list_of_texts(value: Option<&Value<'_>>) -> bool
    ensures { result ≡ is_list_of_texts (option_and_then as_array (option_map (λ v. view v.now) value.entry)) }
{
    match value {
        Some(value) => match value.as_array() {
            Some(items) => are_texts(items),
            None => false,
        },
        None => false,
    }
}

fn is_map_of_texts(value: Option<&Value<'_>>) -> bool
    ensures { result ≡ is_map_of_texts (option_and_then as_object (option_map (λ v. view v.now) value.entry)) }
{
    match value {
        Some(value) => match value.as_object() {
            Some(members) => name_texts(members),
            None => false,
        },
        None => false,
    }
}

fn is_text(value: Option<&Value<'_>>) -> bool
    ensures { result ≡ is_text (option_map (λ v. view v.now) value.entry) }
{
    match value {
        Some(value) => value.is_string(),
        None => false,
    }
}

fn is_mode_name(text: &str) -> bool
    ensures { result ≡ is_mode_name text.now }
{
    text == "both" || text == "left" || text == "right" || text == "end"
}

fn is_mode(value: Option<&Value<'_>>) -> bool
    ensures { result ≡ is_mode (option_and_then as_str (option_map (λ v. view v.now) value.entry)) }
{
    match value {
        Some(value) => match value.as_str() {
            Some(text) => is_mode_name(text),
            None => false,
        },
        None => false,
    }
}

fn is_rank(value: Option<&Value<'_>>) -> bool
    ensures { result ≡ is_within 4096 (whole_number_in (option_map (λ v. view v.now) value.entry)) }
{
    match value {
        Some(value) => match value.as_u64() {
            Some(rank) => rank <= 4096,
            None => false,
        },
        None => false,
    }
}

/// Whether a value has the form of a node.
pub fn is_node(value: &Value<'_>) -> bool
    ensures { result ≡ is_node (view value.now) }
{
    has(value, 6)
        && is_list_of_texts(value.get("conds"))
        && is_map_of_texts(value.get("equations"))
        && is_text(value.get("left"))
        && is_mode(value.get("mode"))
        && is_rank(value.get("rank"))
        && is_text(value.get("right"))
}

fn are_nodes(items: &Vec<Value<'_>>) -> bool
    ensures { result ≡ are_nodes (items_view items.now.items) }
{
    for item in items {
        if !is_node(item) {
            return false;
        }
    }
    true
}

fn is_list_of_nodes(value: Option<&Value<'_>>) -> bool
    ensures { result ≡ is_list_of_nodes (option_and_then as_array (option_map (λ v. view v.now) value.entry)) }
{
    match value {
        Some(value) => match value.as_array() {
            Some(items) => are_nodes(items),
            None => false,
        },
        None => false,
    }
}

fn is_format(value: Option<&Value<'_>>) -> bool
    ensures { result ≡ is_format (whole_number_in (option_map (λ v. view v.now) value.entry)) }
{
    match value {
        Some(value) => match value.as_u64() {
            Some(n) => n == 1 || n == 2 || n == 4,
            None => false,
        },
        None => false,
    }
}

/// Whether a value has the form of a certificate.
pub fn is_file(value: &Value<'_>) -> bool
    ensures { result ≡ is_file (view value.now) }
{
    has(value, 2) && is_format(value.get("format")) && is_list_of_nodes(value.get("nodes"))
}

#[tactic(auto, using(crate::proofs::Counts::item_count))]
fn has_more(value: Option<&Value<'_>>, limit: usize) -> bool
    ensures { result ≡ has_more limit (option_and_then as_array (option_map (λ v. view v.now) value.entry)) }
{
    match value {
        Some(value) => match value.as_array() {
            Some(items) => items.len() > limit,
            None => false,
        },
        None => false,
    }
}

fn some_has_many(items: &Vec<Value<'_>>) -> bool
    ensures { result ≡ some_has_many (items_view items.now.items) }
{
    for item in items {
        if has_more(item.get("conds"), 64) {
            return true;
        }
    }
    false
}

fn some_of_file_has_many(value: Option<&Value<'_>>) -> bool
    ensures { result ≡ some_of_file_has_many (option_and_then as_array (option_map (λ v. view v.now) value.entry)) }
{
    match value {
        Some(value) => match value.as_array() {
            Some(items) => some_has_many(items),
            None => false,
        },
        None => false,
    }
}

/// Whether a file has more than 4,096 nodes, or a node with more than 64 conditions.
pub fn has_too_many(value: &Value<'_>) -> bool
    ensures { result ≡ has_too_many (view value.now) }
{
    has_more(value.get("nodes"), 4096) || some_of_file_has_many(value.get("nodes"))
}
