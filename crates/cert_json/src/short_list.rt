//! Lists of which is kept what a certificate may have.

ghost use Rattle.std.specs.Prelude.{◌≡◌, ◌&&◌, false, is_some, IsTrue, OnOk};
ghost use Rattle.std.specs.Result.{result_map_both};
ghost use Rattle.serde_json.specs.Data.{Items, no_items};
ghost use Rattle.serde_json.specs.Find.{as_str};
ghost use Rattle.cert_values.specs.View.{view, items_view};
ghost use Rattle.cert_values.specs.Shape.{is_node as is_node_in, are_texts};
ghost use Rattle.cert_json.specs.Trim.{short_list};
ghost use Rattle.cert_json.specs.Lists.{IsShort, join_items, add_item, add_below, most_items, kept_items, final_list, list_of};

use cert_values::shape::is_node;
use cert_values::value::Value;
use std::alloc::{AllocError, Global};

/// What is kept of a list.
#[derive(Drop)]
pub struct ShortList<'a> {
    /// The first of its items.
    pub items: Vec<Value<'a>>,
    /// Whether each item is a text.
    pub all_texts: bool,
    /// Whether each item is a node.
    pub all_nodes: bool,
}

/// A list of no items.
pub fn empty_list<'a>(alloc: Global) -> ShortList<'a>
    ensures { IsShort no_items result }
{
    ShortList {
        items: Vec::new(alloc),
        all_texts: true,
        all_nodes: true,
    }
}

// Notes what an item is.
fn note_item(list: &mut ShortList<'_>, value: &Value<'_>)
    ensures texts { list.new.all_texts ≡ (list.old.all_texts && is_some (as_str (view value.now))) }
    ensures nodes { list.new.all_nodes ≡ (list.old.all_nodes && is_node_in (view value.now)) }
    ensures items { list.new.items ≡ list.old.items }
{
    list.all_texts = list.all_texts && value.is_string();
    list.all_nodes = list.all_nodes && is_node(value);
}

// How many items are kept of a list. Where it is neither one of texts nor one of nodes none is, and those that were kept go.
fn most_kept(list: &mut ShortList<'_>) -> usize
    ensures most { result ≡ most_items list.old.all_texts list.old.all_nodes }
    ensures texts { list.new.all_texts ≡ list.old.all_texts }
    ensures nodes { list.new.all_nodes ≡ list.old.all_nodes }
    ensures items { items_view list.new.items.items
        ≡ kept_items list.old.all_texts list.old.all_nodes (items_view list.old.items.items) }
{
    if list.all_texts {
        return 65;
    }
    if list.all_nodes {
        return 4097;
    }
    list.items.clear();
    0
}

// Adds an item to fewer than so many.
fn push_below<'a>(
    items: &mut Vec<Value<'a>>,
    value: Value<'a>,
    most: usize,
) -> Result<(), AllocError>
    ensures { OnOk result (items_view items.new.items ≡ add_below most (items_view items.old.items) (view value.entry)) }
{
    if items.len() < most {
        items.push(value)?;
    }
    Ok(())
}

/// Adds an item. The one refusal is out of memory.
pub fn add_to_list<'a>(list: &mut ShortList<'a>, value: Value<'a>) -> Result<(), AllocError>
    ensures { OnOk result ((ds : Items) → IsShort ds list.old → IsShort (add_item ds (view value.entry)) list.new) }
{
    note_item(list, &value);
    let most = most_kept(list);
    push_below(&mut list.items, value, most)
}

/// Whether what follows changes nothing of what is kept, but that it may not all be texts.
pub fn is_settled(list: &ShortList<'_>) -> bool
    ensures { IsTrue result
        → (ds rest : Items)
        → IsShort ds list.now → final_list list.now (are_texts rest) ≡ short_list (join_items ds rest) }
{
    if list.all_texts {
        list.items.len() >= 65
    } else {
        !list.all_nodes
    }
}

/// Notes whether all that follows in a settled list are texts.
pub fn settle(list: &mut ShortList<'_>, texts: bool)
    ensures texts { list.new.all_texts ≡ (list.old.all_texts && texts) }
    ensures nodes { list.new.all_nodes ≡ false }
    ensures items { list.new.items ≡ list.old.items }
{
    list.all_texts = list.all_texts && texts;
    list.all_nodes = false;
}

// The list of what was kept, or null where it is neither one of texts nor one of nodes.
fn value_of_items<'a>(list: ShortList<'a>) -> Value<'a>
    ensures { view result ≡ list_of list.entry }
{
    if list.all_texts || list.all_nodes {
        Value::Array(list.items)
    } else {
        Value::Null
    }
}

/// The list of what was kept, or null where it is neither one of texts nor one of nodes. A refusal is handed on.
pub fn value_of_list<'a, E: Drop>(
    list: ShortList<'a>,
    outcome: Result<(), E>,
) -> Result<Value<'a>, E>
    ensures { result_map_both view (λ e. e) result ≡ result_map_both (λ u. list_of list.entry) (λ e. e) outcome }
{
    match outcome {
        Ok(_) => Ok(value_of_items(list)),
        Err(refusal) => Err(refusal),
    }
}
