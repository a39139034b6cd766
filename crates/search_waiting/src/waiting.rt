//! The items that wait, the least of which comes next.

ghost use Rattle.std.specs.Prelude.{◌≡◌, ◌+◌, ◌≤◌, ◌<◌, true, false, IfNone, IfSome, OnOk};
ghost use Rattle.std.specs.BTreeSet.{btree_set_len};
ghost use Rattle.search_waiting.specs.declared.item.Item.{Item as PlainItem};
ghost use Rattle.search_waiting.specs.ItemOrder.{waits, IsLeastWaiting, Adds, AddsMoves, AddsAll, Drops};

use crate::item::Item;
use nf_terms::stop::NoMemory;
use std::collections::BTreeSet;

/// The least item that waits, by node and then by place.
pub fn least(waiting: &BTreeSet<Item>) -> Option<Item>
    ensures none { IfNone result ((y : PlainItem) → waits waiting.now y ≡ false) }
    ensures waits { IfSome result (λ y. waits waiting.now y ≡ true) }
    ensures least { IfSome result (λ y. IsLeastWaiting (waits waiting.now) y.node y.place) }
{
    match waiting.first() {
        Some(item) => Some(*item),
        None => None,
    }
}

/// One item more waits. The one refusal is out of memory.
pub fn add(waiting: &mut BTreeSet<Item>, item: Item) -> Result<(), NoMemory>
    ensures added { OnOk result (Adds (waits waiting.old) (waits waiting.new) item) }
    ensures many { OnOk result (btree_set_len waiting.new ≤ btree_set_len waiting.old + 1) }
{
    waiting.insert(item)?;
    Ok(())
}

/// The first moves of a node wait too. The one refusal is out of memory.
pub fn add_moves(waiting: &mut BTreeSet<Item>, node: u32, count: u32) -> Result<(), NoMemory>
    requires { count < 4294967295 }
    ensures added { OnOk result (AddsMoves (waits waiting.old) (waits waiting.new) node count) }
    ensures many { OnOk result (btree_set_len waiting.new ≤ btree_set_len waiting.old + count) }
{
    for number in 0..count {
        add(
            waiting,
            Item {
                node,
                place: number + 1,
            },
        )?;
    }
    Ok(())
}

/// These items wait too. The one refusal is out of memory.
pub fn add_all(waiting: &mut BTreeSet<Item>, items: &[Item]) -> Result<(), NoMemory>
    ensures { OnOk result (AddsAll (waits waiting.old) (waits waiting.new) items.now) }
{
    for item in items {
        add(waiting, *item)?;
    }
    Ok(())
}

/// An item that waits no longer does.
pub fn remove(waiting: &mut BTreeSet<Item>, item: Item)
    requires { waits waiting.old item ≡ true }
    ensures dropped { Drops (waits waiting.old) (waits waiting.new) item }
    ensures fewer { btree_set_len waiting.new < btree_set_len waiting.old }
{
    waiting.remove(&item);
}
