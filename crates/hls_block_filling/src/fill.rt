//! Which item is placed next.

ghost use Rattle.std.specs.Prelude.{◌≡◌, ◌<◌, ℕ, suc, cond, true, None, length, slice_get};
ghost use Rattle.hls_block_filling.specs.Filling.{may_stand, higher_of, next_item, place_item, more_units, row_filled};
ghost use Rattle.hls_block_filling.specs.ItemUnits.{suffice, none_used};
ghost use Rattle.hls_block_filling.specs.ItemUnits.{units_in};
ghost use Rattle.hls_block_filling.specs.Profiles.{units_of_uses, profile_units, graph_in};
ghost use Rattle.hls_block_filling.specs.WaitingItems.{rows_in, AreReady, IsBelow, AreWaiting, AreLow};

use crate::effects::Edge;
use crate::profiles::Profile;
use crate::uses::{Uses, suffice};
use crate::waits::release;
use hls_unit_counts::Units;

// Whether an item may be placed in a row.
fn may_stand(
    table: &[Profile],
    rows: &[Option<u32>],
    waits: &[u32],
    units: &Units,
    used: &Uses,
    row: u32,
    j: usize,
) -> bool
    requires rows { length rows.now ≡ length table.now }
    requires waits { length waits.now ≡ length table.now }
    requires ready { AreReady (graph_in table.now) (rows_in rows.now) row waits.now }
    requires in_range { j < length table.now }
    ensures { result ≡ may_stand (graph_in table.now) (units_in units.now) (rows_in rows.now) row (units_of_uses used.now) j }
{
    rows[j].is_none() && waits[j] == 0 && suffice(units, used, &table[j].uses)
}

// Of an item and the best before it, the one that is higher, at a tie the one before.
fn higher_of(table: &[Profile], j: usize, best: Option<usize>) -> usize
    requires in_range { j < length table.now }
    requires best { IsBelow (length table.now) best }
    ensures higher { result ≡ higher_of (graph_in table.now).height j best }
    ensures in_range { result < length table.now }
{
    match best {
        None => j,
        Some(k) => {
            if table[k].height < table[j].height {
                j
            } else {
                k
            }
        }
    }
}

// The item that is placed next in a row: of those that may stand the one of greatest height, at a tie the first.
fn next_item(
    table: &[Profile],
    rows: &[Option<u32>],
    waits: &[u32],
    units: &Units,
    used: &Uses,
    row: u32,
) -> Option<usize>
    requires rows { length rows.now ≡ length table.now }
    requires waits { length waits.now ≡ length table.now }
    requires ready { AreReady (graph_in table.now) (rows_in rows.now) row waits.now }
    ensures next { result ≡ next_item (graph_in table.now) (units_in units.now) (rows_in rows.now) row (units_of_uses used.now) }
    ensures in_range { IsBelow (length table.now) result }
{
    let mut best: Option<usize> = None;
    for j in 0..table.len() {
        if may_stand(table, rows, waits, units, used, row, j) {
            best = Some(higher_of(table, j, best));
        }
    }
    best
}

// The units that an item uses.
fn uses_of(table: &[Profile], k: usize) -> Uses
    requires { k < length table.now }
    ensures { units_of_uses result ≡ profile_units (slice_get table.now k) }
{
    table[k].uses
}

// What is used and more.
fn add_uses(units: Units, used: &Uses, extra: Uses) -> Uses
    requires { suffice (units_in units) (units_of_uses used.now) (units_of_uses extra) ≡ true }
    ensures { units_of_uses result ≡ more_units (units_of_uses used.now) (units_of_uses extra) }
{
    Uses {
        add: used.add + extra.add,
        mul: used.mul + extra.mul,
        div: used.div + extra.div,
        mem: used.mem + extra.mem,
    }
}

// An item is placed in a row, the one that comes next.
fn place(table: &[Profile], rows: &mut [Option<u32>], waits: &mut [u32], row: u32, k: usize)
    requires rows { length rows.now ≡ length table.now }
    requires waits { length waits.now ≡ length table.now }
    requires in_range { k < length table.now }
    requires waiting { AreWaiting (graph_in table.now) (rows_in rows.now) row waits.now }
    requires free { rows_in rows.now k ≡ None }
    ensures rows { rows_in rows.new ≡ place_item (rows_in rows.old) k row }
    ensures waiting { AreWaiting (graph_in table.now) (rows_in rows.new) row waits.new }
    ensures row_count { length rows.new ≡ length table.now }
    ensures wait_count { length waits.new ≡ length table.now }
{
    rows[k] = Some(row);
    release(table, waits, Edge::Weak, k);
}

// The next item is placed in a row, where there is one.
fn fill_one(
    table: &[Profile],
    rows: &mut [Option<u32>],
    waits: &mut [u32],
    units: &Units,
    used: &mut Uses,
    row: u32,
) -> bool
    requires rows { length rows.now ≡ length table.now }
    requires waits { length waits.now ≡ length table.now }
    requires waiting { AreWaiting (graph_in table.now) (rows_in rows.now) row waits.now }
    ensures filled { (n : ℕ) → row_filled (graph_in table.now) (units_in units.now) (suc n) row (rows_in rows.old)
        (units_of_uses used.old) ≡ cond result
        (row_filled (graph_in table.now) (units_in units.now) n row (rows_in rows.new) (units_of_uses used.new))
        (rows_in rows.new) }
    ensures low { AreLow (graph_in table.now) (rows_in rows.old) row → AreLow (graph_in table.now) (rows_in rows.new) row }
    ensures waiting { AreWaiting (graph_in table.now) (rows_in rows.new) row waits.new }
    ensures row_count { length rows.new ≡ length table.now }
    ensures wait_count { length waits.new ≡ length table.now }
{
    match next_item(table, rows, waits, units, used, row) {
        None => false,
        Some(k) => {
            place(table, rows, waits, row, k);
            *used = add_uses(*units, used, uses_of(table, k));
            true
        }
    }
}

/// A row is filled.
pub fn fill_row(
    table: &[Profile],
    rows: &mut [Option<u32>],
    waits: &mut [u32],
    units: &Units,
    row: u32,
)
    requires rows { length rows.now ≡ length table.now }
    requires waits { length waits.now ≡ length table.now }
    requires waiting { AreWaiting (graph_in table.now) (rows_in rows.now) row waits.now }
    ensures filled { rows_in rows.new ≡ row_filled (graph_in table.now) (units_in units.now)
        (length table.now) row (rows_in rows.old) none_used }
    ensures low { AreLow (graph_in table.now) (rows_in rows.old) row → AreLow (graph_in table.now) (rows_in rows.new) row }
    ensures row_count { length rows.new ≡ length table.now }
    ensures wait_count { length waits.new ≡ length table.now }
    ensures waiting { AreWaiting (graph_in table.now) (rows_in rows.new) row waits.new }
{
    let mut used = Uses {
        add: 0,
        mul: 0,
        div: 0,
        mem: 0,
    };
    for i in 0..table.len() {
        if !fill_one(table, rows, waits, units, &mut used, row) {
            return;
        }
    }
}
