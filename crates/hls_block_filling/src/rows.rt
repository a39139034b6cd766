//! All rows, one after another.

ghost use Rattle.std.specs.Prelude.{◌≡◌, ◌≤◌, ℕ, suc, cond, true, length, IfOk};
ghost use Rattle.hls_block_filling.specs.Filling.{all_placed, filled_from, filling_of};
ghost use Rattle.hls_block_filling.specs.ItemUnits.{units_in};
ghost use Rattle.hls_block_filling.specs.Profiles.{graph_in};
ghost use Rattle.hls_block_filling.specs.WaitingItems.{rows_in, none_placed, AreWaiting, AreLow};

use crate::fill::fill_row;
use crate::profiles::Profile;
use crate::turn::turn_row;
use crate::waits::first_waits;
use fs_model::name::NoMemory;
use hls_unit_counts::Units;
use std::alloc::Global;

// Whether each item is placed.
fn all_placed(table: &[Profile], rows: &[Option<u32>]) -> bool
    requires rows { length rows.now ≡ length table.now }
    ensures { result ≡ all_placed (graph_in table.now) (rows_in rows.now) }
{
    for i in 0..rows.len() {
        if rows[i].is_none() {
            return false;
        }
    }
    true
}

// One more row is filled, where an item is not placed yet.
fn fill_next(
    table: &[Profile],
    rows: &mut [Option<u32>],
    waits: &mut [u32],
    units: &Units,
    row: u32,
) -> bool
    requires rows { length rows.now ≡ length table.now }
    requires waits { length waits.now ≡ length table.now }
    requires low { AreLow (graph_in table.now) (rows_in rows.now) row }
    requires waiting { AreWaiting (graph_in table.now) (rows_in rows.now) row waits.now }
    ensures filled { (n : ℕ) → filled_from (graph_in table.now) (units_in units.now) (suc n) row (rows_in rows.old)
        ≡ cond result (filled_from (graph_in table.now) (units_in units.now) n (suc row) (rows_in rows.new))
        (record { rows = rows_in rows.new; count = row }) }
    ensures waiting { result ≡ true → AreWaiting (graph_in table.now) (rows_in rows.new) (suc row) waits.new }
    ensures low { AreLow (graph_in table.now) (rows_in rows.new) row }
    ensures row_count { length rows.new ≡ length table.now }
    ensures wait_count { length waits.new ≡ length table.now }
{
    if all_placed(table, rows) {
        return false;
    }
    fill_row(table, rows, waits, units, row);
    turn_row(table, rows, waits, row);
    true
}

// All items are placed in rows. How many rows there are.
fn fill(table: &[Profile], rows: &mut [Option<u32>], waits: &mut [u32], units: &Units) -> u32
    requires few { length table.now ≤ 4096 }
    requires rows { length rows.now ≡ length table.now }
    requires waits { length waits.now ≡ length table.now }
    requires empty { rows_in rows.now ≡ none_placed }
    requires waiting { AreWaiting (graph_in table.now) (rows_in rows.now) 0 waits.now }
    ensures { record { rows = rows_in rows.new; count = result } ≡ filling_of (graph_in table.now) (units_in units.now) }
{
    for r in 0..table.len() {
        if !fill_next(table, rows, waits, units, r as u32) {
            return r as u32;
        }
    }
    table.len() as u32
}

/// The row of each item, from 0, and how many rows there are. An item has no row where it alone uses more than the units.
#[derive(Drop)]
pub struct Filling {
    pub rows: Vec<Option<u32>>,
    pub count: u32,
}

/// Fills rows with items, one row after another: of the items whose earlier ones and whose units let them
/// stand in a row the highest goes first, at a tie the first. Takes time in the square of the items. The one refusal is out of
/// memory.
pub fn make_filling(alloc: Global, table: &[Profile], units: &Units) -> Result<Filling, NoMemory>
    requires few { length table.now ≤ 4096 }
    ensures filling { IfOk result
        (λ f. record { rows = rows_in f.rows.items; count = f.count } ≡ filling_of (graph_in table.now) (units_in units.now)) }
    ensures count { IfOk result (λ f. length f.rows.items ≡ length table.now) }
{
    let mut waits = first_waits(alloc, table)?;
    let mut rows = empty_rows(alloc, table.len())?;
    let count = fill(table, rows.as_mut_slice(), waits.as_mut_slice(), units);
    Ok(Filling { rows, count })
}

// No item has a row.
fn empty_rows(alloc: Global, count: usize) -> Result<Vec<Option<u32>>, NoMemory>
    ensures none { IfOk result (λ rows. rows_in rows.items ≡ none_placed) }
    ensures count { IfOk result (λ rows. length rows.items ≡ count) }
{
    let mut rows = Vec::new(alloc);
    'none: for _ in 0..count {
        rows.push(None)?;
    }
    Ok(rows)
}
