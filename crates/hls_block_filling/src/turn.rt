//! The turn from a row to the next.

ghost use Rattle.std.specs.Prelude.{◌≡◌, ◌<◌, suc, length};
ghost use Rattle.hls_block_filling.specs.Filling.{is_in};
ghost use Rattle.hls_block_filling.specs.Profiles.{graph_in};
ghost use Rattle.hls_block_filling.specs.WaitingItems.{rows_in, AreWaiting, AreTurned, AreLow};

use crate::effects::Edge;
use crate::profiles::Profile;
use crate::waits::release;

/// Whether an item is placed in a row.
fn is_in(place: Option<u32>, row: u32) -> bool
    ensures { result ≡ is_in row place }
{
    match place {
        None => false,
        Some(k) => k == row,
    }
}

/// Item k is looked at from the next row on.
fn turn_one(table: &[Profile], rows: &[Option<u32>], waits: &mut [u32], row: u32, k: usize)
    requires rows { length rows.now ≡ length table.now }
    requires waits { length waits.now ≡ length table.now }
    requires in_range { k < length table.now }
    requires low { AreLow (graph_in table.now) (rows_in rows.now) row }
    requires turned { AreTurned (graph_in table.now) (rows_in rows.now) row k waits.now }
    ensures turned { AreTurned (graph_in table.now) (rows_in rows.now) row (suc k) waits.new }
    ensures count { length waits.new ≡ length table.now }
{
    if is_in(rows[k], row) {
        release(table, waits, Edge::Strict, k);
    }
}

/// After a row the items wait for those that are not in earlier rows than the next.
pub fn turn_row(table: &[Profile], rows: &[Option<u32>], waits: &mut [u32], row: u32)
    requires rows { length rows.now ≡ length table.now }
    requires waits { length waits.now ≡ length table.now }
    requires low { AreLow (graph_in table.now) (rows_in rows.now) row }
    requires waiting { AreWaiting (graph_in table.now) (rows_in rows.now) row waits.now }
    ensures waiting { AreWaiting (graph_in table.now) (rows_in rows.now) (suc row) waits.new }
    ensures wait_count { length waits.new ≡ length table.now }
{
    for k in 0..table.len() {
        turn_one(table, rows, waits, row, k);
    }
}
