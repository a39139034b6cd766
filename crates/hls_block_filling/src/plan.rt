//! The rows of a block, from what its items read, change and use.

ghost use Rattle.std.specs.Prelude.{◌≡◌, ◌≤◌, length, List, IfOk};
ghost use Rattle.hls_block_filling.specs.Items.{Item};
ghost use Rattle.hls_block_filling.specs.ItemUnits.{units_in};
ghost use Rattle.hls_block_filling.specs.Heights.{chain_of};
ghost use Rattle.hls_block_filling.specs.Filling.{graph_of, filling_of};
ghost use Rattle.hls_block_filling.specs.Plans.{AreCountedOf, AreJoined, filled_in};

use crate::effects::Effects;
use crate::heights::{chain, heights};
use crate::profiles::Profile;
use crate::rows::{Filling, make_filling};
use crate::uses::Uses;
use fs_model::name::NoMemory;
use hls_unit_counts::Units;
use std::alloc::Global;

/// The row of each item of a block, how many rows there are, and the block's chain. Rows count from 0; an item has none where it
/// alone uses more than the units.
#[derive(Drop)]
pub struct Plan {
    pub rows: Vec<Option<u32>>,
    pub count: u32,
    pub chain: u32,
}

// Profiles of items from their effects, heights and uses.
fn profiles(
    alloc: Global,
    effects: &[Effects],
    heights: &[u32],
    uses: &[Uses],
) -> Result<Vec<Profile>, NoMemory>
    requires heights { length heights.now ≡ length effects.now }
    requires uses { length uses.now ≡ length effects.now }
    ensures { IfOk result (λ table. AreJoined effects.now heights.now uses.now table.items) }
{
    let mut table = Vec::new(alloc);
    for i in 0..effects.len() {
        table.push(Profile {
            effects: effects[i],
            height: heights[i],
            uses: uses[i],
        })?;
    }
    Ok(table)
}

/// Plans a block: its rows are filled one after another, of the items whose earlier ones and whose units let
/// them stand in a row the highest first, at a tie the first. `effects` and `uses` are those of its items in
/// order. Takes time in the square of the items. The one refusal is out of memory.
pub fn make_plan(
    alloc: Global,
    effects: &[Effects],
    uses: &[Uses],
    units: &Units,
) -> Result<Plan, NoMemory>
    requires few { length effects.now ≤ 4096 }
    requires same { length uses.now ≡ length effects.now }
    ensures rows { IfOk result
        (λ p. (items : List Item) → AreCountedOf effects.now uses.now items
        → filled_in p ≡ filling_of (graph_of items) (units_in units.now)) }
    ensures chain { IfOk result (λ p. (items : List Item) → AreCountedOf effects.now uses.now items → p.chain ≡ chain_of items) }
    ensures count { IfOk result (λ p. length p.rows.items ≡ length effects.now) }
{
    let heights = heights(alloc, effects)?;
    let table = profiles(alloc, effects, heights.as_slice(), uses)?;
    let Filling { rows, count } = make_filling(alloc, table.as_slice(), units)?;
    Ok(Plan {
        rows,
        count,
        chain: chain(heights.as_slice()),
    })
}
