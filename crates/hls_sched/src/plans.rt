//! Plans of blocks.

ghost use Rattle.std.specs.Prelude.{◌≡◌, ◌<◌, length, map, IfOk};
ghost use Rattle.std.specs.List.{All};
ghost use Rattle.hls_block_filling.specs.BasicBlocks.{item_of, items_at};
ghost use Rattle.hls_unit_counts.specs.declared.units.Unit.{Unit as Kind};
ghost use Rattle.hls_block_filling.specs.ItemUnits.{used_by, units_in};
ghost use Rattle.hls_block_filling.specs.Heights.{chain_of};
ghost use Rattle.hls_block_filling.specs.Filling.{graph_of, filling_of};
ghost use Rattle.hls_block_filling.specs.Schedules.{IsWithin};
ghost use Rattle.hls_block_filling.specs.EffectSets.{sets_of, sets_from, none_changed};
ghost use Rattle.hls_block_filling.specs.Profiles.{units_of_uses, capped_count};
ghost use Rattle.hls_block_filling.specs.Plans.{filled_in};
ghost use Rattle.hls_sched.specs.RowMoves.{IsPlanFor};
ghost use Rattle.hls_sched.specs.TracedBlocks.{IsBlockFrom};

use crate::blocks::{Block, item};
use fs_ast::machine::Machine;
use fs_model::name::NoMemory;
use fs_model::parts::StateId;
use hls_block_filling::effects::Effects;
use hls_block_filling::over::see_counts;
use hls_block_filling::plan::{Plan, make_plan};
use hls_block_filling::unit_laws::items_within_the_units_are_counted;
use hls_block_filling::uses::{Uses, uses_of};
use hls_unit_counts::Units;
use std::alloc::Global;

// The effects of items, in their order.
fn all_effects(alloc: Global, m: &Machine, states: &[StateId]) -> Result<Vec<Effects>, NoMemory>
    requires { All (λ q. q.0 < length m.now.states) states.now }
    ensures { IfOk result (λ out. map sets_of out.items ≡ map (λ q. sets_from (item_of m.now q.0) none_changed) states.now) }
{
    let mut out = Vec::new(alloc);
    for state in states {
        out.push(Effects::of(item(m, *state)))?;
    }
    Ok(out)
}

// The units that items use, in their order.
fn all_uses(alloc: Global, m: &Machine, states: &[StateId]) -> Result<Vec<Uses>, NoMemory>
    requires { All (λ q. q.0 < length m.now.states) states.now }
    ensures { IfOk result
        (λ out. (kind : Kind) → map (λ u. units_of_uses u kind) out.items
        ≡ map (λ q. capped_count (used_by (item_of m.now q.0) kind)) states.now) }
{
    let mut out = Vec::new(alloc);
    for state in states {
        out.push(uses_of(item(m, *state)))?;
    }
    Ok(out)
}

/// Plans the rows of a block.
pub fn plan_block(
    alloc: Global,
    m: &Machine,
    first: StateId,
    block: &Block,
    units: &Units,
) -> Result<Plan, NoMemory>
    requires within { IsWithin (units_in units.now) m.now }
    requires block { IsBlockFrom m.now first.0 block.now }
    ensures rows { IfOk result (λ p. filled_in p ≡ filling_of (graph_of (items_at m.now first.0)) (units_in units.now)) }
    ensures chain { IfOk result (λ p. p.chain ≡ chain_of (items_at m.now first.0)) }
    ensures plan { IfOk result (λ p. IsPlanFor (length block.now.states.items) p) }
{
    let _vars = m.vars(); // The call tells the proof that the machine is sound.
    see_counts(units);
    items_within_the_units_are_counted();
    let effects = all_effects(alloc, m, &block.states)?;
    let uses = all_uses(alloc, m, &block.states)?;
    Ok(make_plan(alloc, &effects, &uses, units)?)
}
