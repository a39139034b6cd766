//! The rows of blocks, in the states where they stand.

ghost use Rattle.std.specs.Prelude.{◌≡◌, ℕ, ◌<◌, ◌≤◌, ◌++◌, map, length, IfOk};
ghost use Rattle.std.specs.List.{All};
ghost use Rattle.std.specs.Result.{OnOk};
ghost use Rattle.fs_model.specs.Source.{Source};
ghost use Rattle.hls_block_filling.specs.Filling.{is_in};
ghost use Rattle.hls_block_filling.specs.RowMachines.{moves};
ghost use Rattle.hls_block_filling.specs.Plans.{filled_in};
ghost use Rattle.hls_block_filling.specs.WaitingItems.{rows_in};
ghost use Rattle.hls_block_filling.specs.SourceRows.{row_of, rows_in_block};
ghost use Rattle.hls_sched.specs.RowMoves.{joined_items, move_of, target_of_row, row_in_state, IsMoveAmong, IsPlanFor};

use crate::blocks::Block;
use fs_model::name::NoMemory;
use fs_model::parts::StateId;
use hls_block_filling::plan::Plan;
use std::alloc::Global;

/// What a state does by a row of its block: the states whose items it does, in their order in the block, and the
/// state that comes after.
#[derive(Drop)]
pub struct Move {
    pub state: StateId,
    pub items: Vec<StateId>,
    pub target: StateId,
}

// Whether an item is placed in a row.
fn is_in_row(plan: &Plan, item: usize, row: u32) -> bool
    requires { item < length plan.now.rows.items }
    ensures { result ≡ is_in row (rows_in plan.now.rows.items item) }
{
    plan.rows[item] == Some(row)
}

// The states of the items in a row, in their order in the block.
fn items_in_row(
    alloc: Global,
    block: &Block,
    plan: &Plan,
    row: u32,
) -> Result<Vec<StateId>, NoMemory>
    requires { IsPlanFor (length block.now.states.items) plan.now }
    ensures items { IfOk result
        (λ out. (p : Source) → joined_items p out.items ≡ row_of p (map (λ q. q.0) block.now.states.items)
        (filled_in plan.now) row) }
    ensures among { IfOk result
        (λ out. (count : ℕ) → All (λ q. q.0 < count) block.now.states.items → All (λ q. q.0 < count) out.items) }
{
    let mut out = Vec::new(alloc);
    for item in 0..block.states.len() {
        if is_in_row(plan, item, row) {
            out.push(block.states[item])?;
        }
    }
    Ok(out)
}

// Where a row leads: to the state of the next row, where there is one, else out of the block.
fn after_row(block: &Block, count: u32, row: u32) -> StateId
    requires few { count ≤ length block.now.states.items }
    requires in_range { row < count }
    ensures { result.0 ≡ target_of_row block.now.exit.0 (map (λ q. q.0) block.now.states.items) count row }
{
    if row + 1 < count {
        block.states[row as usize + 1]
    } else {
        block.exit
    }
}

// A row of a block, in its state.
fn row_in_state(alloc: Global, block: &Block, plan: &Plan, row: u32) -> Result<Move, NoMemory>
    requires plan { IsPlanFor (length block.now.states.items) plan.now }
    requires in_range { row < plan.now.count }
    ensures row { IfOk result
        (λ x. (p : Source) → move_of p x ≡ row_in_state p block.now.exit.0 (map (λ q. q.0) block.now.states.items)
        (filled_in plan.now) row) }
    ensures among { IfOk result
        (λ x. (count : ℕ) → All (λ q. q.0 < count) block.now.states.items → block.now.exit.0 < count → IsMoveAmong count x) }
{
    let items = items_in_row(alloc, block, plan, row)?;
    Ok(Move {
        state: block.states[row as usize],
        items,
        target: after_row(block, plan.count, row),
    })
}

/// Adds the rows of a block in its first states.
pub fn add_moves(
    alloc: Global,
    block: &Block,
    plan: &Plan,
    out: &mut Vec<Move>,
) -> Result<(), NoMemory>
    requires plan { IsPlanFor (length block.now.states.items) plan.now }
    ensures moves { OnOk result
        ((p : Source) → map (move_of p) out.new.items ≡ map (move_of p) out.old.items
        ++ moves block.now.exit.0 (map (λ q. q.0) block.now.states.items)
        (rows_in_block p (map (λ q. q.0) block.now.states.items) (filled_in plan.now))) }
    ensures among { OnOk result
        ((count : ℕ) → All (λ q. q.0 < count) block.now.states.items → block.now.exit.0 < count
        → All (IsMoveAmong count) out.old.items → All (IsMoveAmong count) out.new.items) }
{
    for row in 0..plan.count {
        out.push(row_in_state(alloc, block, plan, row)?)?;
    }
    Ok(())
}
