//! Laws of the filling, over the definitions alone. The functions do nothing.

ghost use Rattle.std.specs.Prelude.{◌≡◌, ℕ, ◌<◌, ◌≤◌, true, None, List, length};
ghost use Rattle.hls_block_filling.specs.Items.{Item};
ghost use Rattle.hls_block_filling.specs.Placings.{Placed, items_of, is_valid, all_below};
ghost use Rattle.hls_block_filling.specs.ItemUnits.{Units, none_used, suffice};
ghost use Rattle.hls_block_filling.specs.Heights.{chain_of};
ghost use Rattle.hls_block_filling.specs.Filling.{ItemGraph, graph_of, used_by_all, EachItemFits, filling_of, IsFilled};
ghost use Rattle.hls_block_filling.specs.Filling.{placed_by};
ghost use Rattle.hls_block_filling.specs.Walks.{AreGreatest, IsGreatestChain};
ghost use Rattle.hls_block_filling.specs.ListSchedules.{IsListSchedule, HasItem};

/// No valid placing has fewer rows than the chain.
pub fn no_placing_is_shorter_than_the_chain()
    ensures { (ps : List Placed) (n : ℕ) → is_valid ps ≡ true → all_below n ps ≡ true → chain_of (items_of ps) ≤ n }
{}

/// Each item is placed, on each edge as it must be, each row is within the units, and there are no more rows than items.
pub fn a_filling_is_a_valid_placing()
    ensures { (g : ItemGraph) (units : Units) → EachItemFits g units → IsFilled g units (filling_of g units) }
{}

/// The items of a block with the rows of its filling are a valid placing, in the block's order.
pub fn a_block_is_placed()
    ensures items { (items : List Item) (units : Units) → items_of (placed_by items (filling_of (graph_of items) units)) ≡ items }
    ensures valid { (items : List Item) (units : Units) → EachItemFits (graph_of items) units
        → is_valid (placed_by items (filling_of (graph_of items) units)) ≡ true }
    ensures below { (items : List Item) (units : Units) → EachItemFits (graph_of items) units
        → all_below (filling_of (graph_of items) units).count (placed_by items (filling_of (graph_of items) units)) ≡ true }
{}

/// Where the units suffice for all items together, the filling is as long as the chain.
pub fn with_units_for_all_the_length_is_the_chain()
    ensures { (items : List Item) (units : Units) → EachItemFits (graph_of items) units
        → suffice units none_used (used_by_all (graph_of items) (length items)) ≡ true
        → (filling_of (graph_of items) units).count ≡ chain_of items }
{}

/// The height of each item is the greatest number of strict edges on walks from it, and the chain of a block is 1 plus the
/// greatest number on any of its walks.
pub fn heights_are_greatest_walks()
    ensures heights { (items : List Item) → AreGreatest items }
    ensures chain { (items : List Item) → IsGreatestChain items }
{}

/// A filling is a list schedule: of the items that may be placed in a row the highest goes first, at a tie the first of
/// the block, and a row ends where none may be placed. Each row has an item.
pub fn a_filling_is_a_list_schedule()
    ensures schedule { (g : ItemGraph) (units : Units) → EachItemFits g units
        → IsListSchedule g units 0 (λ i. None) none_used (filling_of g units) }
    ensures rows { (g : ItemGraph) (units : Units) → EachItemFits g units → (r : ℕ) → r < (filling_of g units).count
        → HasItem g (filling_of g units).rows r }
{}
