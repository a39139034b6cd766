//! What a valid placing keeps, over the definitions alone. The functions do nothing.

ghost use Rattle.std.specs.Prelude.{◌≡◌, ℕ, ◌≤◌, nat_le, true, List};
ghost use Rattle.std.specs.List.{list_all};
ghost use Rattle.fs_model.specs.Stores.{Store};
ghost use Rattle.fs_model.specs.SoundMachines.{all_differ, assigned_in, emit_count};
ghost use Rattle.hls_block_filling.specs.Items.{store_after_items};
ghost use Rattle.hls_block_filling.specs.Placings.{Placed, items_of, is_valid, all_below, join_assignments, row_at, rows_of};

/// The rows of a valid placing end with the store with which the items end one after another.
pub fn a_valid_placing_keeps_the_store()
    ensures { (ps : List Placed) (n : ℕ) (s : Store) → is_valid ps ≡ true → all_below n ps ≡ true
        → store_after_items (rows_of n ps) s ≡ store_after_items (items_of ps) s }
{}

/// A row of a valid placing assigns no scalar twice where no item does.
pub fn a_row_assigns_no_scalar_twice()
    ensures { (ps : List Placed) (k : ℕ) → is_valid ps ≡ true → list_all (λ p. all_differ (assigned_in p.item)) ps ≡ true
        → all_differ (assigned_in (join_assignments (row_at k ps))) ≡ true }
{}

/// A row of a valid placing emits no more often than one of its items may.
pub fn a_row_emits_as_one_item_does()
    ensures { (ps : List Placed) (k most : ℕ) → is_valid ps ≡ true → list_all (λ p. nat_le (emit_count p.item) most) ps ≡ true
        → emit_count (join_assignments (row_at k ps)) ≤ most }
{}
