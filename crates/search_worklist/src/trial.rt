//! What a move that was tried does.

use fs_cut::cover::Point;
use search_tables::outcome::Budget;
use sym_facts::fact::Fact;

/// The node at two points gets this fact, and the table then has so many units.
#[derive(Drop)]
pub struct TableChange {
    pub left: Point,
    pub right: Point,
    pub fact: Fact,
    pub units: u64,
}

/// What a move does. It keeps the table where what arrives is refuted, or entails the fact of its target.
#[derive(Drop)]
pub enum Trial {
    Refuted,
    Entailed { target: usize },
    Changes(TableChange),
    Exceeds(Budget),
}
