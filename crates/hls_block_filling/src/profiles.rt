//! What the filling needs to know of items.

use crate::effects::Effects;
use crate::uses::Uses;

/// An item: what it reads and changes, its height, and the units that it uses.
#[derive(Clone, Copy)]
pub struct Profile {
    pub effects: Effects,
    pub height: u32,
    pub uses: Uses,
}
