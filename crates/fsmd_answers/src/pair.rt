//! Two machines with their positions, as one value.

use fs_ast::machine::Machine;
use fs_pair::positions::Pairing;

/// Two machines, and the positions of both.
#[derive(Drop)]
pub struct Pair {
    pub left: Machine,
    pub right: Machine,
    pub pairing: Pairing,
}
