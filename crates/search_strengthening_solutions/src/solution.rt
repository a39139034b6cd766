//! Values of positions over those that are free.

use fs_pair::positions::Position;
use nf_substitution::vector::Vector;
use nf_terms::form::Nf;
use nf_terms::stop::NoMemory;
use nf_terms::tree::Pos;
use std::alloc::Global;
use sym_facts::entailment::form_like;
use sym_facts::fact::own_symbol;

/// For each position whether it is known, and the values of known positions, over free ones. A free position has no value but
/// its symbol.
#[derive(Drop)]
pub struct Solution {
    pub known: Vec<bool>,
    pub free: Vec<Pos>,
    pub values: Vector,
}

impl Solution {
    /// No position is known. The one refusal is out of memory.
    pub fn new(alloc: Global, positions: usize) -> Result<Solution, NoMemory> {
        Ok(Solution {
            known: vec![in alloc; false; positions]?,
            free: Vec::new(alloc),
            values: Vector::new(alloc),
        })
    }

    /// Whether the position at a place is known.
    pub fn is_known(&self, place: usize) -> bool {
        match self.known.get(place) {
            Some(known) => *known,
            None => false,
        }
    }

    /// Notes that the position at a place is known.
    pub fn note_known(&mut self, place: usize) {
        if let Some(known) = self.known.get_mut(place) {
            *known = true;
        }
    }

    /// Whether a position is free.
    pub fn is_free(&self, pos: Pos) -> bool {
        self.free.contains(&pos)
    }
}

/// The value of a position: its symbol where it is free. The one refusal is out of memory.
pub fn position_value(
    alloc: Global,
    solution: &Solution,
    position: &Position,
) -> Result<Nf, NoMemory> {
    let symbol = own_symbol(alloc, position.sort, position.pos)?;
    form_like(alloc, &solution.values, &position.pos, &symbol)
}
