//! Sets of positions.

ghost use Rattle.std.specs.Prelude.{◌≡◌, true, false, set, slice_index_or, IfOk};
ghost use Rattle.sym_facts.specs.PositionSets.{has_position, empty_set, with_position};
ghost use Rattle.sym_facts.specs.View.{set_in};

use nf_terms::stop::NoMemory;
use nf_terms::tree::{Pos, Side};
use std::alloc::Global;

/// Positions with numbers below a bound: for each side, whether each number is one of them.
#[derive(Drop)]
pub struct PositionSet {
    pub left: Vec<bool>,
    pub right: Vec<bool>,
}

// Whether a number is in the set of a side.
fn holds(numbers: &[bool], number: u32) -> bool
    ensures { result ≡ slice_index_or numbers.now number false }
{
    match numbers.get(number as usize) {
        Some(is_there) => *is_there,
        None => false,
    }
}

// Puts a number into the set of a side, unless it is out of bounds.
fn put(numbers: &mut Vec<bool>, number: u32)
    ensures { numbers.new.items ≡ set numbers.old.items number true }
{
    let number = number as usize;
    if number < numbers.len() {
        numbers[number] = true;
    }
}

impl PositionSet {
    /// The empty set, for numbers below a bound. The one refusal is out of memory.
    pub fn new(alloc: Global, bound: usize) -> Result<PositionSet, NoMemory>
        ensures { IfOk result (λ s. set_in s ≡ empty_set bound) }
    {
        Ok(PositionSet {
            left: vec![in alloc; false; bound]?,
            right: vec![in alloc; false; bound]?,
        })
    }

    /// Whether a position is in the set.
    pub fn contains(&self, p: Pos) -> bool
        ensures { result ≡ has_position (set_in self.now) p }
    {
        match p.side {
            Side::Left => holds(&self.left, p.var),
            Side::Right => holds(&self.right, p.var),
        }
    }

    /// Adds a position, unless its number is out of bounds.
    pub fn insert(&mut self, p: Pos)
        ensures { set_in self.new ≡ with_position (set_in self.old) p }
    {
        match p.side {
            Side::Left => put(&mut self.left, p.var),
            Side::Right => put(&mut self.right, p.var),
        }
    }
}
