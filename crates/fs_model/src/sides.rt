//! The sides of a pair of machines, and the positions of their variables.

/// One of the two sides.
#[derive(Clone, Copy, PartialEq, Eq, Hash, Drop)]
pub enum Side {
    Left,
    Right,
}

/// A position: a variable of a side, by its number.
#[derive(Clone, Copy, PartialEq, Eq, Hash)]
pub struct Pos {
    pub side: Side,
    pub var: u32,
}
