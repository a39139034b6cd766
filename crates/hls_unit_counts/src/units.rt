//! Units of hardware, by kind.

ghost use Rattle.std.specs.Prelude.{◌≡◌};
ghost use Rattle.hls_unit_counts.specs.Counts.{units_in};

/// A kind of unit.
#[derive(Clone, Copy, PartialEq, Eq)]
pub enum Unit {
    /// For a sum, a difference or a prefix minus.
    Add,
    /// For a product.
    Mul,
    /// For a quotient or a remainder.
    Div,
    /// For a read or a write of an array.
    Mem,
}

/// A number of units of each kind.
#[derive(Clone, Copy)]
pub struct Units {
    pub add: u32,
    pub mul: u32,
    pub div: u32,
    pub mem: u32,
}

impl Units {
    /// How many units of a kind there are.
    pub fn of(&self, kind: Unit) -> u32
        ensures { result ≡ units_in self.now kind }
    {
        match kind {
            Unit::Add => self.add,
            Unit::Mul => self.mul,
            Unit::Div => self.div,
            Unit::Mem => self.mem,
        }
    }
}
