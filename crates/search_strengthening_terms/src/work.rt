//! How much work is left.

use crate::stop::Stop;

/// How much work is left, in units: sizes of terms that are substituted and of what comes of them.
#[derive(Drop)]
pub struct Work {
    left: u64,
}

impl Work {
    /// So many units.
    pub fn of(units: u64) -> Work {
        Work { left: units }
    }

    /// The units that are left.
    pub fn left(&self) -> u64 {
        self.left
    }

    /// Takes so many units off, or all where fewer are left.
    pub fn give(&mut self, units: u64) {
        self.left = self.left.saturating_sub(units);
    }

    /// Takes so many units off. `Exhausted` comes where fewer are left.
    pub fn spend(&mut self, units: u64) -> Result<(), Stop> {
        if self.left < units {
            return Err(Stop::Exhausted);
        }
        self.left -= units;
        Ok(())
    }
}
