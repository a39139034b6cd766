//! Sets of the variables of a machine, and what is live at each state, as such sets: rounds backwards over all branches until
//! none adds a variable.
//!
//! Promises: sets of the variables numbered below 128, by their members; what is live, by rounds over sets of
//! variables, exactly.
//!
//! Rules: `specs/Sets`, `specs/Flows`.
//!
//! Words:
//! - set (of variables): some of the variables numbered below 128
//! - settled (of a branch): nothing more is live by it
#![tactic(auto)]

pub mod flows;

ghost use Rattle.std.specs.Prelude.{◌≡◌, false, not, ◌&&◌, ◌||◌};
ghost use Rattle.fs_variable_sets.specs.Sets.{has_variable, also, sets_meet};

use fs_model::parts::VarId;

/// A set of variables numbered below 128; others are left out.
#[derive(Clone, Copy)]
pub struct VariableSet {
    pub bits: u128,
}

impl VariableSet {
    /// The set of no variables.
    pub fn empty() -> VariableSet
        ensures { has_variable result ≡ λ x. false }
    {
        VariableSet { bits: 0 }
    }

    /// The set and one variable more.
    pub fn with(self, variable: VarId) -> VariableSet
        ensures { has_variable result ≡ also variable.0 (has_variable self) }
    {
        if variable.0 < 128 {
            VariableSet {
                bits: self.bits | 1 << variable.0,
            }
        } else {
            self
        }
    }

    /// Whether the set has a variable.
    pub fn contains(self, variable: VarId) -> bool
        ensures { result ≡ has_variable self variable.0 }
    {
        if variable.0 < 128 {
            (self.bits >> variable.0) & 1 == 1
        } else {
            false
        }
    }

    /// The variables of either set.
    pub fn union(self, other: VariableSet) -> VariableSet
        ensures { has_variable result ≡ λ x. has_variable self x || has_variable other x }
    {
        VariableSet {
            bits: self.bits | other.bits,
        }
    }

    /// The variables that another set lacks.
    pub fn without(self, other: VariableSet) -> VariableSet
        ensures { has_variable result ≡ λ x. has_variable self x && not (has_variable other x) }
    {
        VariableSet {
            bits: self.bits & !other.bits,
        }
    }

    /// Whether some variable is in both sets.
    pub fn meets(self, other: VariableSet) -> bool
        ensures { result ≡ sets_meet (has_variable self) (has_variable other) }
    {
        self.bits & other.bits != 0
    }
}
