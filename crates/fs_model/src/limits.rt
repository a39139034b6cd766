//! The limits of machines and of their texts.

/// The most operators and opening brackets of a guard, an assignment or an emit.
pub const OPERATOR_LIMIT: u32 = 128;

/// The most bytes of a name.
pub const NAME_LIMIT: usize = 32;

/// The most variables of a machine.
pub const VARIABLE_LIMIT: usize = 128;

/// The most states of a machine.
pub const STATE_LIMIT: usize = 4096;

/// The most branches of a state.
pub const BRANCH_LIMIT: u32 = 64;

/// The most emits of a transition.
pub const EMIT_LIMIT: usize = 16;

/// The most bytes of a text.
pub const TEXT_LIMIT: usize = 1_048_576;

/// The largest number of a text.
pub const NUMBER_LIMIT: i128 = i128::MAX;
