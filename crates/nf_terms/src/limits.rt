//! The limits of normal forms.

/// The most that a polynomial of a normal form weighs.
pub const WEIGHT_LIMIT: u128 = (1 << 127) - 1;

/// The most that the size of a normal form is.
pub const SIZE_LIMIT: u64 = 4096;

/// The most that the depth of a normal form is.
pub const DEPTH_LIMIT: u32 = 64;
