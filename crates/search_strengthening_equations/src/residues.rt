//! Residues of numbers modulo a prime.

/// The prime, 2^31 - 1, so that products of residues are within 64 bits.
const PRIME: u64 = 2_147_483_647;

// The most that the absolute value of a coefficient is.
const COEFFICIENT_LIMIT: u64 = 1_000;

/// The product of two residues.
pub(crate) fn times(left: u64, right: u64) -> u64 {
    left.wrapping_mul(right) % PRIME
}

/// The difference of two residues.
pub(crate) fn minus(left: u64, right: u64) -> u64 {
    left.wrapping_add(PRIME).wrapping_sub(right) % PRIME
}

/// The residue whose product with another one, which is not 0, is 1: by Fermat's little theorem its power of two less than the
/// prime, which has all binary digits but the second.
pub(crate) fn inverse(residue: u64) -> u64 {
    let mut power = residue;
    let mut out = 1;
    for digit in 0..31u32 {
        if digit != 1 {
            out = times(out, power);
        }
        power = times(power, power);
    }
    out
}

/// The residue of a number.
pub(crate) fn residue_of(number: &i128) -> u64 {
    match u64::try_from(number.rem_euclid(i128::from(PRIME))) {
        Ok(residue) => residue,
        Err(_) => 0,
    }
}

/// The number with a residue whose absolute value is at most 1,000, if there is one.
pub(crate) fn small_number(residue: u64) -> Option<i128> {
    if residue <= COEFFICIENT_LIMIT {
        return Some(i128::from(residue));
    }
    let below = PRIME.saturating_sub(residue);
    if below <= COEFFICIENT_LIMIT {
        Some(i128::from(below).wrapping_neg())
    } else {
        None
    }
}
