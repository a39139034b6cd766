//! Laws of division, over the definitions alone. The functions do nothing.

ghost use Rattle.std.specs.Prelude.{◌≡◌, ◌≢◌, ◌<◌, ℤ, pos, ◌+ℤ◌, ◌*ℤ◌, ◌≤ℤ◌, unsigned_abs};
ghost use Rattle.base_laws.specs.Division.{quotient, remainder};

/// A quotient times its divisor, and the remainder, make the dividend; the divisor is not 0.
pub fn quotient_and_remainder_make_the_dividend()
    ensures { (a b : ℤ) → b ≢ pos 0 → quotient a b *ℤ b +ℤ remainder a b ≡ a }
{}

/// A remainder is smaller than its divisor, both without their signs; the divisor is not 0.
pub fn a_remainder_is_smaller_than_its_divisor()
    ensures { (a b : ℤ) → b ≢ pos 0 → unsigned_abs (remainder a b) < unsigned_abs b }
{}

/// A remainder has the sign of its dividend, or is 0.
pub fn a_remainder_has_the_sign_of_its_dividend()
    ensures above { (a b : ℤ) → pos 0 ≤ℤ a → pos 0 ≤ℤ remainder a b }
    ensures below { (a b : ℤ) → a ≤ℤ pos 0 → remainder a b ≤ℤ pos 0 }
{}

/// For the divisor 0 the quotient and the remainder are 0.
pub fn division_by_zero_gives_zero()
    ensures quotient { (a : ℤ) → quotient a (pos 0) ≡ pos 0 }
    ensures remainder { (a : ℤ) → remainder a (pos 0) ≡ pos 0 }
{}
