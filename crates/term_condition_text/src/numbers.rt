//! The numbers that digits spell.

ghost use Rattle.std.specs.Prelude.{◌≡◌, ◌-◌, ◌^◌, min, nat_le, pos, unsigned_abs};
ghost use Rattle.fs_model.specs.Digits.{with_digit, value_of_digits};
ghost use Rattle.nf_terms.specs.TermLimits.{weight_limit};
ghost use Rattle.term_condition_text.specs.DigitNumbers.{clipped_number};

use nf_terms::limits::WEIGHT_LIMIT;

// A number with one digit more, or the greatest u128 where it is greater.
fn append_digit(number: u128, digit: u8) -> u128
    ensures { result ≡ min (with_digit number digit) (2 ^ 128 - 1) }
{
    number
        .saturating_mul(10)
        .saturating_add(u128::from(digit.saturating_sub(b'0')))
}

// The number of digits, or the greatest u128 where it is greater.
#[tactic(auto, using(crate::proofs::Saturated::digit_more, crate::proofs::Saturated::whole))]
fn saturated_number(digits: &[u8]) -> u128
    ensures { result ≡ min (value_of_digits digits.now) (2 ^ 128 - 1) }
{
    let mut number = 0u128;
    for digit in digits {
        number = append_digit(number, *digit);
    }
    number
}

/// Whether the number of digits is at most 2^127 - 1.
pub fn fits(digits: &[u8]) -> bool
    ensures { result ≡ nat_le (value_of_digits digits.now) weight_limit }
{
    saturated_number(digits) <= WEIGHT_LIMIT
}

/// The number of digits, or 2^127 - 1 where it is greater.
pub fn clip_number(digits: &[u8]) -> i128
    ensures number { result ≡ pos (clipped_number digits.now) }
    ensures natural { result ≡ pos (unsigned_abs result) }
{
    saturated_number(digits).min(WEIGHT_LIMIT) as i128
}
