//! The numbers of JSON.

ghost use Rattle.std.specs.Prelude.{◌≡◌, ◌<◌, ◌≤◌, ◌==◌, ◌^◌, true, false, Some, length, IsTrue, IfSome, is_some};
ghost use Rattle.std.specs.Prelude.{option_map, slice_index};
ghost use Rattle.serde_json.specs.Data.{unsigned as unsigned_number};
ghost use Rattle.serde_json.specs.Read.{number_of as number_in, number_from, float_of};
ghost use Rattle.serde_json.specs.View.{number_view};

use fast_float::{Numeral, parse_u64};
use serde_json::Number;

fn nearest(is_negative: bool, numeral: &Numeral<'_>) -> Option<Number>
    ensures { option_map number_view result ≡ float_of is_negative numeral.now }
{
    Number::from_f64(numeral.to_float::<f64>(is_negative))
}

fn number_without_minus(numeral: &Numeral<'_>) -> Option<Number>
    ensures { option_map number_view result ≡ number_from false numeral.now }
{
    match numeral.to_u64() {
        Some(n) => Number::from_u128(n as u128),
        None => nearest(false, numeral),
    }
}

fn number_with_minus(numeral: &Numeral<'_>) -> Option<Number>
    ensures { option_map number_view result ≡ number_from true numeral.now }
{
    if let Some(n) = numeral.to_i64(true) {
        if n < 0 {
            return Number::from_i128(n as i128);
        }
    }
    nearest(true, numeral)
}

fn has_minus(bytes: &[u8]) -> bool
    ensures value { result ≡ (slice_index bytes.now 0 == 45) }
    ensures some { IsTrue result → 0 < length bytes.now }
{
    !bytes.is_empty() && bytes[0] == b'-'
}

// The number that a text writes, whatever its parts.
#[inline(never)]
fn number_of_parts(bytes: &[u8]) -> Option<Number>
    ensures { option_map number_view result ≡ number_in bytes.now }
{
    if has_minus(bytes) {
        number_with_minus(&Numeral::scan(&bytes[1..]))
    } else {
        number_without_minus(&Numeral::scan(bytes))
    }
}

#[inline(always)]
fn may_be_digits(bytes: &[u8]) -> bool
    ensures { IsTrue result → 48 ≤ slice_index bytes.now 0 }
{
    !bytes.is_empty() && bytes[0] >= b'0'
}

// The number that digits write which stand alone and fit 64 bits.
#[inline(always)]
fn number_of_digits(bytes: &[u8]) -> Option<u64>
    ensures { IfSome result (λ n. (n < 2 ^ 64) × (number_in bytes.now ≡ Some (unsigned_number n))) }
{
    if may_be_digits(bytes) {
        match parse_u64(bytes) {
            Ok(n) => Some(n),
            Err(_) => None,
        }
    } else {
        None
    }
}

/// The number that a token of JSON writes, where it is in range.
#[inline(always)]
pub fn number_of(text: &str) -> Option<Number>
    ensures { option_map number_view result ≡ number_in text.now }
{
    let bytes = text.as_bytes();
    match number_of_digits(bytes) {
        Some(n) => Number::from_u128(n as u128),
        None => number_of_parts(bytes),
    }
}

// Whether bytes are one digit.
#[inline(always)]
fn is_digit(bytes: &[u8]) -> bool
    ensures { IsTrue result → is_some (number_in bytes.now) ≡ true }
{
    if bytes.len() != 1 {
        return false;
    }
    if bytes[0] < b'0' {
        return false;
    }
    if bytes[0] > b'9' {
        return false;
    }
    true
}

/// Whether the number that a token of JSON writes is in range.
#[inline(always)]
pub fn is_in_range(text: &str) -> bool
    ensures { result ≡ is_some (number_in text.now) }
{
    if is_digit(text.as_bytes()) {
        return true;
    }
    match number_of(text) {
        Some(_) => true,
        None => false,
    }
}
