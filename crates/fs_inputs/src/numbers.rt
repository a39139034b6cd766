//! Numbers as texts spell them.

ghost use Rattle.std.specs.Prelude.{◌≡◌, ◌≤◌, ◌^◌, pos, neg_ℤ, Some, SomeIff};
ghost use Rattle.std.specs.List.{list_all};
ghost use Rattle.fs_model.specs.Digits.{value_of_digits};
ghost use Rattle.fs_model.specs.Words.{is_digit};
ghost use Rattle.fs_inputs.specs.Numbers.{is_positive, is_natural, number_in, number_reading};

use fs_model::name::is_digit;

/// 2^127: how far below 0 a number of 128 bits may lie.
const LEAST: u128 = 0x8000_0000_0000_0000_0000_0000_0000_0000;

/// What a text or a value spells.
#[derive(Clone, Copy)]
pub enum Reading {
    NoNumber,
    /// A number outside 128 bits.
    TooBig,
    Number(i128),
}

// The number of digits, and `None` exactly when it is above 2^127.
fn magnitude(bytes: &[u8]) -> Option<u128>
    ensures { SomeIff result (value_of_digits bytes.now ≤ 2 ^ 127) (value_of_digits bytes.now) }
{
    let mut n: u128 = 0;
    for b in bytes {
        if n > LEAST / 10 {
            return None;
        }
        n = 10 * n + u128::from(b.saturating_sub(b'0'));
        if n > LEAST {
            return None;
        }
    }
    Some(n)
}

fn natural(bytes: &[u8]) -> Reading
    ensures { result ≡ number_reading (Some (pos (value_of_digits bytes.now))) }
{
    match magnitude(bytes) {
        Some(n) => if n < LEAST {
            Reading::Number(n as i128)
        } else {
            Reading::TooBig
        },
        None => Reading::TooBig,
    }
}

fn negative(bytes: &[u8]) -> Reading
    ensures { result ≡ number_reading (Some (neg_ℤ (pos (value_of_digits bytes.now)))) }
{
    match magnitude(bytes) {
        Some(n) => if n < LEAST {
            Reading::Number(-(n as i128))
        } else {
            Reading::Number(i128::MIN)
        },
        None => Reading::TooBig,
    }
}

fn are_digits(bytes: &[u8]) -> bool
    ensures { result ≡ list_all is_digit bytes.now }
{
    bytes.iter().all(|b| is_digit(*b))
}

// Whether bytes are decimal digits of which the first is not 0.
fn is_positive(bytes: &[u8]) -> bool
    ensures { result ≡ is_positive bytes.now }
{
    match bytes {
        [] => false,
        [first, rest @ ..] => is_digit(*first) && *first != b'0' && are_digits(rest),
    }
}

// Whether bytes are decimal digits without a needless zero.
fn is_natural(bytes: &[u8]) -> bool
    ensures { result ≡ is_natural bytes.now }
{
    is_positive(bytes) || bytes == b"0".as_slice()
}

/// The number that a text spells: decimal digits without a needless zero, with a `-` before them where
/// the number is below 0.
pub fn read_number(bytes: &[u8]) -> Reading
    ensures { result ≡ number_reading (number_in bytes.now) }
{
    match bytes {
        [] => Reading::NoNumber,
        [b'-', digits @ ..] => if is_positive(digits) {
            negative(digits)
        } else {
            Reading::NoNumber
        },
        _ => if is_natural(bytes) {
            natural(bytes)
        } else {
            Reading::NoNumber
        },
    }
}

impl Reading {
    ghost use Rattle.std.specs.Prelude.{◌≡◌, true};
    ghost use Rattle.fs_inputs.specs.Steps.{reads_number, is_any, is_reading_within};
    ghost use Rattle.fs_inputs.specs.declared.numbers.Reading.TheVariants as readings;

    /// Whether a number is spelled, in whatever range.
    pub fn is_any(self) -> bool
        ensures { result ≡ is_any self }
    {
        match self {
            Reading::NoNumber => false,
            Reading::TooBig | Reading::Number(_) => true,
        }
    }

    /// Whether no number outside 128 bits is spelled.
    pub fn is_within(self) -> bool
        ensures { result ≡ is_reading_within self }
    {
        match self {
            Reading::TooBig => false,
            Reading::NoNumber | Reading::Number(_) => true,
        }
    }

    /// The number that was read.
    pub fn number(self) -> i128
        requires { reads_number self ≡ true }
        ensures { self ≡ readings.Number result }
    {
        match self {
            Reading::Number(n) => n,
            _ => unreachable!(),
        }
    }
}
