//! Taking the bytes of a condition apart.

ghost use Rattle.std.specs.Prelude.{◌≡◌, ◌≤◌, length, take, drop, option_map, codes};
ghost use Rattle.std.specs.Str.{bytes_eq};
ghost use Rattle.std.specs.List.{list_all, prefix_len};
ghost use Rattle.fs_model.specs.Words.{is_digit};
ghost use Rattle.term_text.specs.SpellableTerms.{is_number_text};
ghost use Rattle.term_condition_text.specs.ConditionParts.{is_plain, cut, relation_at, relation_in, integer_of, condition_parts};
ghost use Rattle.term_condition_text.specs.View.{integer_in};

use crate::condition::WrittenInteger;
use fs_model::name::is_digit;
use nf_rel::kind::Kind;

/// Whether the bytes are `false`.
pub fn is_false(bytes: &[u8]) -> bool
    ensures { result ≡ bytes_eq bytes.now (codes "false") }
{
    bytes == b"false".as_slice()
}

fn is_plain(b: u8) -> bool
    ensures { result ≡ is_plain b }
{
    !(b == b'<' || b == b'=' || b == b'>' || b == b'!')
}

fn plain_len(bytes: &[u8]) -> usize
    ensures is { result ≡ prefix_len is_plain bytes.now }
    ensures fits { result ≤ length bytes.now }
{
    bytes.iter().take_while(|b| is_plain(**b)).count()
}

// The bytes before the space in front of the first sign of a relation, and those from it on.
fn split(bytes: &[u8]) -> (&[u8], &[u8])
    ensures front { result.0.now ≡ take (cut bytes.now) bytes.now }
    ensures back { result.1.now ≡ drop (cut bytes.now) bytes.now }
{
    bytes.split_at(plain_len(bytes).saturating_sub(1))
}

// The relation that four bytes are.
fn kind_at(a: u8, b: u8, c: u8, d: u8) -> Option<Kind>
    ensures { result ≡ relation_at a b c d }
{
    if !(a == b' ' && c == b'=' && d == b' ') {
        return None;
    }
    match b {
        b'>' => Some(Kind::Ge),
        b'<' => Some(Kind::Le),
        b'=' => Some(Kind::Eq),
        b'!' => Some(Kind::Ne),
        _ => None,
    }
}

// The relation that bytes begin with, and what follows it.
fn kind(bytes: &[u8]) -> Option<(Kind, &[u8])>
    ensures { option_map (λ x. (x.0, x.1.now)) result ≡ relation_in bytes.now }
{
    match bytes {
        [a, b, c, d, rest @ ..] => match kind_at(*a, *b, *c, *d) {
            Some(kind) => Some((kind, rest)),
            None => None,
        },
        _ => None,
    }
}

fn are_digits(bytes: &[u8]) -> bool
    ensures { result ≡ list_all is_digit bytes.now }
{
    bytes.iter().all(|b| is_digit(*b))
}

fn is_number(bytes: &[u8]) -> bool
    ensures { result ≡ is_number_text bytes.now }
{
    match bytes {
        [] => false,
        [first, rest @ ..] => is_digit(*first) && *first != b'0' && are_digits(rest),
    }
}

// The number that all bytes are.
fn integer(bytes: &[u8]) -> Option<WrittenInteger<'_>>
    ensures { option_map integer_in result ≡ integer_of bytes.now }
{
    match bytes {
        [] => None,
        [b'-', digits @ ..] => if is_number(digits) {
            Some(WrittenInteger::Negative(digits))
        } else {
            None
        },
        _ => if bytes == b"0".as_slice() {
            Some(WrittenInteger::Zero)
        } else if is_number(bytes) {
            Some(WrittenInteger::Positive(bytes))
        } else {
            None
        },
    }
}

/// The bytes of a comparison's polynomial, its relation and its number.
pub fn parts(bytes: &[u8]) -> Option<(&[u8], Kind, WrittenInteger<'_>)>
    ensures { option_map (λ x. (x.0.now, x.1, integer_in x.2)) result ≡ condition_parts bytes.now }
{
    let (polynomial, rest) = split(bytes);
    let (kind, rest) = kind(rest)?;
    let integer = integer(rest)?;
    Some((polynomial, kind, integer))
}
