//! Single bytes, words and numbers.

ghost use Rattle.std.specs.Prelude.{◌≡◌, ◌<◌, ◌≤◌, true, length, IfOk};
ghost use Rattle.std.specs.List.{prefix_len};
ghost use Rattle.fs_model.specs.Words.{is_digit, is_letter, is_word_byte, is_reserved};
ghost use Rattle.fs_model.specs.declared.sides.Side.{Side};
ghost use Rattle.term_text.specs.Machine.{Owed, ForMonomial, ForSymbol, term_reading, begins, Goes, expect, at_monomial};
ghost use Rattle.term_text.specs.Machine.{after_monomial, at_symbol, after_symbol};
ghost use Rattle.term_text.specs.TermTexts.{Number};

use crate::fault::ReadError;
use fs_model::name::{is_digit, is_letter, is_reserved, is_word_byte};

/// Takes one byte, which must come: else `BadTerm`.
pub fn expect(bytes: &[u8], b: u8) -> Result<&[u8], ReadError>
    ensures goes { (s : Owed) → Goes result (term_reading bytes.now (expect b s)) (λ r. term_reading r.now s) }
    ensures shorter { IfOk result (λ r. length r.now < length bytes.now) }
{
    match bytes {
        [] => Err(ReadError::BadTerm),
        [first, rest @ ..] => if *first == b {
            Ok(rest)
        } else {
            Err(ReadError::BadTerm)
        },
    }
}

/// Takes two bytes, which must come one after the other: else `BadTerm`.
pub fn expect_two(bytes: &[u8], first: u8, second: u8) -> Result<&[u8], ReadError>
    ensures goes { (s : Owed) → Goes result (term_reading bytes.now (expect first (expect second s)))
        (λ r. term_reading r.now s) }
    ensures shorter { IfOk result (λ r. length r.now < length bytes.now) }
{
    let rest = expect(bytes, first)?;
    expect(rest, second)
}

/// Takes three bytes, which must come one after another: else `BadTerm`.
pub fn expect_three(bytes: &[u8], first: u8, second: u8, third: u8) -> Result<&[u8], ReadError>
    ensures goes { (s : Owed) → Goes result (term_reading bytes.now (expect first (expect second (expect third s))))
        (λ r. term_reading r.now s) }
    ensures shorter { IfOk result (λ r. length r.now < length bytes.now) }
{
    let rest = expect(bytes, first)?;
    expect_two(rest, second, third)
}

fn digits_len(bytes: &[u8]) -> usize
    ensures is { result ≡ prefix_len is_digit bytes.now }
    ensures fits { result ≤ length bytes.now }
{
    bytes.iter().take_while(|b| is_digit(**b)).count()
}

fn word_len(bytes: &[u8]) -> usize
    ensures is { result ≡ prefix_len is_word_byte bytes.now }
    ensures fits { result ≤ length bytes.now }
{
    bytes.iter().take_while(|b| is_word_byte(**b)).count()
}

/// The digits of a number, and what follows it.
#[tactic(auto, using(crate::proofs::Steps::number_starts))]
pub(crate) fn number(bytes: &[u8]) -> Result<(&[u8], &[u8]), ReadError>
    requires { begins is_digit bytes.now ≡ true }
    ensures goes { (k : ForMonomial) → Goes result (term_reading bytes.now (at_monomial k))
        (λ x. term_reading x.1.now (after_monomial (Number x.0.now) k)) }
    ensures shorter { IfOk result (λ x. length x.1.now < length bytes.now) }
{
    match bytes {
        [] => Err(ReadError::BadTerm),
        [first, ..] => {
            if *first == b'0' {
                return Err(ReadError::BadTerm);
            }
            let (digits, rest) = bytes.split_at(digits_len(bytes));
            Ok((digits, rest))
        }
    }
}

fn begins_with_letter(bytes: &[u8]) -> bool
    ensures { result ≡ begins is_letter bytes.now }
{
    match bytes {
        [] => false,
        [first, ..] => is_letter(*first),
    }
}

// Whether a word is reserved. Words of other lengths than the reserved ones, as most names are, are compared with none.
#[tactic(auto, using(crate::proofs::ReservedWords::short_word, crate::proofs::ReservedWords::long_word))]
fn is_reserved_word(word: &[u8]) -> bool
    ensures { result ≡ is_reserved word.now }
{
    if word.len() < 4 {
        return false;
    }
    if word.len() > 6 {
        return false;
    }
    is_reserved(word)
}

/// A name and what follows it. `BadTerm` where no name stands there, or a reserved word.
#[tactic(auto, using(crate::proofs::Steps::symbol_taken, crate::proofs::Steps::symbol_reserved, crate::proofs::Steps::no_symbol))]
pub fn word(bytes: &[u8]) -> Result<(&[u8], &[u8]), ReadError>
    ensures symbol { (s : Side) (f : ForSymbol)
        → Goes result (term_reading bytes.now (at_symbol s f)) (λ x. term_reading x.1.now (after_symbol s x.0.now f)) }
    ensures shorter { IfOk result (λ x. length x.1.now < length bytes.now) }
{
    if !begins_with_letter(bytes) {
        return Err(ReadError::BadTerm);
    }
    let (word, rest) = bytes.split_at(word_len(bytes));
    if is_reserved_word(word) {
        return Err(ReadError::BadTerm);
    }
    Ok((word, rest))
}
