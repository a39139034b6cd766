//! Names of variables and states.

ghost use Rattle.std.specs.Prelude.{◌≡◌, ℕ, false, IsTrue, IfOk, MatchOption, drop};
ghost use Rattle.std.specs.List.{list_all, list_any};
ghost use Rattle.std.specs.Str.{bytes_eq};
ghost use Rattle.std.proofs.Common.{rules};
ghost use Rattle.std.specs.Cmp.Rules.{comparing};
ghost use Rattle.std.specs.Cmp.{partial_order_from_own_ties};
ghost use Rattle.std.specs.Ordering.{nat_cmp, as_partial_cmp};
ghost use Rattle.std.specs.Cmp.Lexicographic.{slice_cmp};
ghost use Rattle.fs_model.specs.Words.{is_letter, is_digit, is_word_byte, is_word, is_reserved, reserved_words};
ghost use Rattle.fs_model.specs.Words.{is_name};

use crate::limits::NAME_LIMIT;
use std::alloc::Global;
use std::cmp::Ordering;
use std::hash::{Hash, Hasher};
use std::marker::Model;

/// Whether a word may begin with the byte: a letter or `_`.
pub fn is_letter(b: u8) -> bool
    ensures { result ≡ is_letter b }
{
    (b'a' <= b && b <= b'z') || (b'A' <= b && b <= b'Z') || b == b'_'
}

/// Whether the byte is a decimal digit.
pub fn is_digit(b: u8) -> bool
    ensures { result ≡ is_digit b }
{
    b'0' <= b && b <= b'9'
}

/// Whether a word may go on with the byte: a letter, a digit or `_`.
pub fn is_word_byte(b: u8) -> bool
    ensures { result ≡ is_word_byte b }
{
    is_letter(b) || is_digit(b)
}

// Whether all bytes are such as a word goes on with.
fn are_word_bytes(bytes: &[u8]) -> bool
    ensures { result ≡ list_all is_word_byte bytes.now }
{
    bytes.iter().all(|b| is_word_byte(*b))
}

/// Whether the bytes are one word, of any length.
pub fn is_word(bytes: &[u8]) -> bool
    ensures { result ≡ is_word bytes.now }
{
    match bytes {
        [] => false,
        [first, rest @ ..] => is_letter(*first) && are_word_bytes(rest),
    }
}

// Whether the bytes are one of the reserved words from the seventh on.
fn is_later_reserved(bytes: &[u8]) -> bool
    ensures { result ≡ list_any (bytes_eq bytes.now) (drop 6 reserved_words) }
{
    bytes == b"state".as_slice()
        || bytes == b"when".as_slice()
        || bytes == b"goto".as_slice()
        || bytes == b"start".as_slice()
        || bytes == b"done".as_slice()
        || bytes == b"emit".as_slice()
        || bytes == b"port".as_slice()
}

/// Whether the bytes are a word of the language, which is not a name.
pub fn is_reserved(bytes: &[u8]) -> bool
    ensures { result ≡ is_reserved bytes.now }
{
    bytes == b"fsmd".as_slice()
        || bytes == b"input".as_slice()
        || bytes == b"output".as_slice()
        || bytes == b"local".as_slice()
        || bytes == b"array".as_slice()
        || bytes == b"reset".as_slice()
        || is_later_reserved(bytes)
}

/// Whether the bytes are a name: a word of at most 32 bytes that is not reserved.
pub fn is_name(bytes: &[u8]) -> bool
    ensures { result ≡ is_name bytes.now }
{
    is_word(bytes) && bytes.len() <= NAME_LIMIT && !is_reserved(bytes)
}

/// A name: a word of at most 32 bytes that is not reserved. Contracts see its bytes.
#[derive(Drop)]
pub struct Name {
    bytes: Vec<u8>,
}

impl Model for Name {
    ghost use Rattle.std.specs.Prelude.{ℕ, List, IsTrue};
    ghost use Rattle.fs_model.specs.Words.{is_name};

    ghost Value = { List ℕ };

    ghost view = { λ n. n.bytes.items };

    ghost invariant = { λ n. IsTrue (is_name n.bytes.items) };
}

/// Memory was refused.
#[derive(Clone, Copy)]
pub struct NoMemory;

impl Name {
    /// The name of these bytes. `None` exactly when they are not a name.
    pub fn of(alloc: Global, bytes: &[u8]) -> Result<Option<Name>, NoMemory>
        ensures { IfOk result
            (λ o. MatchOption o (is_name bytes.now ≡ false) (λ n. (n ≡ bytes.now) × IsTrue (is_name bytes.now))) }
    {
        if !is_name(bytes) {
            return Ok(None);
        }
        let bytes = bytes.to_vec(alloc)?;
        Ok(Some(Name { bytes }))
    }

    /// The bytes, which are a name. Takes no memory.
    pub fn bytes(&self) -> &[u8]
        ensures bytes { result.now ≡ self.now }
        ensures word { IsTrue (is_name self.now) }
    {
        self.bytes.as_slice()
    }

    /// A copy. The one refusal is out of memory.
    pub fn try_clone(&self, alloc: Global) -> Result<Name, NoMemory>
        ensures { IfOk result (λ n. n ≡ self.now) }
    {
        let bytes = self.bytes.as_slice().to_vec(alloc)?;
        Ok(Name { bytes })
    }
}

impl PartialEq for Name {
    ghost eq = { bytes_eq };

    ghost laws = { Prim.search (comparing, rules) };

    fn eq(&self, other: &Name) -> bool {
        self.bytes.as_slice() == other.bytes.as_slice()
    }
}

impl Eq for Name {
    ghost laws = { Prim.search (comparing, rules) };
}

impl Hash for Name {
    ghost use Rattle.std.specs.Hash as fed;

    ghost hash_input = { fed.str };

    ghost respects_eq = { Prim.search (comparing, rules) };

    fn hash<H: Hasher>(&self, state: &mut H) {
        state.write(self.bytes.as_slice());
        state.write_u8(0xff);
    }
}

impl Ord for Name {
    ghost cmp = { slice_cmp nat_cmp };

    ghost total = { Prim.search (comparing, rules) };

    ghost matches_partial_cmp = { Prim.search (comparing, rules) };

    ghost matches_eq = { Prim.search (comparing, rules) };

    fn cmp(&self, other: &Name) -> Ordering {
        self.bytes.as_slice().cmp(&other.bytes.as_slice())
    }
}

impl PartialOrd for Name {
    ghost partial_cmp = { as_partial_cmp (slice_cmp nat_cmp) };

    ghost laws = { partial_order_from_own_ties (Prim.search (comparing, rules)) (Prim.search (comparing, rules)) };

    fn partial_cmp(&self, other: &Name) -> Option<Ordering> {
        Some(self.cmp(other))
    }
}
