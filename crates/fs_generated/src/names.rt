//! Names of variables and states.

ghost use Rattle.std.specs.Prelude.{◌≡◌, ◌+◌, ◌%◌, ◌∷◌, [], true, IfOk};
ghost use Rattle.fs_model.specs.Words.{is_name};
ghost use Rattle.fs_generated.specs.Generated.{three_digits, entry_name, head_name, body_name};

use fs_model::name::{Name, NoMemory};
use std::alloc::Global;

// The name of bytes that are one.
pub fn name(alloc: Global, bytes: &[u8]) -> Result<Name, NoMemory>
    requires { is_name bytes.now ≡ true }
    ensures { IfOk result (λ n. n ≡ bytes.now) }
{
    match Name::of(alloc, bytes)? {
        Some(name) => Ok(name),
        None => unreachable!(),
    }
}

// The name of one letter.
pub fn short_name(alloc: Global, letter: u8) -> Result<Name, NoMemory>
    requires { is_name (letter ∷ []) ≡ true }
    ensures { IfOk result (λ n. n ≡ letter ∷ []) }
{
    name(alloc, [letter].as_slice())
}

// The byte of a number's last decimal digit.
fn last_digit(k: u32) -> u8
    ensures { result ≡ 48 + k % 10 }
{
    b'0' + (k % 10) as u8
}

// A letter behind which the last three digits of a number stand.
fn spell_name(alloc: Global, letter: u8, k: u32) -> Result<Name, NoMemory>
    requires { is_name (letter ∷ three_digits k) ≡ true }
    ensures { IfOk result (λ n. n ≡ letter ∷ three_digits k) }
{
    let bytes = [
        letter,
        last_digit(k / 100),
        last_digit(k / 10),
        last_digit(k),
    ];
    name(alloc, bytes.as_slice())
}

pub fn entry_name(alloc: Global, k: u32) -> Result<Name, NoMemory>
    ensures { IfOk result (λ n. n ≡ entry_name k) }
{
    spell_name(alloc, b'p', k)
}

pub fn head_name(alloc: Global, k: u32) -> Result<Name, NoMemory>
    ensures { IfOk result (λ n. n ≡ head_name k) }
{
    spell_name(alloc, b'h', k)
}

pub fn body_name(alloc: Global, k: u32) -> Result<Name, NoMemory>
    ensures { IfOk result (λ n. n ≡ body_name k) }
{
    spell_name(alloc, b'e', k)
}
