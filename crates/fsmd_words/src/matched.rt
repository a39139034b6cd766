//! What was matched for one argument.

ghost use Rattle.std.specs.Prelude.{◌≡◌, IfOk, map, option_map, string_bytes};
ghost use Rattle.clap.specs.Words.{first_of, found_of, rows_of};
ghost use Rattle.fsmd_words.specs.AskedWords.{number_in_range, loops_of, step_limit_of, match_word, words_of};

use clap::ArgMatches;
use std::alloc::{AllocError, Global};

/// The word that was matched, or no text where there is none.
pub fn word(alloc: Global, found: &ArgMatches, id: &str) -> Result<String, AllocError>
    ensures { IfOk result (λ word. string_bytes word ≡ match_word id.now (rows_of (found_of found.now))) }
{
    match found.get_str(id) {
        Some(text) => String::from_str(alloc, text),
        None => Ok(String::new(alloc)),
    }
}

/// Two words that were matched, each or no text where there is none.
pub fn two_words(
    alloc: Global,
    found: &ArgMatches,
    first: &str,
    second: &str,
) -> Result<(String, String), AllocError>
    ensures { IfOk result (λ words. (string_bytes words.0 ≡ match_word first.now (rows_of (found_of found.now)))
        × (string_bytes words.1 ≡ match_word second.now (rows_of (found_of found.now)))) }
{
    Ok((word(alloc, found, first)?, word(alloc, found, second)?))
}

/// The word that was matched, if there is one.
pub fn optional_word(
    alloc: Global,
    found: &ArgMatches,
    id: &str,
) -> Result<Option<String>, AllocError>
    ensures { IfOk result (λ word. option_map string_bytes word ≡ first_of id.now (rows_of (found_of found.now))) }
{
    match found.get_str(id) {
        Some(text) => Ok(Some(String::from_str(alloc, text)?)),
        None => Ok(None),
    }
}

// Copies of texts.
fn copies(alloc: Global, texts: &[&str]) -> Result<Vec<String>, AllocError>
    ensures { IfOk result (λ words. map string_bytes words.items ≡ map (λ text. text.now) texts.now) }
{
    let mut words = Vec::new(alloc);
    for text in texts {
        words.push(String::from_str(alloc, text)?)?;
    }
    Ok(words)
}

/// The words that were matched, in their order, or none.
pub fn words(alloc: Global, found: &ArgMatches, id: &str) -> Result<Vec<String>, AllocError>
    ensures { IfOk result (λ words. map string_bytes words.items ≡ words_of id.now (rows_of (found_of found.now))) }
{
    match found.get_strs(id) {
        Some(texts) => copies(alloc, texts),
        None => Ok(Vec::new(alloc)),
    }
}

// The number, where it lies in the range: `clap` takes no other, but no clause of its matches says so.
fn steps_in_range(number: Option<u64>) -> u64
    ensures { result ≡ number_in_range 1 100000 10000 number }
{
    match number {
        Some(n) if 1 <= n && n <= 100_000 => n,
        _ => 10_000,
    }
}

/// The greatest number of steps.
pub fn steps(found: &ArgMatches) -> u64
    ensures { result ≡ step_limit_of (rows_of (found_of found.now)) }
{
    steps_in_range(found.get_one::<u64>("steps"))
}

// The number of loops, where it lies in the range, as above.
fn loops_in_range(number: Option<u32>) -> u32
    ensures { result ≡ number_in_range 1 300 1 number }
{
    match number {
        Some(n) if 1 <= n && n <= 300 => n,
        _ => 1,
    }
}

/// The number of loops.
pub fn loops(found: &ArgMatches) -> u32
    ensures { result ≡ loops_of (rows_of (found_of found.now)) }
{
    loops_in_range(found.get_one::<u32>("loops"))
}
