//! The words that name the files of a command.

ghost use Rattle.std.specs.Prelude.{◌≡◌, ℕ, List, [], length, map, get_or, Some, option_map, string_bytes};
ghost use Rattle.fsmd_words.specs.AskedWords.{asked_of_ask};
ghost use Rattle.fsmd_replies.specs.AskedFiles.{in_chain, file_word_of, cert_of};

use crate::answer::Operand;
use fsmd_words::asking::Ask;

/// The word that names a file of what is asked, or no text where there is no such file. Takes no memory.
pub fn word_of(ask: &Ask, file: Operand) -> &str
    ensures { result.now ≡ file_word_of (Some (asked_of_ask ask.now)) file }
{
    let number = file.0;
    match ask {
        Ask::Fmt { machine: only } | Ask::Cuts { machine: only } | Ask::Compile { program: only } =>
            word_at(&[only.as_str()], number),
        Ask::Check {
            left: first,
            right: second,
            ..
        }
        | Ask::Run {
            machine: first,
            inputs: second,
            ..
        }
        | Ask::Schedule {
            machine: first,
            units: second,
        }
        | Ask::Bind {
            machine: first,
            binding: second,
        } => word_at(&[first.as_str(), second.as_str()], number),
        Ask::Verify {
            left,
            right,
            cert: third,
        }
        | Ask::Replay {
            left,
            right,
            inputs: third,
            ..
        }
        | Ask::Shrink {
            left,
            right,
            inputs: third,
            ..
        } => word_at(&[left.as_str(), right.as_str(), third.as_str()], number),
        Ask::Generate { .. } => "",
        Ask::Chain { files } => chain_word(files.as_slice(), number),
    }
}

// The word of a number, from 0, or no text where there is none.
fn word_at<'a>(words: &[&'a str], number: u32) -> &'a str
    ensures { result.now ≡ get_or (map (λ word. word.now) words.now) number [] }
{
    match words.get(number as usize) {
        Some(word) => *word,
        None => "",
    }
}

// The word for a file of a chain, by its number in the order of work, or no text where there is none.
fn chain_word(words: &[String], number: u32) -> &str
    ensures { result.now ≡ get_or (in_chain (map string_bytes words.now)) number [] }
{
    match words.get(place_in_chain(number as usize, words.len())) {
        Some(word) => word.as_str(),
        None => "",
    }
}

// The place, among so many words of a chain, of the word for a file by its number in the order of work. Of each link the
// word for the certificate stands before that for the machine, which is read first.
fn place_in_chain(number: usize, count: usize) -> usize
    ensures { (words : List (List ℕ)) → length words ≡ count → get_or words result [] ≡ get_or (in_chain words) number [] }
{
    if number == 0 || number >= count {
        number
    } else if number % 2 == 0 {
        number - 1
    } else if number + 1 < count {
        number + 1
    } else {
        number
    }
}

/// The word that names the file for a certificate, if there is one. Takes no memory.
pub fn cert_word(ask: &Ask) -> Option<&str>
    ensures { option_map (λ word. word.now) result ≡ cert_of (Some (asked_of_ask ask.now)) }
{
    match ask {
        Ask::Check {
            cert: Some(word),
            ..
        } => Some(word.as_str()),
        _ => None,
    }
}
