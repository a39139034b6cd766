//! The bytes of each answer.

ghost use Rattle.std.specs.Prelude.{◌≡◌, ◌++◌, IfOk, codes, Some, string_bytes};
ghost use Rattle.fsmd_words.specs.AskedWords.{asked_of_ask};
ghost use Rattle.fsmd_replies.specs.Replies.{opening_line, equivalent_text, lines_of, reply, unstored_reply};

use crate::answer::Answer;
use crate::refusals::{
    cannot_read, cert_refused, check_refused, key_refused, not_json, over, text_refused, too_long,
};
use crate::words::word_of;
use fs_model::name::Name;
use fsmd_words::asking::Ask;
use std::alloc::{AllocError, Global};

/// The line that words print that ask nothing.
pub const USAGE: &str =
    "usage: fsmd check A B [--cert F] [--steps N] | verify A B C | run A I [--steps N] | replay A B I [--steps N] | fmt A | cuts A | generate N | compile P | schedule A U | bind A M | shrink A B I [--steps N] | chain A C B [C B ..]\n";

// The line of a name that is an input or output of one machine and not alike of the other.
fn interfaces(alloc: Global, name: &Name) -> Result<Vec<u8>, AllocError>
    ensures { IfOk result (λ bytes. bytes.items ≡ codes "bad input: interface: " ++ (name.now ++ codes "\n")) }
{
    let mut bytes = b"bad input: interface: ".to_vec(alloc)?;
    bytes.extend_from_slice(name.bytes())?;
    bytes.extend_from_slice(b"\n")?;
    Ok(bytes)
}

/// The line of machines of the same behaviour, which so many nodes show. The one refusal is out of memory.
pub fn equivalent_text(alloc: Global, nodes: u64) -> Result<String, AllocError>
    ensures { IfOk result (λ text. string_bytes text ≡ equivalent_text nodes) }
{
    format!(in alloc; "equivalent: {nodes} nodes\n")
}

/// The lines of an answer to what is asked. The one refusal is out of memory.
pub fn lines(alloc: Global, answer: &Answer, ask: &Ask) -> Result<Vec<u8>, AllocError>
    ensures { IfOk result (λ bytes. bytes.items ≡ lines_of answer.now (Some (asked_of_ask ask.now))) }
{
    let text = match answer {
        Answer::Text { lines }
        | Answer::Differs { lines }
        | Answer::Undecided { lines }
        | Answer::Link { lines, .. } => return lines.bytes().to_vec(alloc),
        Answer::Interfaces { name } => return interfaces(alloc, name),
        Answer::KeyRefused { file, fault, key } => {
            return key_refused(alloc, word_of(ask, *file), *fault, key.bytes());
        }
        Answer::Over { file, state, unit } => {
            return over(alloc, word_of(ask, *file), state.bytes(), *unit);
        }
        Answer::Usage => String::from_str(alloc, USAGE),
        Answer::Equivalent { nodes, .. } => equivalent_text(alloc, u64::from(*nodes)),
        Answer::TextRefused { file, fault } => text_refused(alloc, word_of(ask, *file), fault),
        Answer::CheckRefused { file, fault } => check_refused(alloc, word_of(ask, *file), fault),
        Answer::NotJson { file } => not_json(alloc, word_of(ask, *file)),
        Answer::CertRefused { file, error } => cert_refused(alloc, word_of(ask, *file), *error),
        Answer::TooLong { file, limit } => too_long(alloc, word_of(ask, *file), *limit),
        Answer::CannotRead { file } => cannot_read(alloc, word_of(ask, *file)),
    };
    Ok(text?.into_bytes())
}

// The line with which each reply to what is asked begins, if it begins with one.
fn opening(alloc: Global, ask: &Ask) -> Result<Vec<u8>, AllocError>
    ensures { IfOk result (λ bytes. bytes.items ≡ opening_line (Some (asked_of_ask ask.now))) }
{
    match ask {
        Ask::Generate { n } => Ok(format!(in alloc; "generated: {n} loops\n")?.into_bytes()),
        _ => Ok(Vec::new(alloc)),
    }
}

/// The reply of an answer to what is asked. The one refusal is out of memory.
pub fn reply(alloc: Global, answer: &Answer, ask: &Ask) -> Result<Vec<u8>, AllocError>
    ensures { IfOk result (λ bytes. bytes.items ≡ reply answer.now (Some (asked_of_ask ask.now))) }
{
    let mut bytes = opening(alloc, ask)?;
    let mut lines = lines(alloc, answer, ask)?;
    bytes.append(&mut lines)?;
    Ok(bytes)
}

/// The reply where the certificate could not be stored under a name. The one refusal is out of memory.
pub fn unstored_reply(alloc: Global, name: &str) -> Result<Vec<u8>, AllocError>
    ensures { IfOk result (λ bytes. bytes.items ≡ unstored_reply name.now) }
{
    let text = format!(in alloc; "fault: cannot write {name}\n")?;
    Ok(text.into_bytes())
}
