//! Stores the certificate of an answer, and puts the reply.

ghost use Rattle.std.specs.Prelude.{◌≡◌, ◌≤◌, IfOk, IsTrue, Some, None, length, option_map};
ghost use Rattle.std.specs.Result.{OnErr};
ghost use Rattle.fsmd_words.specs.AskedWords.{asked_of_ask};
ghost use Rattle.fs_base.specs.Outside.{HasRoom, NoneFell};
ghost use Rattle.fsmd_replies.specs.declared.answer.Answer.TheVariants.{Usage};
ghost use Rattle.fsmd_replies.specs.declared.answer.Status.TheVariants.{Fault};
ghost use Rattle.fsmd_replies.specs.Statuses.{status_of};
ghost use Rattle.fsmd_replies.specs.Replies.{reply, unstored_reply};
ghost use Rattle.fsmd_tool.specs.SinkReplies.{IsPut, put_between};
ghost use Rattle.fsmd_answers.specs.Refusing.{answer_in};
ghost use Rattle.fsmd_tool.specs.CertificateStores.{file_change, file_to_store, to_store, to_store_given, Leaves, NotStored};
ghost use Rattle.fsmd_tool.specs.Correct.{IsDone, IsDoneFor, IsDoneForGiven};

use fs_base::outside::{Files, Sink, StoreError};
use fs_base::put_all::put_all;
use fsmd_answers::refused::{Refused, answer_of};
use fsmd_replies::answer::{Answer, Status};
use fsmd_replies::reply::{USAGE, reply, unstored_reply};
use fsmd_replies::words::cert_word;
use fsmd_words::asking::Ask;
use std::alloc::{AllocError, Global};

// Whether so many bytes have room, where it is told how many have.
fn fits(room: Option<u64>, count: usize) -> bool
    ensures { IsTrue result → HasRoom room count }
{
    match room {
        Some(spare) => count as u64 <= spare,
        None => true,
    }
}

// Puts a reply that has room, and gives the status that is meant, or `Fault` where the sink failed.
fn put_fitting<S: Sink>(reply: &[u8], meant: Status, out: &mut S) -> Status
    requires { HasRoom (S.told out.old).spare (length reply.now) }
    ensures put { IsPut reply.now meant (put_between result (S.told out.old) (S.told out.new)) }
    ensures sink_counts { (S.told out.old).faults ≤ (S.told out.new).faults }
{
    match put_all(out, reply) {
        Ok(()) => meant,
        Err(_) => Status::Fault,
    }
}

/// Puts a reply, and gives the status that is meant, or `Fault` where the sink failed.
///
/// The error is out of memory: the reply is longer than the sink has room; then nothing was put.
pub fn put_whole<S: Sink>(reply: &[u8], meant: Status, out: &mut S) -> Result<Status, AllocError>
    ensures ok { IfOk result (λ status. IsPut reply.now meant (put_between status (S.told out.old) (S.told out.new))) }
    ensures err { OnErr result ((S.told out.new).got ≡ (S.told out.old).got) }
    ensures sink_counts { (S.told out.old).faults ≤ (S.told out.new).faults }
{
    if fits(out.room(), reply.len()) {
        Ok(put_fitting(reply, meant, out))
    } else {
        Err(AllocError)
    }
}

/// Puts how the program is used, and gives `Usage`, or `Fault` where the sink failed.
///
/// The error is out of memory: the line is longer than the sink has room; then nothing was put.
pub fn put_usage<S: Sink>(out: &mut S) -> Result<Status, AllocError>
    ensures ok { IfOk result
        (λ status. IsPut (reply Usage None) (status_of Usage) (put_between status (S.told out.old) (S.told out.new))) }
    ensures err { OnErr result ((S.told out.new).got ≡ (S.told out.old).got) }
    ensures sink_counts { (S.told out.old).faults ≤ (S.told out.new).faults }
{
    put_whole(USAGE.as_bytes(), Status::Usage, out)
}

// Puts that the certificate could not be stored under a name.
fn put_unstored<S: Sink>(alloc: Global, name: &str, out: &mut S) -> Result<Status, AllocError>
    ensures ok { IfOk result
        (λ status. IsPut (unstored_reply name.now) Fault (put_between status (S.told out.old) (S.told out.new))) }
    ensures err { OnErr result ((S.told out.new).got ≡ (S.told out.old).got) }
    ensures sink_counts { (S.told out.old).faults ≤ (S.told out.new).faults }
{
    let bytes = unstored_reply(alloc, name)?;
    put_whole(bytes.as_slice(), Status::Fault, out)
}

// Bytes that are to be stored under a name.
#[derive(Clone, Copy)]
struct NamedBytes<'a> {
    name: &'a str,
    bytes: &'a [u8],
}

// What is to be stored of an answer to what is asked: its certificate, under the word for it.
fn to_store<'a>(answer: &'a Answer, ask: &'a Ask) -> Option<NamedBytes<'a>>
    ensures { option_map (λ e. file_to_store e.name.now e.bytes.now) result
        ≡ to_store (Some (asked_of_ask ask.entry.now)) answer.entry.now }
{
    match (cert_word(ask), answer.certificate()) {
        (Some(name), Some(bytes)) => Some(NamedBytes { name, bytes }),
        _ => None,
    }
}

// Stores bytes under a name, and then puts a reply that has room; where they cannot be stored, puts that.
fn put_stored<F: Files, S: Sink>(
    alloc: Global,
    item: &NamedBytes<'_>,
    reply: &[u8],
    meant: Status,
    files: &mut F,
    out: &mut S,
) -> Result<Status, AllocError>
    requires { HasRoom (S.told out.old).spare (length reply.now) }
    ensures ok { IfOk result
        (λ status. IsDone (Some (file_to_store item.now.name.now item.now.bytes.now)) reply.now meant
        (file_change (F.told files.old) (F.told files.new)) (put_between status (S.told out.old) (S.told out.new))) }
    ensures err { OnErr result ((S.told out.new).got ≡ (S.told out.old).got) }
    ensures leaves { Leaves (Some (file_to_store item.now.name.now item.now.bytes.now))
        (file_change (F.told files.old) (F.told files.new)) }
    ensures unstored { OnErr result
        (NotStored (Some (file_to_store item.now.name.now item.now.bytes.now))
        (file_change (F.told files.old) (F.told files.new))) }
    ensures counts { NoneFell (F.told files.old).faults (F.told files.new).faults }
    ensures store_counts { NoneFell (F.told files.old).store_faults (F.told files.new).store_faults }
    ensures loaded { (F.told files.new).loaded ≡ (F.told files.old).loaded }
    ensures sink_counts { (S.told out.old).faults ≤ (S.told out.new).faults }
{
    match files.store(alloc, item.name, item.bytes) {
        Ok(()) => Ok(put_fitting(reply, meant, out)),
        Err(StoreError::Failed) => put_unstored(alloc, item.name, out),
        Err(StoreError::NoMemory) => Err(AllocError),
    }
}

/// Stores the certificate of an answer, where it has one and a file for it is named, and then puts the reply to what is asked;
/// gives the answer's status, or `Fault` where the certificate could not be stored, which is put in the reply's place, or where
/// the sink failed.
///
/// The error is out of memory, also where the reply is longer than the sink has room; then nothing was put, and nothing
/// stored but where that failed.
pub fn put_answer<F: Files, S: Sink>(
    alloc: Global,
    answer: &Answer,
    ask: &Ask,
    files: &mut F,
    out: &mut S,
) -> Result<Status, AllocError>
    ensures ok { IfOk result
        (λ status. IsDoneFor (Some (asked_of_ask ask.now)) answer.now (file_change (F.told files.old) (F.told files.new))
        (put_between status (S.told out.old) (S.told out.new))) }
    ensures err { OnErr result ((S.told out.new).got ≡ (S.told out.old).got) }
    ensures leaves { Leaves (to_store (Some (asked_of_ask ask.now)) answer.now)
        (file_change (F.told files.old) (F.told files.new)) }
    ensures unstored { OnErr result
        (NotStored (to_store (Some (asked_of_ask ask.now)) answer.now) (file_change (F.told files.old) (F.told files.new))) }
    ensures counts { NoneFell (F.told files.old).faults (F.told files.new).faults }
    ensures store_counts { NoneFell (F.told files.old).store_faults (F.told files.new).store_faults }
    ensures loaded { (F.told files.new).loaded ≡ (F.told files.old).loaded }
    ensures sink_counts { (S.told out.old).faults ≤ (S.told out.new).faults }
{
    let bytes = reply(alloc, answer, ask)?;
    if !fits(out.room(), bytes.len()) {
        return Err(AllocError);
    }
    match to_store(answer, ask) {
        Some(item) => put_stored(alloc, &item, bytes.as_slice(), answer.status(), files, out),
        None => Ok(put_fitting(bytes.as_slice(), answer.status(), out)),
    }
}

/// Stores and puts, as `put_answer` does, the answer that is given, or that is in a refusal.
///
/// The error is out of memory, also where there was none for an answer; then nothing was put, and nothing stored but where that
/// failed.
pub fn put_reply<F: Files, S: Sink>(
    alloc: Global,
    given: Result<Answer, Refused>,
    ask: &Ask,
    files: &mut F,
    out: &mut S,
) -> Result<Status, AllocError>
    ensures ok { IfOk result
        (λ status. IsDoneForGiven (Some (asked_of_ask ask.now)) (answer_in given)
        (file_change (F.told files.old) (F.told files.new)) (put_between status (S.told out.old) (S.told out.new))) }
    ensures err { OnErr result ((S.told out.new).got ≡ (S.told out.old).got) }
    ensures leaves { Leaves (to_store_given (Some (asked_of_ask ask.now)) (answer_in given))
        (file_change (F.told files.old) (F.told files.new)) }
    ensures unstored { OnErr result
        (NotStored (to_store_given (Some (asked_of_ask ask.now)) (answer_in given))
        (file_change (F.told files.old) (F.told files.new))) }
    ensures counts { NoneFell (F.told files.old).faults (F.told files.new).faults }
    ensures store_counts { NoneFell (F.told files.old).store_faults (F.told files.new).store_faults }
    ensures loaded { (F.told files.new).loaded ≡ (F.told files.old).loaded }
    ensures sink_counts { (S.told out.old).faults ≤ (S.told out.new).faults }
{
    let answer = answer_of(given)?;
    put_answer(alloc, &answer, ask, files, out)
}
