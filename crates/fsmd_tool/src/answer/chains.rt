//! What `chain` answers, from its files, link by link. Between links two machines are kept; a link takes the next one, a
//! certificate, and copies of two machines for the line of its verdict.

ghost use Rattle.std.specs.Prelude.{◌≡◌, ◌+◌, ◌*◌, ◌<◌, ◌≤◌, length, map, string_bytes, IfOk, OnOk, None, Some};
ghost use Rattle.std.specs.Result.{IfErr};
ghost use Rattle.fsmd_words.specs.AskedWords.{asked_of_ask};
ghost use Rattle.fs_pair.specs.Interfaces.{interface_fault};
ghost use Rattle.fs_pair.specs.Positions.{positions};
ghost use Rattle.cert_model.specs.View.{node_of};
ghost use Rattle.fsmd_replies.specs.AskedFiles.{operand, file_word_of};
ghost use Rattle.fsmd_answers.specs.MachineFiles.{SpellsMachine};
ghost use Rattle.fsmd_answers.specs.Refusals.{SpellsCertificate};
ghost use Rattle.fsmd_answers.specs.Refusing.{WhereAnswered};
ghost use Rattle.fsmd_answers.specs.Links.{links_of};
ghost use Rattle.fsmd_answers.specs.Follows.{OpensMachine, OpensLink, OpensLinks};
ghost use Rattle.fsmd_tool.specs.Calls.{call, OnlyRead, LoadsFrom, LoadsAtMost, MayHold, IsCorrectInOrder, AnswersBy};
ghost use Rattle.fsmd_tool.specs.Loading.{NothingFollows, RefusesLink};
ghost use Rattle.fsmd_tool.specs.HoldingLinks.{LinkHolds};

use crate::load::{Next, load, load_certificate, load_next};
use cert_model::cert::Cert;
use fs_ast::machine::Machine;
use fs_base::outside::Files;
use fsmd_answers::links::{add_link, at_link, chain_answer};
use fsmd_answers::reading::Loaded;
use fsmd_answers::refused::{Refused, made_answer};
use fsmd_replies::answer::{Answer, Operand};
use fsmd_words::asking::Ask;
use hls_shrink::Chain;
use std::alloc::{AllocError, Global};

// What the two files of a link spell: the next machine, with the same inputs and outputs as the last one, and a certificate of
// both.
#[derive(Drop)]
struct Link {
    next: Next,
    cert: Cert,
}

// Loads the two files of a link from a number on, or answers the first refusal.
fn load_link<F: Files>(
    alloc: Global,
    file: u32,
    ask: &Ask,
    last: &Machine,
    files: &mut F,
) -> Result<Link, Refused>
    requires { file < 128 }
    ensures spells { IfOk result
        (λ l. MayHold ((F.told files.old).holds (file_word_of (Some (asked_of_ask ask.now)) (operand file)))
        (SpellsMachine l.next.machine)) }
    ensures alike { IfOk result (λ l. interface_fault last.now l.next.machine ≡ None) }
    ensures paired { IfOk result (λ l. l.next.pairing ≡ positions last.now l.next.machine) }
    ensures certificate { IfOk result (λ l. MayHold
        ((F.told files.old).holds (file_word_of (Some (asked_of_ask ask.now)) (operand (file + 1))))
        (SpellsCertificate last.now l.next.machine (map node_of l.cert.nodes.items))) }
    ensures refused { IfErr result (WhereAnswered (IsCorrectInOrder (RefusesLink last.now) file
        (call (Some (asked_of_ask ask.now)) (F.told files.old) (F.told files.new)))) }
    ensures only_read { OnlyRead (F.told files.old) (F.told files.new) }
    ensures loads { OnOk result (LoadsFrom (Some (asked_of_ask ask.now)) file 2 (F.told files.old) (F.told files.new)) }
    ensures at_most { LoadsAtMost (Some (asked_of_ask ask.now)) file 2 (F.told files.old) (F.told files.new) }
{
    let next = load_next(alloc, Operand(file), ask, last, files)?;
    let cert = load_certificate(
        alloc,
        Operand(file + 1),
        ask,
        last,
        &next.machine,
        &next.pairing,
        files,
    )?;
    Ok(Link { next, cert })
}

// A chain of which so many links hold, with the next one, or the answer to this one: the first refusal, or the verdict that is
// not yes.
fn add_next<F: Files>(
    alloc: Global,
    ask: &Ask,
    held: u32,
    chain: Chain,
    files: &mut F,
) -> Result<Chain, Refused>
    requires { held < 64 }
    ensures first { IfOk result (λ longer. longer.first ≡ chain.first) }
    ensures holds { IfOk result (λ longer. LinkHolds (call (Some (asked_of_ask ask.now)) (F.told files.old) (F.told files.new))
        (2 * held + 1) chain.last (λ next. next ≡ longer.last)) }
    ensures refused { IfErr result (WhereAnswered (IsCorrectInOrder
        (OpensLink (Some (asked_of_ask ask.now)) (held + 1) chain.last (λ _. NothingFollows)) (2 * held + 1)
        (call (Some (asked_of_ask ask.now)) (F.told files.old) (F.told files.new)))) }
    ensures only_read { OnlyRead (F.told files.old) (F.told files.new) }
    ensures loads { OnOk result (LoadsFrom (Some (asked_of_ask ask.now)) (2 * held + 1) 2 (F.told files.old) (F.told files.new)) }
    ensures at_most { LoadsAtMost (Some (asked_of_ask ask.now)) (2 * held + 1) 2 (F.told files.old) (F.told files.new) }
{
    match load_link(alloc, 2 * held + 1, ask, chain.last(), files) {
        Ok(link) => {
            let Link { next, cert } = link;
            let Next { machine, pairing } = next;
            add_link(alloc, ask, held + 1, chain, machine, &pairing, &cert)
        }
        Err(refused) => Err(at_link(alloc, ask, held + 1, refused)),
    }
}

// A chain of one machine. The one refusal is out of memory.
fn chain_of(alloc: Global, first: Machine) -> Result<Chain, AllocError>
    ensures first { IfOk result (λ chain. chain.first ≡ first) }
    ensures last { IfOk result (λ chain. chain.last ≡ first) }
{
    match Chain::new(alloc, first) {
        Ok(chain) => Ok(chain),
        Err(_) => Err(AllocError),
    }
}

// What so many links behind the first machine of a chain answer.
fn links_from<F: Files>(
    alloc: Global,
    ask: &Ask,
    first: Machine,
    links: u32,
    files: &mut F,
) -> Result<Answer, Refused>
    requires { links ≤ 64 }
    ensures answers { AnswersBy (IsCorrectInOrder (OpensLinks (Some (asked_of_ask ask.now)) first first 0 links) 1
        (call (Some (asked_of_ask ask.now)) (F.told files.old) (F.told files.new))) result }
    ensures only_read { OnlyRead (F.told files.old) (F.told files.new) }
    ensures at_most { LoadsAtMost (Some (asked_of_ask ask.now)) 1 (2 * links) (F.told files.old) (F.told files.new) }
{
    let mut chain = chain_of(alloc, first)?;
    for held in 0..links {
        chain = add_next(alloc, ask, held, chain, files)?;
    }
    made_answer(chain_answer(alloc, &chain, links))
}

// How many links the words of a chain name behind its first machine.
fn link_count(words: &[String]) -> u32
    requires { length words.now ≤ 129 }
    ensures links { result ≡ links_of (map string_bytes words.now) }
    ensures few { result ≤ 64 }
{
    (words.len().saturating_sub(1) / 2) as u32
}

/// What `chain` answers to the files that its words name: how many machines it has, where all links hold, or the answer to the
/// first that does not.
pub fn chain_files<F: Files>(
    alloc: Global,
    ask: &Ask,
    words: &[String],
    files: &mut F,
) -> Result<Answer, Refused>
    requires { length words.now ≤ 129 }
    ensures answers { AnswersBy (IsCorrectInOrder
        (OpensMachine (λ m. OpensLinks (Some (asked_of_ask ask.now)) m m 0 (links_of (map string_bytes words.now)))) 0
        (call (Some (asked_of_ask ask.now)) (F.told files.old) (F.told files.new))) result }
    ensures only_read { OnlyRead (F.told files.old) (F.told files.new) }
    ensures at_most { LoadsAtMost (Some (asked_of_ask ask.now)) 0 (1 + 2 * links_of (map string_bytes words.now))
        (F.told files.old) (F.told files.new) }
{
    let Loaded { machine, .. } = load(alloc, Operand(0), ask, files)?;
    links_from(alloc, ask, machine, link_count(words), files)
}
