//! Answers to the links of chains.

ghost use Rattle.std.specs.Prelude.{◌≡◌, ◌≢◌, List, IfOk, None, Some, map};
ghost use Rattle.std.specs.Result.{OnOk, IfErr};
ghost use Rattle.fsmd_words.specs.AskedWords.{asked_of_ask};
ghost use Rattle.fs_pair.specs.Interfaces.{interface_fault};
ghost use Rattle.fs_pair.specs.Positions.{positions};
ghost use Rattle.cert_model.specs.Lawful.{IsLawful};
ghost use Rattle.cert_model.specs.Obligations.{Yes, verdict_on};
ghost use Rattle.cert_model.specs.View.{node_of};
ghost use Rattle.cert_bisimulation.specs.Tables.{Node};
ghost use Rattle.sym_facts.specs.Facts.{Fact};
ghost use Rattle.hls_shrink.specs.ChainStops.{IsStopOf};
ghost use Rattle.fsmd_replies.specs.declared.answer.Answer.TheVariants.{Link};
ghost use Rattle.fsmd_answers.specs.declared.refused.Refused.TheVariants.{Answered};
ghost use Rattle.fsmd_replies.specs.Statuses.{status_of};
ghost use Rattle.fsmd_replies.specs.ChainTexts.{link_lines};
ghost use Rattle.fsmd_pair_answers.specs.Verdicts.{IsJudged};
ghost use Rattle.fsmd_answers.specs.Links.{AtLink, IsOfChain};
ghost use Rattle.fsmd_answers.specs.Refusing.{WhereAnswered};

use crate::refused::Refused;
use cert_model::cert::Cert;
use fs_ast::machine::Machine;
use fs_model::name::NoMemory;
use fs_pair::positions::Pairing;
use fsmd_pair_answers::judge::answer_to;
use fsmd_replies::answer::Answer;
use fsmd_replies::chains::{chain_line, link_lines};
use fsmd_words::asking::Ask;
use hls_shrink::{Chain, ChainStop};
use std::alloc::{AllocError, Global};

// The refusal by an answer, told as that of the link of this number, from 1.
fn told_at(alloc: Global, ask: &Ask, link: u32, stop: &Answer) -> Refused
    ensures { WhereAnswered
        (λ answer. answer ≡ Link (status_of stop.now) (link_lines (Some (asked_of_ask ask.now)) link stop.now)) result }
{
    match link_lines(alloc, ask, link, stop) {
        Ok(lines) => Refused::Answered(Answer::Link {
            status: stop.status(),
            lines,
        }),
        Err(_) => Refused::NoMemory,
    }
}

/// A refusal, told as that of the link of this number, from 1: its lines behind `link K: `, with its status.
pub fn at_link(alloc: Global, ask: &Ask, link: u32, refused: Refused) -> Refused
    ensures { WhereAnswered (AtLink (Some (asked_of_ask ask.now)) link (λ stop. refused ≡ Answered stop)) result }
{
    match refused {
        Refused::Answered(stop) => told_at(alloc, ask, link, &stop),
        Refused::NoMemory => Refused::NoMemory,
    }
}

// Copies of two machines. The one refusal is out of memory.
fn copies(alloc: Global, a: &Machine, b: &Machine) -> Result<(Machine, Machine), NoMemory>
    ensures left { IfOk result (λ copies. copies.0 ≡ a.now) }
    ensures right { IfOk result (λ copies. copies.1 ≡ b.now) }
{
    let left = a.try_clone(alloc)?;
    let right = b.try_clone(alloc)?;
    Ok((left, right))
}

// The refusal of the link of this number, from 1, between two machines at which a chain stops.
fn refused_link(
    alloc: Global,
    ask: &Ask,
    link: u32,
    last: &Machine,
    next: &Machine,
    pairing: &Pairing,
    stop: ChainStop,
) -> Refused
    requires { pairing.now ≡ positions last.now next.now }
    ensures { (nodes : List (Node Fact)) → IsStopOf (verdict_on last.now next.now nodes) stop → WhereAnswered (λ answer.
        (verdict_on last.now next.now nodes ≢ Yes)
        × AtLink (Some (asked_of_ask ask.now)) link (IsJudged last.now next.now nodes) answer) result }
{
    match stop {
        ChainStop::Verdict(verdict) => match answer_to(alloc, last, next, pairing, verdict) {
            Ok(answer) => at_link(alloc, ask, link, Refused::Answered(answer)),
            Err(_) => Refused::NoMemory,
        },
        ChainStop::NoMemory => Refused::NoMemory,
    }
}

/// A chain with one machine more, where all obligations of a lawful certificate of its last machine and the next hold. Else the
/// answer is that of `judge`, told as that of the link of this number, from 1: `Answered`. `NoMemory`: out of memory.
pub fn add_link(
    alloc: Global,
    ask: &Ask,
    link: u32,
    chain: Chain,
    next: Machine,
    pairing: &Pairing,
    cert: &Cert,
) -> Result<Chain, Refused>
    requires paired { pairing.now ≡ positions chain.last next }
    requires interface { interface_fault chain.last next ≡ None }
    requires lawful { IsLawful chain.last next (map node_of cert.now.nodes.items) }
    ensures first { IfOk result (λ longer. longer.first ≡ chain.first) }
    ensures last { IfOk result (λ longer. longer.last ≡ next) }
    ensures holds { OnOk result (verdict_on chain.last next (map node_of cert.now.nodes.items) ≡ Yes) }
    ensures fails { IfErr result (WhereAnswered (λ answer.
        (verdict_on chain.last next (map node_of cert.now.nodes.items) ≢ Yes)
        × AtLink (Some (asked_of_ask ask.now)) link (IsJudged chain.last next (map node_of cert.now.nodes.items)) answer)) }
{
    let (last, copy) = copies(alloc, chain.last(), &next)?;
    match chain.add(alloc, next, pairing, cert) {
        Ok(longer) => Ok(longer),
        Err(stop) => Err(refused_link(alloc, ask, link, &last, &copy, pairing, stop)),
    }
}

/// The answer to a chain whose links hold, so many: how many machines it has. The one refusal is out of memory.
pub fn chain_answer(alloc: Global, chain: &Chain, links: u32) -> Result<Answer, AllocError>
    ensures { IfOk result (IsOfChain chain.now.first chain.now.last links) }
{
    let _last = chain.last(); // The call tells the proof that the last machine has the behaviour of the first one.
    Ok(Answer::Text {
        lines: chain_line(alloc, u64::from(links) + 1)?,
    })
}
