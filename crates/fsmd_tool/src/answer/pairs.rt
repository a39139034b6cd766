//! What the commands of two machines answer, from their files.

ghost use Rattle.std.specs.Prelude.{◌≡◌, None, ◌≤◌, Some, IsTrue, IfOk, Err};
ghost use Rattle.std.specs.Result.{IfErr};
ghost use Rattle.fsmd_words.specs.AskedWords.{asked_of_ask};
ghost use Rattle.fs_pair.specs.Interfaces.{interface_fault};
ghost use Rattle.fs_pair.specs.Positions.{positions};
ghost use Rattle.hls_shrink.specs.Given.{has_no_input_port};
ghost use Rattle.fsmd_answers.specs.Verdicts.{IsJudged};
ghost use Rattle.fsmd_answers.specs.Replays.{IsOfReplay};
ghost use Rattle.fsmd_answers.specs.Shrinks.{IsOfShrink};
ghost use Rattle.fsmd_answers.specs.Follows.{Ends, OpensInputs, OpensCertificate};
ghost use Rattle.fsmd_tool.specs.Calls.{call, OnlyRead, LoadsAtMost, IsCorrectInOrder, AnswersBy};
ghost use Rattle.fsmd_tool.specs.PairCommands.{FollowsFor, files_behind, MayStep};

use crate::load::{load_certificate, load_inputs};
use fs_base::outside::Files;
use fsmd_answers::compare::compare;
use fsmd_answers::judge::judge;
use fsmd_answers::pair::Pair;
use fsmd_answers::refused::{Refused, made_answer};
use fsmd_answers::runs::replay_machines;
use fsmd_answers::shrinks::shrink_inputs;
use fsmd_replies::answer::{Answer, Operand};
use fsmd_words::asking::Ask;
use std::alloc::Global;

/// A command on two machines with the same inputs and outputs.
#[derive(Clone, Copy)]
pub enum PairCommand {
    /// What they get, of runs of at most so many steps, with the text of the certificate where `keeps` says so.
    Check { steps: u64, keeps: bool },
    /// Whether a certificate shows that they have the same behaviour.
    Verify,
    /// The ends of their runs of at most so many steps from the same inputs.
    Replay { steps: u64 },
    /// Small inputs that still show a difference of them within so many steps, where those of the file show one, and else what
    /// `Replay` answers.
    Shrink { steps: u64 },
}

// What a certificate of two machines answers to the file that spells it.
fn verify_from<F: Files>(
    alloc: Global,
    ask: &Ask,
    pair: &Pair,
    files: &mut F,
) -> Result<Answer, Refused>
    requires paired { pair.now.pairing ≡ positions pair.now.left pair.now.right }
    requires alike { interface_fault pair.now.left pair.now.right ≡ None }
    ensures answers { AnswersBy (IsCorrectInOrder
        (OpensCertificate pair.now.left pair.now.right (λ nodes. Ends (IsJudged pair.now.left pair.now.right nodes))) 2
        (call (Some (asked_of_ask ask.now)) (F.told files.old) (F.told files.new))) result }
    ensures only_read { OnlyRead (F.told files.old) (F.told files.new) }
    ensures at_most { LoadsAtMost (Some (asked_of_ask ask.now)) 2 1 (F.told files.old) (F.told files.new) }
{
    let Pair {
        left,
        right,
        pairing,
    } = pair;
    let cert = load_certificate(alloc, Operand(2), ask, left, right, pairing, files)?;
    made_answer(judge(alloc, left, right, pairing, &cert))
}

// What runs of two machines with the same interface answer to the file of their inputs.
fn replay_from<F: Files>(
    alloc: Global,
    ask: &Ask,
    pair: &Pair,
    steps: u64,
    files: &mut F,
) -> Result<Answer, Refused>
    requires alike { interface_fault pair.now.left pair.now.right ≡ None }
    requires steps { 1 ≤ steps }
    ensures answers { AnswersBy (IsCorrectInOrder
        (OpensInputs pair.now.left (λ ins. Ends (IsOfReplay steps pair.now.left pair.now.right ins))) 2
        (call (Some (asked_of_ask ask.now)) (F.told files.old) (F.told files.new))) result }
    ensures only_read { OnlyRead (F.told files.old) (F.told files.new) }
    ensures at_most { LoadsAtMost (Some (asked_of_ask ask.now)) 2 1 (F.told files.old) (F.told files.new) }
{
    let inputs = load_inputs(alloc, Operand(2), ask, &pair.left, files)?;
    made_answer(replay_machines(alloc, pair, &inputs, steps))
}

// What two machines with the same interface answer to the file of inputs that are to be made small.
fn shrink_from<F: Files>(
    alloc: Global,
    ask: &Ask,
    pair: &Pair,
    steps: u64,
    files: &mut F,
) -> Result<Answer, Refused>
    requires ports { IsTrue (has_no_input_port pair.now.left) }
    requires alike { interface_fault pair.now.left pair.now.right ≡ None }
    requires steps { 1 ≤ steps }
    ensures answers { AnswersBy (IsCorrectInOrder
        (OpensInputs pair.now.left (λ ins. Ends (IsOfShrink steps pair.now.left pair.now.right ins))) 2
        (call (Some (asked_of_ask ask.now)) (F.told files.old) (F.told files.new))) result }
    ensures only_read { OnlyRead (F.told files.old) (F.told files.new) }
    ensures at_most { LoadsAtMost (Some (asked_of_ask ask.now)) 2 1 (F.told files.old) (F.told files.new) }
{
    let inputs = load_inputs(alloc, Operand(2), ask, &pair.left, files)?;
    made_answer(shrink_inputs(alloc, pair, &inputs, steps))
}

// What a command answers to two machines with the same inputs and outputs, from the files behind theirs.
fn answer_behind<F: Files>(
    alloc: Global,
    ask: &Ask,
    command: PairCommand,
    pair: &Pair,
    files: &mut F,
) -> Result<Answer, Refused>
    requires steps { MayStep command }
    requires paired { pair.now.pairing ≡ positions pair.now.left pair.now.right }
    requires alike { interface_fault pair.now.left pair.now.right ≡ None }
    requires ports { IsTrue (has_no_input_port pair.now.left) }
    ensures answers { AnswersBy (IsCorrectInOrder (FollowsFor command pair.now.left pair.now.right) 2
        (call (Some (asked_of_ask ask.now)) (F.told files.old) (F.told files.new))) result }
    ensures only_read { OnlyRead (F.told files.old) (F.told files.new) }
    ensures at_most { LoadsAtMost (Some (asked_of_ask ask.now)) 2 (files_behind command) (F.told files.old) (F.told files.new) }
{
    match command {
        PairCommand::Check { steps, keeps } => made_answer(compare(alloc, pair, steps, keeps)),
        PairCommand::Verify => verify_from(alloc, ask, pair, files),
        PairCommand::Replay { steps } => replay_from(alloc, ask, pair, steps, files),
        PairCommand::Shrink { steps } => shrink_from(alloc, ask, pair, steps, files),
    }
}

/// What a command on two machines answers where this was loaded of their files: what the machines and the file behind theirs,
/// where it has one, call for; or the refusal of theirs.
pub fn answer_pair<F: Files>(
    alloc: Global,
    ask: &Ask,
    command: PairCommand,
    loaded: Result<Pair, Refused>,
    files: &mut F,
) -> Result<Answer, Refused>
    requires steps { MayStep command }
    requires paired { IfOk loaded (λ p. p.pairing ≡ positions p.left p.right) }
    requires alike { IfOk loaded (λ p. interface_fault p.left p.right ≡ None) }
    requires ports { IfOk loaded (λ p. IsTrue (has_no_input_port p.left)) }
    ensures answers { IfOk loaded (λ p. AnswersBy (IsCorrectInOrder (FollowsFor command p.left p.right) 2
        (call (Some (asked_of_ask ask.now)) (F.told files.old) (F.told files.new))) result) }
    ensures refused { IfErr loaded (λ refused. result ≡ Err refused) }
    ensures none { IfErr loaded (λ _. F.told files.new ≡ F.told files.old) }
    ensures only_read { OnlyRead (F.told files.old) (F.told files.new) }
    ensures at_most { LoadsAtMost (Some (asked_of_ask ask.now)) 2 (files_behind command) (F.told files.old) (F.told files.new) }
{
    match loaded {
        Ok(pair) => answer_behind(alloc, ask, command, &pair, files),
        Err(refused) => Err(refused),
    }
}
