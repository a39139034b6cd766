//! What each view answers, from its files.

ghost use Rattle.std.specs.Prelude.{◌≡◌, ◌≤◌, None, Some, IfOk};
ghost use Rattle.fsmd_words.specs.AskedWords.{asked_of_ask};
ghost use Rattle.fs_pair.specs.Interfaces.{interface_fault};
ghost use Rattle.fs_pair.specs.Positions.{positions};
ghost use Rattle.show_machine_pictures.specs.Pictures.{picture_of};
ghost use Rattle.fsmd_replies.specs.declared.answer.Answer.TheVariants.{Text};
ghost use Rattle.fsmd_answers.specs.Follows.{Ends, OpensPair, OpensMachine, OpensInputs, OpensCertificate};
ghost use Rattle.fsmd_tool.specs.Calls.{call, OnlyRead, IsCorrectFrom, AnswersBy};
ghost use Rattle.show_words.specs.ViewWords.{IsViewWithinLimits, shown_view};
ghost use Rattle.show_tool.specs.Views.{IsOfPairView, IsOfCertificate, IsOfTrace, ShownFrom};

use crate::answers::{
    certificate_of, differing_machines, picture_machines, trace_machine, why_machines,
};
use fs_ast::machine::Machine;
use fs_base::outside::Files;
use fs_pair::positions::Pairing;
use fsmd_answers::pair::Pair;
use fsmd_answers::reading::Loaded;
use fsmd_answers::refused::{Refused, made_answer};
use fsmd_replies::answer::{Answer, Lines, Operand};
use fsmd_tool::load::{load, load_certificate, load_inputs, load_pair};
use fsmd_words::asking::Ask;
use show_machine_pictures::pictures::picture_of;
use show_words::asking::{Show, View};
use std::alloc::{AllocError, Global};

// What `machine` answers: the picture of a machine.
fn show_machine<F: Files>(alloc: Global, ask: &Ask, files: &mut F) -> Result<Answer, Refused>
    ensures answers { AnswersBy (IsCorrectFrom (OpensMachine (λ m. Ends (λ answer. answer ≡ Text (picture_of m)))) 0
        (call (Some (asked_of_ask ask.now)) (F.told files.old) (F.told files.new))) result }
    ensures only_read { OnlyRead (F.told files.old) (F.told files.new) }
{
    let Loaded { machine, .. } = load(alloc, Operand(0), ask, files)?;
    let lines = Lines::of(picture_of(alloc, &machine)?);
    Ok(Answer::Text { lines })
}

/// What is shown of two machines by their files alone.
#[derive(Clone, Copy)]
pub enum PairView {
    /// The picture of what a search comes to.
    Picture,
    /// What led to the answer that they get.
    Why,
    /// The file of inputs that show a difference.
    Inputs,
}

// What is answered of two machines.
fn answer_machines(alloc: Global, view: PairView, pair: &Pair) -> Result<Answer, AllocError>
    requires paired { pair.now.pairing ≡ positions pair.now.left pair.now.right }
    requires alike { interface_fault pair.now.left pair.now.right ≡ None }
    ensures { IfOk result (IsOfPairView view pair.now.left pair.now.right) }
{
    match view {
        PairView::Picture => picture_machines(alloc, pair),
        PairView::Why => why_machines(alloc, pair),
        PairView::Inputs => differing_machines(alloc, pair),
    }
}

// What `pair`, `why` and `inputs` answer.
fn show_pair<F: Files>(
    alloc: Global,
    view: PairView,
    ask: &Ask,
    files: &mut F,
) -> Result<Answer, Refused>
    ensures answers { AnswersBy (IsCorrectFrom (OpensPair (λ a b. Ends (IsOfPairView view a b))) 0
        (call (Some (asked_of_ask ask.now)) (F.told files.old) (F.told files.new))) result }
    ensures only_read { OnlyRead (F.told files.old) (F.told files.new) }
{
    let pair = load_pair(alloc, ask, files)?;
    made_answer(answer_machines(alloc, view, &pair))
}

// What a certificate of two machines answers to the file that spells it.
fn show_certificate_of<F: Files>(
    alloc: Global,
    ask: &Ask,
    left: &Machine,
    right: &Machine,
    pairing: &Pairing,
    files: &mut F,
) -> Result<Answer, Refused>
    requires paired { pairing.now ≡ positions left.now right.now }
    requires alike { interface_fault left.now right.now ≡ None }
    ensures answers { AnswersBy (IsCorrectFrom
        (OpensCertificate left.now right.now (λ nodes. Ends (IsOfCertificate left.now right.now nodes))) 2
        (call (Some (asked_of_ask ask.now)) (F.told files.old) (F.told files.new))) result }
    ensures only_read { OnlyRead (F.told files.old) (F.told files.new) }
{
    let cert = load_certificate(alloc, Operand(2), ask, left, right, pairing, files)?;
    made_answer(certificate_of(alloc, left, right, pairing, &cert))
}

// What `certificate` answers.
fn show_certificate<F: Files>(alloc: Global, ask: &Ask, files: &mut F) -> Result<Answer, Refused>
    ensures answers { AnswersBy (IsCorrectFrom
        (OpensPair (λ a b. OpensCertificate a b (λ nodes. Ends (IsOfCertificate a b nodes)))) 0
        (call (Some (asked_of_ask ask.now)) (F.told files.old) (F.told files.new))) result }
    ensures only_read { OnlyRead (F.told files.old) (F.told files.new) }
{
    let Pair {
        left,
        right,
        pairing,
    } = load_pair(alloc, ask, files)?;
    show_certificate_of(alloc, ask, &left, &right, &pairing, files)
}

// What the trace of a machine answers to the file of its inputs.
fn show_trace_of<F: Files>(
    alloc: Global,
    ask: &Ask,
    machine: &Machine,
    steps: u64,
    files: &mut F,
) -> Result<Answer, Refused>
    requires { 1 ≤ steps }
    ensures answers { AnswersBy (IsCorrectFrom (OpensInputs machine.now (λ ins. Ends (IsOfTrace steps machine.now ins))) 1
        (call (Some (asked_of_ask ask.now)) (F.told files.old) (F.told files.new))) result }
    ensures only_read { OnlyRead (F.told files.old) (F.told files.new) }
{
    let inputs = load_inputs(alloc, Operand(1), ask, machine, files)?;
    made_answer(trace_machine(alloc, machine, &inputs, steps))
}

// What `trace` answers.
fn show_trace<F: Files>(
    alloc: Global,
    steps: u64,
    ask: &Ask,
    files: &mut F,
) -> Result<Answer, Refused>
    requires { 1 ≤ steps }
    ensures answers { AnswersBy (IsCorrectFrom (OpensMachine (λ m. OpensInputs m (λ ins. Ends (IsOfTrace steps m ins)))) 0
        (call (Some (asked_of_ask ask.now)) (F.told files.old) (F.told files.new))) result }
    ensures only_read { OnlyRead (F.told files.old) (F.told files.new) }
{
    let Loaded { machine, .. } = load(alloc, Operand(0), ask, files)?;
    show_trace_of(alloc, ask, &machine, steps, files)
}

/// What a view answers.
pub fn answer_view<F: Files>(alloc: Global, show: &Show, files: &mut F) -> Result<Answer, Refused>
    requires { IsViewWithinLimits (shown_view show.now).view }
    ensures answers { AnswersBy (IsCorrectFrom (ShownFrom (shown_view show.now).view) 0
        (call (Some (shown_view show.now).asked) (F.told files.old) (F.told files.new))) result }
    ensures only_read { OnlyRead (F.told files.old) (F.told files.new) }
{
    match show.view {
        View::Machine => show_machine(alloc, &show.ask, files),
        View::Pair => show_pair(alloc, PairView::Picture, &show.ask, files),
        View::Why => show_pair(alloc, PairView::Why, &show.ask, files),
        View::Certificate => show_certificate(alloc, &show.ask, files),
        View::Inputs => show_pair(alloc, PairView::Inputs, &show.ask, files),
        View::Trace { steps } => show_trace(alloc, steps, &show.ask, files),
    }
}
