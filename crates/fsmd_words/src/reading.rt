//! What each command asks, by its matches.

ghost use Rattle.std.specs.Prelude.{◌≡◌, IfOk, IfErr, IfSome, Option, Some, None, false};
ghost use Rattle.clap.specs.Words.{found_of, rows_of};
ghost use Rattle.fsmd_words.specs.AskedWords.{Asked, IsByTurns, asked_of_ask, asked_by, bind_of, chain_of_rows, check_of};
ghost use Rattle.fsmd_words.specs.AskedWords.{compile_of, cuts_of, fmt_of, is_by_turns, last_by, one_word_by, replay_of, run_of};
ghost use Rattle.fsmd_words.specs.AskedWords.{schedule_of_rows, shrink_of, verify_of};
ghost use Rattle.fsmd_words.specs.declared.asking.AskError.TheVariants.{Usage};

use crate::asking::{Ask, AskError};
use crate::matched::{loops, optional_word, steps, two_words, word, words};
use clap::ArgMatches;
use std::alloc::{AllocError, Global};

fn check(alloc: Global, found: &ArgMatches) -> Result<Ask, AllocError>
    ensures { IfOk result (λ ask. asked_of_ask ask ≡ check_of (rows_of (found_of found.now))) }
{
    let cert = optional_word(alloc, found, "cert")?;
    let (left, right) = two_words(alloc, found, "left", "right")?;
    Ok(Ask::Check {
        left,
        right,
        cert,
        steps: steps(found),
    })
}

fn verify(alloc: Global, found: &ArgMatches) -> Result<Ask, AllocError>
    ensures { IfOk result (λ ask. asked_of_ask ask ≡ verify_of (rows_of (found_of found.now))) }
{
    let cert = word(alloc, found, "certificate")?;
    let (left, right) = two_words(alloc, found, "left", "right")?;
    Ok(Ask::Verify { left, right, cert })
}

fn run(alloc: Global, found: &ArgMatches) -> Result<Ask, AllocError>
    ensures { IfOk result (λ ask. asked_of_ask ask ≡ run_of (rows_of (found_of found.now))) }
{
    let (machine, inputs) = two_words(alloc, found, "machine", "inputs")?;
    Ok(Ask::Run {
        machine,
        inputs,
        steps: steps(found),
    })
}

fn replay(alloc: Global, found: &ArgMatches) -> Result<Ask, AllocError>
    ensures { IfOk result (λ ask. asked_of_ask ask ≡ replay_of (rows_of (found_of found.now))) }
{
    let inputs = word(alloc, found, "inputs")?;
    let (left, right) = two_words(alloc, found, "left", "right")?;
    Ok(Ask::Replay {
        left,
        right,
        inputs,
        steps: steps(found),
    })
}

fn fmt(alloc: Global, found: &ArgMatches) -> Result<Ask, AllocError>
    ensures { IfOk result (λ ask. asked_of_ask ask ≡ fmt_of (rows_of (found_of found.now))) }
{
    Ok(Ask::Fmt {
        machine: word(alloc, found, "machine")?,
    })
}

fn cuts(alloc: Global, found: &ArgMatches) -> Result<Ask, AllocError>
    ensures { IfOk result (λ ask. asked_of_ask ask ≡ cuts_of (rows_of (found_of found.now))) }
{
    Ok(Ask::Cuts {
        machine: word(alloc, found, "machine")?,
    })
}

fn compile(alloc: Global, found: &ArgMatches) -> Result<Ask, AllocError>
    ensures { IfOk result (λ ask. asked_of_ask ask ≡ compile_of (rows_of (found_of found.now))) }
{
    Ok(Ask::Compile {
        program: word(alloc, found, "program")?,
    })
}

fn schedule(alloc: Global, found: &ArgMatches) -> Result<Ask, AllocError>
    ensures { IfOk result (λ ask. asked_of_ask ask ≡ schedule_of_rows (rows_of (found_of found.now))) }
{
    let (machine, units) = two_words(alloc, found, "machine", "units")?;
    Ok(Ask::Schedule { machine, units })
}

fn bind(alloc: Global, found: &ArgMatches) -> Result<Ask, AllocError>
    ensures { IfOk result (λ ask. asked_of_ask ask ≡ bind_of (rows_of (found_of found.now))) }
{
    let (machine, binding) = two_words(alloc, found, "machine", "binding")?;
    Ok(Ask::Bind { machine, binding })
}

fn shrink(alloc: Global, found: &ArgMatches) -> Result<Ask, AllocError>
    ensures { IfOk result (λ ask. asked_of_ask ask ≡ shrink_of (rows_of (found_of found.now))) }
{
    let inputs = word(alloc, found, "inputs")?;
    let (left, right) = two_words(alloc, found, "left", "right")?;
    Ok(Ask::Shrink {
        left,
        right,
        inputs,
        steps: steps(found),
    })
}

fn chain(alloc: Global, found: &ArgMatches) -> Result<Ask, AllocError>
    ensures { IfOk result (λ ask. asked_of_ask ask ≡ chain_of_rows (rows_of (found_of found.now))) }
{
    Ok(Ask::Chain {
        files: words(alloc, found, "files")?,
    })
}

// What is asked, with the refusal of memory as an error of words, so that the caller returns early with nothing in its hands.
fn ask_or_refusal(ask: Result<Ask, AllocError>) -> Result<Ask, AskError>
    ensures ok { (what : Asked) → IfOk ask (λ a. asked_of_ask a ≡ what) → IfOk result (λ a. Some what ≡ Some (asked_of_ask a)) }
    ensures usage { (what : Option Asked) → IfErr result (λ error. error ≡ Usage → what ≡ None) }
{
    Ok(ask?)
}

// What the last commands ask.
fn last_command(alloc: Global, name: &str, found: &ArgMatches) -> Result<Ask, AskError>
    ensures ok { IfOk result (λ ask. last_by name.now (rows_of (found_of found.now)) ≡ Some (asked_of_ask ask)) }
    ensures usage { IfErr result (λ error. error ≡ Usage → last_by name.now (rows_of (found_of found.now)) ≡ None) }
{
    match name {
        "schedule" => ask_or_refusal(schedule(alloc, found)),
        "bind" => ask_or_refusal(bind(alloc, found)),
        "shrink" => ask_or_refusal(shrink(alloc, found)),
        "chain" => ask_or_refusal(chain(alloc, found)),
        _ => Err(AskError::Usage),
    }
}

// What the commands that take one word ask, and the last.
fn one_word_command(alloc: Global, name: &str, found: &ArgMatches) -> Result<Ask, AskError>
    ensures ok { IfOk result (λ ask. one_word_by name.now (rows_of (found_of found.now)) ≡ Some (asked_of_ask ask)) }
    ensures usage { IfErr result (λ error. error ≡ Usage → one_word_by name.now (rows_of (found_of found.now)) ≡ None) }
{
    match name {
        "fmt" => ask_or_refusal(fmt(alloc, found)),
        "cuts" => ask_or_refusal(cuts(alloc, found)),
        "generate" => Ok(Ask::Generate { n: loops(found) }),
        "compile" => ask_or_refusal(compile(alloc, found)),
        _ => last_command(alloc, name, found),
    }
}

// What the command of this name asks, by its matches. `Usage` comes only for a name that is no command's.
fn ask_of_command(alloc: Global, name: &str, found: &ArgMatches) -> Result<Ask, AskError>
    ensures ok { IfOk result (λ ask. asked_by name.now (rows_of (found_of found.now)) ≡ Some (asked_of_ask ask)) }
    ensures usage { IfErr result (λ error. error ≡ Usage → asked_by name.now (rows_of (found_of found.now)) ≡ None) }
{
    match name {
        "check" => ask_or_refusal(check(alloc, found)),
        "verify" => ask_or_refusal(verify(alloc, found)),
        "run" => ask_or_refusal(run(alloc, found)),
        "replay" => ask_or_refusal(replay(alloc, found)),
        _ => one_word_command(alloc, name, found),
    }
}

// The files of a chain are machine and certificate by turns, from a machine to a machine.
fn stands_by_turns(ask: &Ask) -> bool
    ensures { result ≡ is_by_turns (asked_of_ask ask.now) }
{
    match ask {
        Ask::Chain { files } => files.len() % 2 == 1,
        _ => true,
    }
}

/// What the command of this name asks, by its matches. `Usage` comes only for a name that is no command's, or where
/// the files of a chain are not machine and certificate by turns.
pub fn read(alloc: Global, name: &str, found: &ArgMatches) -> Result<Ask, AskError>
    ensures ok { IfOk result
        (λ ask. (asked_by name.now (rows_of (found_of found.now)) ≡ Some (asked_of_ask ask)) × IsByTurns (asked_of_ask ask)) }
    ensures usage { IfErr result (λ error. error ≡ Usage
        → IfSome (asked_by name.now (rows_of (found_of found.now))) (λ what. is_by_turns what ≡ false)) }
{
    let ask = ask_of_command(alloc, name, found)?;
    if stands_by_turns(&ask) {
        Ok(ask)
    } else {
        Err(AskError::Usage)
    }
}
