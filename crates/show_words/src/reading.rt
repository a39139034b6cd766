//! What each command asks to see, by its matches.

ghost use Rattle.std.specs.Prelude.{◌≡◌, IfOk, IfErr, Option, Some, None};
ghost use Rattle.clap.specs.Words.{found_of, rows_of};
ghost use Rattle.fsmd_words.specs.declared.asking.AskError.TheVariants.{Usage};
ghost use Rattle.show_words.specs.ViewWords.{ShownView, certificate_of, machine_view_of, pair_view_of, trace_view_of};
ghost use Rattle.show_words.specs.ViewWords.{shown_view, shown_by};

use crate::asking::{Show, View};
use clap::ArgMatches;
use fsmd_words::asking::{Ask, AskError};
use fsmd_words::matched::{steps, two_words, word};
use std::alloc::{AllocError, Global};

fn machine(alloc: Global, found: &ArgMatches) -> Result<Show, AllocError>
    ensures { IfOk result (λ show. shown_view show ≡ machine_view_of (rows_of (found_of found.now))) }
{
    let ask = Ask::Fmt {
        machine: word(alloc, found, "machine")?,
    };
    Ok(Show {
        view: View::Machine,
        ask,
    })
}

// A view of two machines, of which `check` is asked.
fn pair(alloc: Global, view: View, found: &ArgMatches) -> Result<Show, AllocError>
    ensures { IfOk result (λ show. shown_view show ≡ pair_view_of view (rows_of (found_of found.now))) }
{
    let (left, right) = two_words(alloc, found, "left", "right")?;
    let ask = Ask::Check {
        left,
        right,
        cert: None,
        steps: 10_000,
    };
    Ok(Show { view, ask })
}

fn certificate(alloc: Global, found: &ArgMatches) -> Result<Show, AllocError>
    ensures { IfOk result (λ show. shown_view show ≡ certificate_of (rows_of (found_of found.now))) }
{
    let cert = word(alloc, found, "certificate")?;
    let (left, right) = two_words(alloc, found, "left", "right")?;
    let ask = Ask::Verify { left, right, cert };
    Ok(Show {
        view: View::Certificate,
        ask,
    })
}

fn trace(alloc: Global, found: &ArgMatches) -> Result<Show, AllocError>
    ensures { IfOk result (λ show. shown_view show ≡ trace_view_of (rows_of (found_of found.now))) }
{
    let (machine, inputs) = two_words(alloc, found, "machine", "inputs")?;
    let steps = steps(found);
    Ok(Show {
        view: View::Trace { steps },
        ask: Ask::Run {
            machine,
            inputs,
            steps,
        },
    })
}

// What is asked to be shown, with the refusal of memory as an error of words, so that the caller returns early with
// nothing in its hands.
fn show_or_refusal(show: Result<Show, AllocError>) -> Result<Show, AskError>
    ensures ok { (what : ShownView) → IfOk show (λ s. shown_view s ≡ what) → IfOk result (λ s. Some what ≡ Some (shown_view s)) }
    ensures usage { (what : Option ShownView) → IfErr result (λ error. error ≡ Usage → what ≡ None) }
{
    Ok(show?)
}

/// What the command of this name asks to see, by its matches. `Usage` comes only for a name that is no command's.
pub fn read(alloc: Global, name: &str, found: &ArgMatches) -> Result<Show, AskError>
    ensures ok { IfOk result (λ show. shown_by name.now (rows_of (found_of found.now)) ≡ Some (shown_view show)) }
    ensures usage { IfErr result (λ error. error ≡ Usage → shown_by name.now (rows_of (found_of found.now)) ≡ None) }
{
    match name {
        "machine" => show_or_refusal(machine(alloc, found)),
        "pair" => show_or_refusal(pair(alloc, View::Pair, found)),
        "why" => show_or_refusal(pair(alloc, View::Why, found)),
        "certificate" => show_or_refusal(certificate(alloc, found)),
        "inputs" => show_or_refusal(pair(alloc, View::Inputs, found)),
        "trace" => show_or_refusal(trace(alloc, found)),
        _ => Err(AskError::Usage),
    }
}
