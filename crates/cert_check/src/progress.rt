//! Obligations one after another.

ghost use Rattle.std.specs.Prelude.{◌≡◌, ◌+◌, ◌<◌, ◌^◌, ◌∷◌, [], IfOk};
ghost use Rattle.nf_terms.specs.Computed.{Answers};
ghost use Rattle.cert_model.specs.Obligations.{Judged};
ghost use Rattle.cert_check.specs.Progress.{progress_from, verdict_of};
ghost use Rattle.cert_check.specs.View.{verdict_in, progress_in, NumberUpTo};

use crate::verdict::Verdict;
use cert_model::reason::Reason;
use nf_terms::stop::{NfStop, NoMemory};

/// All that were looked at hold, and the next one has this number; or one stops the check.
#[derive(Clone, Copy)]
pub enum Progress {
    Held(u32),
    Stopped(Verdict),
}

/// Where an obligation leads, by its number and by what was found: no reason why it fails, a reason, or an event.
/// The one refusal is out of memory.
pub fn advance(number: u32, judged: Result<Option<Reason>, NfStop>) -> Result<Progress, NoMemory>
    requires { number + 1 < 2 ^ 32 }
    ensures next { (r : Judged) → Answers judged r → IfOk result (λ p. progress_in p ≡ progress_from number (r ∷ [])) }
    ensures bound { IfOk result (NumberUpTo (number + 1)) }
{
    match judged {
        Ok(None) => Ok(Progress::Held(number + 1)),
        Ok(Some(reason)) => Ok(Progress::Stopped(Verdict::No {
            obligation: number,
            reason,
        })),
        Err(NfStop::Wide { .. }) => Ok(Progress::Stopped(Verdict::Wide { obligation: number })),
        Err(NfStop::Large { .. }) => Ok(Progress::Stopped(Verdict::Large { obligation: number })),
        Err(NfStop::NoMemory) => Err(NoMemory),
    }
}

/// What is answered where no obligation is left.
pub fn verdict(progress: Progress) -> Verdict
    ensures { verdict_in result ≡ verdict_of (progress_in progress) }
{
    match progress {
        Progress::Held(_) => Verdict::Yes,
        Progress::Stopped(verdict) => verdict,
    }
}
