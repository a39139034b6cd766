//! Judges a certificate.

ghost use Rattle.std.specs.Prelude.{◌≡◌, IfOk, None, map};
ghost use Rattle.fs_pair.specs.Interfaces.{interface_fault};
ghost use Rattle.fs_pair.specs.Positions.{positions};
ghost use Rattle.cert_model.specs.Lawful.{IsLawful};
ghost use Rattle.cert_model.specs.View.{node_of};
ghost use Rattle.cert_check.specs.View.{verdict_in};
ghost use Rattle.fsmd_pair_answers.specs.Verdicts.{answer_to, IsJudged};

use cert_check::verdict::Verdict;
use cert_check::verify::verify;
use cert_model::cert::Cert;
use fs_ast::machine::Machine;
use fs_pair::positions::Pairing;
use fsmd_replies::answer::Answer;
use fsmd_replies::verdicts::{failure_line, undecided_line, yes_line};
use std::alloc::{AllocError, Global};

/// The answer that a verdict gets. The one refusal is out of memory.
pub fn answer_to(
    alloc: Global,
    a: &Machine,
    b: &Machine,
    p: &Pairing,
    verdict: Verdict,
) -> Result<Answer, AllocError>
    requires { p.now ≡ positions a.now b.now }
    ensures { IfOk result (λ answer. answer ≡ answer_to a.now b.now (verdict_in verdict)) }
{
    match verdict {
        Verdict::Yes => Ok(Answer::Text {
            lines: yes_line(alloc)?,
        }),
        Verdict::No { obligation, reason } => Ok(Answer::Differs {
            lines: failure_line(alloc, a, b, p, obligation, reason)?,
        }),
        Verdict::Wide { obligation } => Ok(Answer::Undecided {
            lines: undecided_line(alloc, obligation, "wide")?,
        }),
        Verdict::Large { obligation } => Ok(Answer::Undecided {
            lines: undecided_line(alloc, obligation, "large")?,
        }),
    }
}

/// What is answered of a lawful certificate of two machines with the same inputs and outputs: whether all its obligations
/// hold, or the first that does not. The one refusal is out of memory.
pub fn judge(
    alloc: Global,
    a: &Machine,
    b: &Machine,
    p: &Pairing,
    cert: &Cert,
) -> Result<Answer, AllocError>
    requires paired { p.now ≡ positions a.now b.now }
    requires interface { interface_fault a.now b.now ≡ None }
    requires lawful { IsLawful a.now b.now (map node_of cert.now.nodes.items) }
    ensures { IfOk result (IsJudged a.now b.now (map node_of cert.now.nodes.items)) }
{
    match verify(alloc, a, b, p, cert) {
        Ok(verdict) => answer_to(alloc, a, b, p, verdict),
        Err(_) => Err(AllocError),
    }
}
