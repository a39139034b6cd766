//! The limits of an operation.

ghost use Rattle.std.specs.Prelude.{◌≤◌, OnOk};
ghost use Rattle.nf_terms.specs.Computed.{Answers};
ghost use Rattle.nf_terms.specs.TermLimits.{weight_limit, size_limit};
ghost use Rattle.nf_sums.specs.Operations.{within_limits};

use nf_terms::limits::{SIZE_LIMIT, WEIGHT_LIMIT};
use nf_terms::stop::NfStop;

/// Looks whether an operation of this weight and raw size, on sides of these weights, is narrow and small.
pub fn check_limits(left: u128, right: u128, weight: u128, units: u64) -> Result<(), NfStop>
    ensures event { Answers result (within_limits left right weight units) }
    ensures narrow { OnOk result (weight ≤ weight_limit) }
    ensures small { OnOk result (units ≤ size_limit) }
{
    if weight > WEIGHT_LIMIT {
        return Err(NfStop::Wide { left, right });
    }
    if units > SIZE_LIMIT {
        return Err(NfStop::Large { units, depth: 0 });
    }
    Ok(())
}
