//! Division of integers that truncates toward zero and is total; laws of integers, and lemmas on tests, numbers, lists and
//! options that proofs of many crates cite. `fs_model` passes all of them on.
//!
//! Promises: quotient and remainder, total; laws of `+`, `*` and division.
//!
//! Rules: `specs/Division`, `src/laws`; the lemmas stand in `proofs/`.
#![tactic(auto)]

pub mod laws;

ghost use Rattle.std.specs.Prelude.{◌≡◌, SomeIff, FitsSigned};
ghost use Rattle.std.specs.Int.{w128};
ghost use Rattle.base_laws.specs.Division.{quotient as quotient_of, remainder as remainder_of};

/// The quotient, truncated toward zero, and 0 for the divisor 0.
///
/// `None` comes exactly where the quotient is outside `i128`: for the least `i128` by -1.
pub fn quotient(dividend: i128, divisor: i128) -> Option<i128>
    ensures { SomeIff result (FitsSigned w128 (quotient_of dividend divisor)) (quotient_of dividend divisor) }
{
    if divisor == 0 {
        Some(0)
    } else {
        dividend.checked_div(divisor)
    }
}

/// What the quotient leaves: it has the sign of the dividend, and is 0 for the divisor 0.
///
/// It always lies in `i128`.
pub fn remainder(dividend: i128, divisor: i128) -> i128
    ensures { result ≡ remainder_of dividend divisor }
{
    if divisor == 0 || divisor == -1 {
        0
    } else {
        dividend % divisor
    }
}
