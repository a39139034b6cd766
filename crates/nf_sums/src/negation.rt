//! Negations of lists of terms.

ghost use Rattle.std.specs.Prelude.{◌≡◌, ◌++◌, ◌∷◌, [], ◌≤◌, neg_ℤ, map, OnOk, IfOk, unsigned_abs};
ghost use Rattle.nf_trees.specs.NormalTerms.{polynomial_of};
ghost use Rattle.nf_trees.specs.View.{monomial_in, term_in};
ghost use Rattle.nf_trees.specs.Measures.{weight_of};
ghost use Rattle.nf_terms.specs.TermLimits.{weight_limit};
ghost use Rattle.nf_terms.specs.RawSums.{raw_negation};

use crate::copies::push_term_copy;
use nf_terms::stop::NoMemory;
use nf_trees::tree::MonoTree;
use std::alloc::Global;

//// Adds a copy of a monomial with the negation of a coefficient.
pub fn push_negated(
    alloc: Global,
    out: &mut Vec<(MonoTree, i128)>,
    mono: &MonoTree,
    coefficient: &i128,
) -> Result<(), NoMemory>
    requires { unsigned_abs coefficient.now ≤ weight_limit }
    ensures { OnOk result
        (map term_in out.new.items ≡ map term_in out.old.items ++ (monomial_in mono.now, neg_ℤ coefficient.now) ∷ []) }
{
    let negated = -*coefficient;
    push_term_copy(alloc, out, mono, &negated)
}

/// The negation of a list of terms.
pub fn negate_terms(
    alloc: Global,
    terms: &[(MonoTree, i128)],
) -> Result<Vec<(MonoTree, i128)>, NoMemory>
    requires { weight_of (polynomial_of (map term_in terms.now)) ≤ weight_limit }
    ensures { IfOk result (λ v. polynomial_of (map term_in v.items) ≡ raw_negation (polynomial_of (map term_in terms.now))) }
{
    let mut out = Vec::new(alloc);
    for (mono, coefficient) in terms {
        push_negated(alloc, &mut out, mono, coefficient)?;
    }
    Ok(out)
}
