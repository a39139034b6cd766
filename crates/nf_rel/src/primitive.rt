//! Which polynomials are directions.

ghost use Rattle.std.specs.Prelude.{◌≡◌, map};
ghost use Rattle.nf_trees.specs.NormalTerms.{polynomial_of};
ghost use Rattle.nf_trees.specs.View.{term_in};
ghost use Rattle.nf_terms.specs.Normal.{part_with_atoms};
ghost use Rattle.nf_rel.specs.Literals.{begins_positive};
ghost use Rattle.nf_rel.specs.NormalLiterals.{lacks_constant, is_primitive};

use crate::divisors::divisor;
use nf_terms::constants::has_atoms;
use nf_terms::poly::Poly;
use nf_trees::tree::MonoTree;

/// Whether the first coefficient of a monomial with atoms is positive.
pub fn begins_positive(terms: &[(MonoTree, i128)]) -> bool
    ensures { result ≡ begins_positive (part_with_atoms (polynomial_of (map term_in terms.now))) }
{
    for (mono, coefficient) in terms {
        if has_atoms(mono) {
            return *coefficient > 0;
        }
    }
    true
}

// Whether each monomial has an atom.
fn lacks_constant(terms: &[(MonoTree, i128)]) -> bool
    ensures { result ≡ lacks_constant (polynomial_of (map term_in terms.now)) }
{
    for (mono, _coefficient) in terms {
        if !has_atoms(mono) {
            return false;
        }
    }
    true
}

/// Whether each monomial has an atom, the coefficients have no common divisor but 1, and the first is positive.
#[tactic(auto, using(crate::proofs::NormalForms::part_again))]
pub fn is_primitive(p: &Poly) -> bool
    ensures { result ≡ is_primitive p.now }
{
    let terms = p.monos();
    lacks_constant(terms) && divisor(terms) == 1 && begins_positive(terms)
}
