//! The literal of a relation between two polynomials.

ghost use Rattle.std.specs.Prelude.{◌≡◌, ◌≢◌, ◌≤◌, ◌+◌, map, pos, neg_ℤ, IfOk, unsigned_abs};
ghost use Rattle.std.specs.Int.{int_div_euclid};
ghost use Rattle.nf_trees.specs.NormalTerms.{polynomial_of};
ghost use Rattle.nf_trees.specs.View.{term_in};
ghost use Rattle.nf_terms.specs.Normal.{IsNormal, part_with_atoms, constant_sum};
ghost use Rattle.nf_terms.specs.TermLimits.{weight_limit};
ghost use Rattle.nf_terms.specs.Computed.{Answers, Done, after};
ghost use Rattle.nf_sums.specs.Operations.{normal_difference};
ghost use Rattle.nf_rel.specs.Literals.{AtLeastZero, truth, form_holds, signed_number, bounded_literal};
ghost use Rattle.nf_rel.specs.Literals.{divide_coefficients as divided_form, common_divisor, literal_form, literal as literal_by};
ghost use Rattle.nf_rel.specs.Literals.{against_zero, one as one_form};
ghost use Rattle.nf_rel.specs.NormalLiterals.{IsNormalLiteral};
ghost use Rattle.nf_rel.specs.View.{literal_in, normal_literal_of, form_in};

use crate::divisors::{divide_monomials, divisor};
use crate::kind::Kind;
use crate::literals::{Bound, NLit};
use crate::primitive::begins_positive;
use fs_model::parts::Rel;
use nf_sums::sums::{neg, sub};
use nf_terms::constants::constant_part;
use nf_terms::poly::Poly;
use nf_terms::stop::{NfStop, NoMemory};
use nf_trees::tree::{MonoTree, PolyTree};
use std::alloc::Global;

/// How a polynomial is compared with 0.
#[derive(Clone, Copy)]
pub enum Form {
    AtLeastZero,
    IsZero,
    IsNotZero,
}

// Whether the form holds of a number.
fn truth(form: Form, number: &i128) -> NLit
    ensures { literal_in result ≡ truth (form_holds (form_in form) number.now) }
{
    let holds = match form {
        Form::AtLeastZero => *number >= 0,
        Form::IsZero => *number == 0,
        Form::IsNotZero => *number != 0,
    };
    if holds { NLit::True } else { NLit::False }
}

// A number as it is, or negated.
fn signed_number(positive: bool, number: &i128) -> i128
    requires { unsigned_abs number.now ≤ weight_limit }
    ensures { result ≡ signed_number positive number.now }
{
    if positive { *number } else { -*number }
}

// The bound of a direction: minus the floor of the constant over the divisor, negated where the direction is.
fn bound_of(positive: bool, divisor: &i128, constant: &i128) -> i128
    requires some { unsigned_abs divisor.now ≢ 0 }
    requires natural { divisor.now ≡ pos (unsigned_abs divisor.now) }
    requires small { unsigned_abs constant.now + 1 ≤ weight_limit }
    ensures { result ≡ signed_number positive (neg_ℤ (int_div_euclid constant.now (pos (unsigned_abs divisor.now)))) }
{
    let floor = constant.div_euclid(*divisor);
    signed_number(positive, &-floor)
}

// A direction with its bound.
fn bound_direction(form: Form, positive: bool, dir: Poly, divisor: &i128, constant: &i128) -> NLit
    requires some { unsigned_abs divisor.now ≢ 0 }
    requires natural { divisor.now ≡ pos (unsigned_abs divisor.now) }
    requires small { unsigned_abs constant.now + 1 ≤ weight_limit }
    ensures { literal_in result ≡ bounded_literal (form_in form) positive dir (unsigned_abs divisor.now) constant.now }
{
    let bound = bound_of(positive, divisor, constant);
    let rest = constant.rem_euclid(*divisor);
    match form {
        Form::AtLeastZero => {
            if positive {
                NLit::Is(Bound {
                    dir,
                    kind: Kind::Ge,
                    bound,
                })
            } else {
                NLit::Is(Bound {
                    dir,
                    kind: Kind::Le,
                    bound,
                })
            }
        }
        Form::IsZero => {
            if rest == 0 {
                NLit::Is(Bound {
                    dir,
                    kind: Kind::Eq,
                    bound,
                })
            } else {
                NLit::False
            }
        }
        Form::IsNotZero => {
            if rest == 0 {
                NLit::Is(Bound {
                    dir,
                    kind: Kind::Ne,
                    bound,
                })
            } else {
                NLit::True
            }
        }
    }
}

// The common divisor of the coefficients of monomials with atoms.
#[tactic(auto, using(crate::proofs::Directions::divisor_fits))]
fn divisor_of(p: &Poly) -> i128
    ensures divisor { result ≡ pos (common_divisor (part_with_atoms p.now)) }
    ensures small { unsigned_abs result ≤ weight_limit }
{
    let divisor = divisor(p.monos());
    divisor as i128
}

// The constant part, which is below the limit where there is a divisor.
fn constant_in(p: &Poly) -> i128
    ensures sum { result ≡ constant_sum p.now }
    ensures small { common_divisor (part_with_atoms p.now) ≢ 0 → unsigned_abs result + 1 ≤ weight_limit }
{
    constant_part(p.tree())
}

// The polynomial of a normal list of terms.
fn from_terms(monos: Vec<(MonoTree, i128)>) -> Poly
    requires { IsNormal (polynomial_of (map term_in monos.items)) }
    ensures { result ≡ polynomial_of (map term_in monos.items) }
{
    Poly::from_normal(PolyTree { monos })
}

// The direction of a polynomial with a divisor.
#[tactic(auto, using(crate::proofs::Directions::by_normal))]
fn direction(alloc: Global, p: &Poly, positive: bool, divisor: &i128) -> Result<Poly, NoMemory>
    requires divisor { divisor.now ≡ pos (common_divisor (part_with_atoms p.now)) }
    requires some { common_divisor (part_with_atoms p.now) ≢ 0 }
    requires small { unsigned_abs divisor.now ≤ weight_limit }
    ensures { IfOk result
        (λ d. d ≡ divided_form (part_with_atoms p.now) (signed_number positive (pos (common_divisor (part_with_atoms p.now))))) }
{
    let by = signed_number(positive, divisor);
    let monos = divide_monomials(alloc, p.monos(), &by)?;
    Ok(from_terms(monos))
}

// The literal of a polynomial that is compared with 0.
#[tactic(auto, using(crate::proofs::Directions::none_by))]
fn by_divisor(alloc: Global, form: Form, p: &Poly) -> Result<NLit, NoMemory>
    ensures { IfOk result (λ l. literal_in l ≡ literal_form (form_in form) p.now) }
{
    let divisor = divisor_of(p);
    let constant = constant_in(p);
    if divisor == 0 {
        return Ok(truth(form, &constant));
    }
    let positive = begins_positive(p.monos());
    let dir = direction(alloc, p, positive, &divisor)?;
    Ok(bound_direction(form, positive, dir, &divisor, &constant))
}

// The same, which is in normal form.
#[tactic(auto, using(crate::proofs::NormalForms::form_normal))]
fn literal_form(alloc: Global, form: Form, p: &Poly) -> Result<NLit, NfStop>
    ensures literal { Answers (normal_literal_of result) (Done (literal_form (form_in form) p.now)) }
    ensures normal { IfOk result (λ l. IsNormalLiteral (literal_in l)) }
{
    let _ = p.size(); // The call tells the proof that the polynomial is normal.
    Ok(by_divisor(alloc, form, p)?)
}

// A polynomial less 1.
fn less_one(alloc: Global, p: &Poly) -> Result<Poly, NfStop>
    ensures { Answers result (normal_difference p.now one_form) }
{
    let one = Poly::number(alloc, 1)?;
    sub(alloc, p, &one)
}

// The literal of a polynomial less 1, at least 0.
fn above_zero(alloc: Global, p: &Poly) -> Result<NLit, NfStop>
    ensures literal { Answers (normal_literal_of result)
        (after (normal_difference p.now one_form) (λ q. Done (literal_form AtLeastZero q))) }
    ensures normal { IfOk result (λ l. IsNormalLiteral (literal_in l)) }
{
    let less = less_one(alloc, p)?;
    literal_form(alloc, Form::AtLeastZero, &less)
}

// The literal of a relation between a difference and 0.
fn against_zero(alloc: Global, relation: Rel, p: &Poly) -> Result<NLit, NfStop>
    ensures literal { Answers (normal_literal_of result) (against_zero relation p.now) }
    ensures normal { IfOk result (λ l. IsNormalLiteral (literal_in l)) }
{
    match relation {
        Rel::Eq => literal_form(alloc, Form::IsZero, p),
        Rel::Ne => literal_form(alloc, Form::IsNotZero, p),
        Rel::Ge => literal_form(alloc, Form::AtLeastZero, p),
        Rel::Gt => above_zero(alloc, p),
        Rel::Le => {
            let negation = neg(alloc, p)?;
            literal_form(alloc, Form::AtLeastZero, &negation)
        }
        Rel::Lt => {
            let negation = neg(alloc, p)?;
            above_zero(alloc, &negation)
        }
    }
}

/// The literal of a relation between two polynomials, in normal form.
///
/// `Wide` and `Large` come exactly where they come first for the difference, or for what is left of it less 1, and
/// `NoMemory` where memory is refused.
pub fn literal(alloc: Global, relation: Rel, l: &Poly, r: &Poly) -> Result<NLit, NfStop>
    ensures literal { Answers (normal_literal_of result) (literal_by relation l.now r.now) }
    ensures normal { IfOk result (λ l. IsNormalLiteral (literal_in l)) }
{
    let difference = sub(alloc, l, r)?;
    against_zero(alloc, relation, &difference)
}
