//! Substitution in forms and in literals, and what of a fact a post does not entail.

ghost use Rattle.std.specs.Prelude.{◌≡◌, true, IfOk};
ghost use Rattle.std.specs.List.{list_all};
ghost use Rattle.nf_terms.specs.Computed.{Answers, Done};
ghost use Rattle.nf_terms.specs.Symbols.{symbols_of_form};
ghost use Rattle.nf_symbols.specs.StayingTerms.{has_symbol};
ghost use Rattle.nf_rel.specs.NormalLiterals.{IsNormalLiteral};
ghost use Rattle.nf_rel.specs.View.{literal_in};
ghost use Rattle.sym_paths.specs.View.{answer_in_data};
ghost use Rattle.sym_facts.specs.Entailment.{form_substituted, leaves_form, form_like as like, relation_of as relation};
ghost use Rattle.sym_facts.specs.Entailment.{literal_substituted};

use fs_model::parts::Rel;
use nf_rel::kind::Kind;
use nf_rel::literals::NLit;
use nf_rel::normalize::literal;
use nf_sums::sums::number;
use nf_symbols::subst::Subst;
use nf_symbols::vector::Vector;
use nf_terms::form::Nf;
use nf_terms::stop::{NfStop, NoMemory};
use nf_terms::tree::Pos;
use std::alloc::Global;

/// What of a fact does not hold: equations by the place of their position, and literals by their index, both in increasing order.
#[derive(Drop)]
pub struct Entail {
    pub equations: Vec<u32>,
    pub conds: Vec<u32>,
}

/// A form with the vector's forms in place of its symbols.
///
/// `Wide` and `Large` come exactly at the first operation that is not narrow, or narrow and not small. `NoMemory`: out of memory.
pub fn substitute(alloc: Global, s: &mut Subst, form: &Nf) -> Result<Nf, NfStop>
    ensures answers { Answers result (form_substituted s.old.vector form.now) }
    ensures vector { s.new.vector ≡ s.old.vector }
{
    match form {
        Nf::Num(p) => Ok(Nf::Num(s.poly(alloc, p)?)),
        Nf::Arr(a) => Ok(Nf::Arr(s.arr(alloc, a)?)),
        Nf::Seq(l) => Ok(Nf::Seq(s.seq(alloc, l)?)),
    }
}

/// Whether the vector is known to have the symbols of a form, and to leave it as it is: the form is a number, each atom is a
/// symbol that the vector has as its own form, and no monomial has more than 2,048. The look takes no memory.
pub fn leaves_form(s: &Subst, form: &Nf) -> bool
    ensures look { result ≡ leaves_form s.now.vector form.now }
    ensures left { result ≡ true → form_substituted s.now.vector form.now ≡ Done form.now }
    ensures there { result ≡ true → list_all (has_symbol s.now.vector) (symbols_of_form form.now) ≡ true }
{
    match form {
        Nf::Num(p) => s.leaves(p),
        Nf::Arr(_) | Nf::Seq(_) => false,
    }
}

/// What a vector has at a position, of the sort of a form. The one refusal is out of memory.
pub fn form_like(alloc: Global, v: &Vector, p: &Pos, form: &Nf) -> Result<Nf, NoMemory>
    ensures { IfOk result (λ f. f ≡ like v.now p.now form.now) }
{
    match form {
        Nf::Num(_) => Ok(Nf::Num(v.number(alloc, p)?)),
        Nf::Arr(_) => Ok(Nf::Arr(v.array(alloc, p)?)),
        Nf::Seq(_) => Ok(Nf::Seq(v.list(alloc, p)?)),
    }
}

// The relation of a kind.
fn relation_of(kind: Kind) -> Rel
    ensures { result ≡ relation kind }
{
    match kind {
        Kind::Ge => Rel::Ge,
        Kind::Le => Rel::Le,
        Kind::Eq => Rel::Eq,
        Kind::Ne => Rel::Ne,
    }
}

/// A literal with the vector's forms in place of the symbols of its direction, in normal form.
///
/// `Wide` and `Large` come exactly at the first operation that is not narrow, or narrow and not small. `NoMemory`: out of memory.
pub fn substitute_literal(alloc: Global, s: &mut Subst, l: &NLit) -> Result<NLit, NfStop>
    ensures answers { Answers (answer_in_data literal_in result) (literal_substituted s.old.vector (literal_in l.now)) }
    ensures normal { IfOk result (λ m. IsNormalLiteral (literal_in m)) }
    ensures vector { s.new.vector ≡ s.old.vector }
{
    match l {
        NLit::True => Ok(NLit::True),
        NLit::False => Ok(NLit::False),
        NLit::Is(b) => {
            let dir = s.poly(alloc, &b.dir)?;
            let bound = number(alloc, &b.bound)?;
            literal(alloc, relation_of(b.kind), &dir, &bound)
        }
    }
}
