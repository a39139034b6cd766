//! Substitution of a vector in normal forms: each different atom is substituted once.

ghost use Rattle.std.specs.Prelude.{◌≡◌, true, [], take, IfOk, OnOk, OnErr};
ghost use Rattle.std.specs.List.{list_all};
ghost use Rattle.nf_terms.specs.Symbols.{symbols_of};
ghost use Rattle.nf_terms.specs.TermMeaning.{Valuation, value_of, contents, items_in};
ghost use Rattle.nf_terms.specs.Computed.{Answers, Done};
ghost use Rattle.nf_vectors.specs.Vectors.{vector_meaning};
ghost use Rattle.nf_substitution.specs.Substitution.{polynomial_substituted, array_substituted, list_substituted};
ghost use Rattle.nf_substitution.specs.Keeping.{with_terms, with_array, with_items};
ghost use Rattle.nf_substitution.specs.StayingTerms.{terms_stay, has_symbol};

use crate::kept_terms::{keep_arr, keep_list, keep_poly};
use crate::memo::Memo;
use crate::staying::terms_stay;
use nf_bank::bank::Bank;
use nf_terms::arr::Arr;
use nf_terms::poly::Poly;
use nf_terms::seq::Seq;
use nf_terms::stop::NfStop;
use nf_vectors::vector::Vector;
use std::alloc::Global;
use std::marker::Model;

/// A vector, and the atoms that were substituted, with their values by number.
#[derive(Drop)]
pub struct Subst<'v> {
    vector: &'v Vector,
    bank: Bank,
    memo: Memo,
}

impl<'v> Model for Subst<'v> {
    ghost use Rattle.nf_substitution.specs.Keeping.{VectorWithAtoms, AreValues, coded_kept};

    ghost Value = { VectorWithAtoms };

    ghost coded = { coded_kept };

    ghost view = { λ s. record { vector = s.vector.now; atoms = s.bank } };

    ghost invariant = { λ s. AreValues s.vector.now s.bank s.memo };
}

impl<'v> Subst<'v> {
    /// A substitution that has kept no atom yet.
    #[tactic(auto, using(crate::proofs::Known::none_known))]
    pub fn new(alloc: Global, vector: &'v Vector) -> Subst<'v>
        ensures { result ≡ record { vector = vector.now; atoms = [] } }
    {
        Subst {
            vector,
            bank: Bank::new(alloc),
            memo: Memo::new(alloc),
        }
    }

    /// Whether the vector is known to have the symbols of a polynomial, and to leave it as it is: each atom is a symbol that the
    /// vector has as its own form, and no monomial has more than 2,048. The look takes no memory, and keeps nothing.
    #[tactic(auto, using(crate::proofs::Unchanged::staying))]
    pub fn leaves(&self, p: &Poly) -> bool
        ensures look { result ≡ terms_stay self.now.vector p.now }
        ensures left { result ≡ true → polynomial_substituted self.now.vector p.now ≡ Done p.now }
        ensures there { result ≡ true → list_all (has_symbol self.now.vector) (symbols_of p.now) ≡ true }
    {
        terms_stay(self.vector, p.tree())
    }

    // Hands on what was computed. Where that was refused, it forgets the atoms behind the first ones.
    #[tactic(auto, using(crate::proofs::Known::known_taken))]
    fn forget_refused<T: Drop>(&mut self, count: u64, value: Result<T, NfStop>) -> Result<T, NfStop>
        ensures same { result ≡ value }
        ensures kept { OnOk result (self.new ≡ self.old) }
        ensures refused { OnErr result
            (self.new ≡ record { vector = self.old.vector; atoms = take count self.old.atoms }) }
    {
        if value.is_err() {
            self.bank.truncate(count);
            self.memo.truncate(count);
        }
        value
    }

    /// A polynomial with the vector's forms in place of its symbols.
    ///
    /// `Wide` and `Large` come exactly at the first operation that is not narrow, or narrow and not small, in the order of the
    /// monomials, in each the atoms, and in each its parts. `NoMemory` comes when memory runs out. After a refusal nothing more
    /// is kept.
    #[tactic(auto, using(nf_bank::proofs::Fronts::cut_back))]
    pub fn poly(&mut self, alloc: Global, p: &Poly) -> Result<Poly, NfStop>
        ensures answers { Answers result (polynomial_substituted self.old.vector p.now) }
        ensures vector { self.new.vector ≡ self.old.vector }
        ensures kept { OnOk result (self.new.atoms ≡ with_terms p.now self.old.atoms) }
        ensures refused { OnErr result (self.new ≡ self.old) }
    {
        let count = self.bank.len();
        let value = keep_poly(alloc, self.vector, &mut self.bank, &mut self.memo, p);
        self.forget_refused(count, value)
    }

    /// An array with the vector's forms in place of its symbols.
    ///
    /// `Wide` and `Large` come exactly at the first operation that is not narrow, or narrow and not small, in the order of the
    /// writes, in each the index, the value and the write. `NoMemory` comes when memory runs out. After a refusal nothing more is
    /// kept.
    #[tactic(auto, using(nf_bank::proofs::Fronts::cut_back))]
    pub fn arr(&mut self, alloc: Global, a: &Arr) -> Result<Arr, NfStop>
        ensures answers { Answers result (array_substituted self.old.vector a.now) }
        ensures vector { self.new.vector ≡ self.old.vector }
        ensures kept { OnOk result (self.new.atoms ≡ with_array a.now self.old.atoms) }
        ensures refused { OnErr result (self.new ≡ self.old) }
    {
        let count = self.bank.len();
        let value = keep_arr(alloc, self.vector, &mut self.bank, &mut self.memo, a.tree());
        self.forget_refused(count, value)
    }

    /// A list with the vector's forms in place of its symbols.
    ///
    /// `Wide` and `Large` come exactly at the first operation that is not narrow, or narrow and not small, in the order of the
    /// items, in each the item and the push. `NoMemory` comes when memory runs out. After a refusal nothing more is kept.
    #[tactic(auto, using(nf_bank::proofs::Fronts::cut_back))]
    pub fn seq(&mut self, alloc: Global, l: &Seq) -> Result<Seq, NfStop>
        ensures answers { Answers result (list_substituted self.old.vector l.now) }
        ensures vector { self.new.vector ≡ self.old.vector }
        ensures kept { OnOk result (self.new.atoms ≡ with_items l.now.items self.old.atoms) }
        ensures refused { OnErr result (self.new ≡ self.old) }
    {
        let count = self.bank.len();
        let value = keep_list(alloc, self.vector, &mut self.bank, &mut self.memo, l);
        self.forget_refused(count, value)
    }
}

/// A polynomial with the vector's forms in place of its symbols: what `poly` of a new `Subst` answers, `Wide`, `Large` and
/// `NoMemory` among it.
#[tactic(auto, using(crate::proofs::Values::answers))]
pub fn subst_poly(alloc: Global, p: &Poly, v: &Vector) -> Result<Poly, NfStop>
    ensures answers { Answers result (polynomial_substituted v.now p.now) }
    ensures value { IfOk result (λ r. (w : Valuation) → value_of w r ≡ value_of (vector_meaning v.now w) p.now) }
{
    Subst::new(alloc, v).poly(alloc, p)
}

/// An array with the vector's forms in place of its symbols: what `arr` of a new `Subst` answers, `Wide`, `Large` and
/// `NoMemory` among it.
#[tactic(auto, using(crate::proofs::Values::answers))]
pub fn subst_arr(alloc: Global, a: &Arr, v: &Vector) -> Result<Arr, NfStop>
    ensures answers { Answers result (array_substituted v.now a.now) }
    ensures value { IfOk result (λ b. (w : Valuation) → contents w b ≡ contents (vector_meaning v.now w) a.now) }
{
    Subst::new(alloc, v).arr(alloc, a)
}

/// A list with the vector's forms in place of its symbols: what `seq` of a new `Subst` answers, `Wide`, `Large` and
/// `NoMemory` among it.
#[tactic(auto, using(crate::proofs::Values::answers))]
pub fn subst_seq(alloc: Global, l: &Seq, v: &Vector) -> Result<Seq, NfStop>
    ensures answers { Answers result (list_substituted v.now l.now) }
    ensures value { IfOk result (λ m. (w : Valuation) → items_in w m ≡ items_in (vector_meaning v.now w) l.now) }
{
    Subst::new(alloc, v).seq(alloc, l)
}
