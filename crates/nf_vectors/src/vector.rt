//! Vectors: normal forms for positions.

ghost use Rattle.std.specs.Prelude.{◌≡◌, [], Some, option_map, IsTrue, IfOk, OnOk, OnErr};
ghost use Rattle.std.specs.Ordering.{is_eq};
ghost use Rattle.nf_trees.specs.Order.{cmp_polynomial, cmp_array};
ghost use Rattle.nf_terms.specs.Lists.{cmp_list};
ghost use Rattle.nf_terms.specs.declared.form.Nf.TheVariants as normal;
ghost use Rattle.nf_vectors.specs.Vectors.{form_at, form_of, has_form, number_at, array_form, list_at, array_of_base};
ghost use Rattle.nf_vectors.specs.Vectors.{list_of_base};
ghost use Rattle.nf_vectors.specs.Vectors.{with_form, AreNormalForms};

use crate::copies::copy_forms;
use crate::place::Place;
use crate::shared_form::SharedForm;
use indexmap::IndexMap;
use nf_terms::arr::Arr;
use nf_terms::form::Nf;
use nf_terms::poly::Poly;
use nf_terms::seq::Seq;
use nf_terms::stop::NoMemory;
use nf_terms::symbols::Sort;
use nf_terms::tree::SeqBase;
use nf_trees::tree::{Base, Pos};
use std::alloc::Global;
use std::marker::Model;

/// Normal forms for positions, at most one of each sort for a position. A form is found in constant time.
#[derive(Drop)]
pub struct Vector {
    forms: IndexMap<Place, SharedForm>,
}

impl Model for Vector {
    ghost use Rattle.std.specs.Prelude.{List, map};
    ghost use Rattle.fs_model.specs.declared.sides.Pos.{Pos};
    ghost use Rattle.nf_terms.specs.declared.form.Nf.{Nf};
    ghost use Rattle.nf_vectors.specs.VectorPlaces.{coded_vector, position_entry, ArePlaced};

    ghost Value = { List (Pos × Nf) };

    ghost coded = { coded_vector };

    ghost view = { λ v. map position_entry v.forms.entries };

    ghost invariant = { λ v. ArePlaced v.forms.entries };
}

impl Vector {
    /// No form for any position. It takes no memory.
    pub fn new(alloc: Global) -> Vector
        ensures { result ≡ [] }
    {
        Vector {
            forms: IndexMap::new(alloc),
        }
    }

    /// No form for any position, with room for so many forms. The one refusal is out of memory.
    pub fn with_capacity(alloc: Global, count: usize) -> Result<Vector, NoMemory>
        ensures { IfOk result (λ v. v ≡ []) }
    {
        Ok(Vector {
            forms: IndexMap::with_capacity(alloc, count)?,
        })
    }

    /// A copy, which shares the forms. The one refusal is out of memory.
    pub fn try_clone(&self, alloc: Global) -> Result<Vector, NoMemory>
        ensures { IfOk result (λ copy. copy ≡ self.now) }
    {
        let forms = copy_forms(alloc, &self.forms)?;
        Ok(Vector { forms })
    }

    /// What holds of each vector; nothing runs.
    #[tactic(auto, using(crate::proofs::Entries::normal_forms))]
    pub fn holds(&self)
        ensures { AreNormalForms self.now }
    {
        let _forms = &self.forms; // The read tells the proof what the type promises of its values.
    }

    // The allocator.
    fn allocator(&self) -> Global {
        *self.forms.allocator()
    }

    /// Gives a position this form, in the place of its form of the same sort, and leaves the other positions.
    ///
    /// The one refusal is out of memory, and leaves the vector unchanged.
    pub fn put(&mut self, p: Pos, value: Nf) -> Result<(), NoMemory>
        ensures put { OnOk result (self.new ≡ with_form p value self.old) }
        ensures refused { OnErr result (self.new ≡ self.old) }
    {
        let shared = SharedForm::of(self.allocator(), value)?;
        self.put_shared(p, shared)?;
        Ok(())
    }

    /// As `put`, of a form that is shared. The one refusal is out of memory.
    #[tactic(auto, using(crate::proofs::Entries::put_placed, crate::proofs::Entries::put_seen))]
    pub fn put_shared(&mut self, p: Pos, value: SharedForm) -> Result<(), NoMemory>
        ensures put { OnOk result (self.new ≡ with_form p value self.old) }
        ensures refused { OnErr result (self.new ≡ self.old) }
    {
        let place = Place {
            pos: p,
            sort: value.sort(),
        };
        self.forms.insert(place, value)?;
        Ok(())
    }

    /// The form of this sort for a position, as it is shared.
    pub fn shared_form(&self, sort: Sort, p: Pos) -> Option<&SharedForm>
        ensures { option_map (λ f. f.now) result ≡ form_at sort p self.now }
    {
        let place = Place { pos: p, sort };
        self.forms.get(&place)
    }

    /// The form of this sort for a position.
    pub fn form(&self, sort: Sort, p: Pos) -> Option<&Nf>
        ensures { option_map (λ f. f.now) result ≡ form_at sort p self.now }
    {
        match self.shared_form(sort, p) {
            Some(shared) => Some(shared.form()),
            None => None,
        }
    }

    /// The form of a position that has one: its number, else its array, else its list.
    pub fn get(&self, p: Pos) -> &Nf
        requires { IsTrue (has_form p self.now) }
        ensures { form_of p self.now ≡ Some result.now }
    {
        if let Some(number) = self.form(Sort::Scalar, p) {
            return number;
        }
        if let Some(array) = self.form(Sort::Array, p) {
            return array;
        }
        match self.form(Sort::List, p) {
            Some(list) => list,
            None => unreachable!(),
        }
    }

    /// The number of a position, shared, or the position's symbol. The one refusal is out of memory.
    pub fn shared_number(&self, alloc: Global, p: &Pos) -> Result<SharedForm, NoMemory>
        ensures { IfOk result (λ n. n ≡ normal.Num (number_at self.now p.now)) }
    {
        if let Some(shared) = self.shared_form(Sort::Scalar, *p) {
            if let Nf::Num(_) = shared.form() {
                return shared.try_clone();
            }
        }
        SharedForm::of(alloc, Nf::Num(Poly::symbol(alloc, *p)?))
    }

    /// The array of a position, shared, or the position's symbol. The one refusal is out of memory.
    pub fn shared_array(&self, alloc: Global, p: &Pos) -> Result<SharedForm, NoMemory>
        ensures { IfOk result (λ a. a ≡ normal.Arr (array_form self.now p.now)) }
    {
        if let Some(shared) = self.shared_form(Sort::Array, *p) {
            if let Nf::Arr(_) = shared.form() {
                return shared.try_clone();
            }
        }
        SharedForm::of(alloc, Nf::Arr(Arr::bare(alloc, Base::Sym(*p))))
    }

    /// The list of a position, shared, or the position's symbol. The one refusal is out of memory.
    pub fn shared_list(&self, alloc: Global, p: &Pos) -> Result<SharedForm, NoMemory>
        ensures { IfOk result (λ l. l ≡ normal.Seq (list_at self.now p.now)) }
    {
        if let Some(shared) = self.shared_form(Sort::List, *p) {
            if let Nf::Seq(_) = shared.form() {
                return shared.try_clone();
            }
        }
        SharedForm::of(alloc, Nf::Seq(Seq::bare(alloc, SeqBase::Sym(*p))))
    }

    /// A copy of the number of a position, or the position's symbol. The one refusal is out of memory.
    pub fn number(&self, alloc: Global, p: &Pos) -> Result<Poly, NoMemory>
        ensures { IfOk result (λ n. n ≡ number_at self.now p.now) }
    {
        match self.form(Sort::Scalar, *p) {
            Some(Nf::Num(number)) => number.try_clone(alloc),
            _ => Poly::symbol(alloc, *p),
        }
    }

    /// A copy of the array of a position, or the position's symbol. The one refusal is out of memory.
    pub fn array(&self, alloc: Global, p: &Pos) -> Result<Arr, NoMemory>
        ensures { IfOk result (λ a. a ≡ array_form self.now p.now) }
    {
        match self.form(Sort::Array, *p) {
            Some(Nf::Arr(array)) => array.try_clone(alloc),
            _ => Ok(Arr::bare(alloc, Base::Sym(*p))),
        }
    }

    /// A copy of the list of a position, or the position's symbol. The one refusal is out of memory.
    pub fn list(&self, alloc: Global, p: &Pos) -> Result<Seq, NoMemory>
        ensures { IfOk result (λ l. l ≡ list_at self.now p.now) }
    {
        match self.form(Sort::List, *p) {
            Some(Nf::Seq(list)) => list.try_clone(alloc),
            _ => Ok(Seq::bare(alloc, SeqBase::Sym(*p))),
        }
    }

    /// Whether a number is that of a position. The one refusal is out of memory.
    pub fn has_number(&self, alloc: Global, p: &Pos, number: &Poly) -> Result<bool, NoMemory>
        ensures { IfOk result (λ b. b ≡ is_eq (cmp_polynomial (number_at self.now p.now) number.now)) }
    {
        match self.form(Sort::Scalar, *p) {
            Some(Nf::Num(own)) => Ok(own == number),
            _ => Ok(&Poly::symbol(alloc, *p)? == number),
        }
    }

    /// Whether an array is that of a position.
    pub fn has_array(&self, alloc: Global, p: &Pos, array: &Arr) -> bool
        ensures { result ≡ is_eq (cmp_array (array_form self.now p.now) array.now) }
    {
        match self.form(Sort::Array, *p) {
            Some(Nf::Arr(own)) => own == array,
            _ => &Arr::bare(alloc, Base::Sym(*p)) == array,
        }
    }

    /// Whether a list is that of a position.
    pub fn has_list(&self, alloc: Global, p: &Pos, list: &Seq) -> bool
        ensures { result ≡ is_eq (cmp_list (list_at self.now p.now) list.now) }
    {
        match self.form(Sort::List, *p) {
            Some(Nf::Seq(own)) => own == list,
            _ => &Seq::bare(alloc, SeqBase::Sym(*p)) == list,
        }
    }

    /// A copy of the array of a base. The one refusal is out of memory.
    pub fn array_base(&self, alloc: Global, base: &Base) -> Result<Arr, NoMemory>
        ensures { IfOk result (λ a. a ≡ array_of_base self.now base.now) }
    {
        match base {
            Base::Zero => Ok(Arr::bare(alloc, Base::Zero)),
            Base::Sym(p) => self.array(alloc, p),
        }
    }

    /// A copy of the list of a base. The one refusal is out of memory.
    pub fn list_base(&self, alloc: Global, base: &SeqBase) -> Result<Seq, NoMemory>
        ensures { IfOk result (λ l. l ≡ list_of_base self.now base.now) }
    {
        match base {
            SeqBase::Empty => Ok(Seq::bare(alloc, SeqBase::Empty)),
            SeqBase::Sym(p) => self.list(alloc, p),
        }
    }
}
