//! What a vector has at positions.

ghost use Rattle.std.specs.Prelude.{◌≡◌, IfOk, Some};
ghost use Rattle.nf_trees.specs.NormalTerms.{polynomial_of_symbol};
ghost use Rattle.nf_terms.specs.Computed.{Answers, Done, after};
ghost use Rattle.nf_terms.specs.declared.form.Nf.TheVariants as form;
ghost use Rattle.nf_sums.specs.Operations.{normal_sum, normal_difference};
ghost use Rattle.nf_substitution.specs.Vectors.{number_at};
ghost use Rattle.sym_facts.specs.Facts.{sort_of_terms};
ghost use Rattle.propagate_equations.specs.Equations.{value_at};

use fs_model::parts::Sort;
use nf_substitution::shared_form::SharedForm;
use nf_substitution::vector::Vector;
use nf_sums::sums::{add, sub};
use nf_terms::form::Nf;
use nf_terms::poly::Poly;
use nf_terms::stop::{NfStop, NoMemory};
use nf_terms::symbols::Sort as TermSort;
use nf_terms::tree::Pos;
use std::alloc::Global;

/// The sort of the terms that stand for variables of a sort.
pub fn sort_of_terms(sort: Sort) -> TermSort
    ensures { result ≡ sort_of_terms sort }
{
    match sort {
        Sort::Scalar => TermSort::Scalar,
        Sort::Array => TermSort::Array,
        Sort::Port => TermSort::List,
    }
}

/// What a vector has at a position of a sort, shared. The one refusal is out of memory.
pub fn value_at(alloc: Global, v: &Vector, sort: Sort, p: &Pos) -> Result<SharedForm, NoMemory>
    ensures { IfOk result (λ f. f ≡ value_at v.now sort p.now) }
{
    match sort {
        Sort::Scalar => v.shared_number(alloc, p),
        Sort::Array => v.shared_array(alloc, p),
        Sort::Port => v.shared_list(alloc, p),
    }
}

/// The difference of a number from the number that a vector has at a position.
///
/// `Wide` and `Large` come exactly where the difference is not narrow, or narrow and not small. `NoMemory`: out of memory.
pub fn difference_from(alloc: Global, v: &Vector, number: &Poly, q: &Pos) -> Result<Poly, NfStop>
    ensures { Answers result (normal_difference number.now (number_at v.now q.now)) }
{
    let other = v.number(alloc, q)?;
    sub(alloc, number, &other)
}

/// The number that is a position's symbol and a difference.
///
/// `Wide` and `Large` come exactly where the sum is not narrow, or narrow and not small. `NoMemory`: out of memory.
pub fn tie_to(alloc: Global, q: &Pos, difference: &Poly) -> Result<Option<Nf>, NfStop>
    ensures { Answers result
        (after (normal_sum (polynomial_of_symbol q.now) difference.now) (λ r. Done (Some (form.Num r)))) }
{
    let symbol = Poly::symbol(alloc, *q)?;
    Ok(Some(Nf::Num(add(alloc, &symbol, difference)?)))
}
