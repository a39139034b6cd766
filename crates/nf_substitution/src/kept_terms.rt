//! Terms with the vector's forms in place of their symbols, whose atoms are kept.

ghost use Rattle.std.specs.Prelude.{◌≡◌, OnOk};
ghost use Rattle.nf_trees.specs.View.{polynomial_in, array_in};
ghost use Rattle.nf_terms.specs.Computed.{Answers, after};
ghost use Rattle.nf_arrays.specs.Pushes.{list_with_item};
ghost use Rattle.nf_substitution.specs.Substitution.{polynomial_substituted, array_substituted, items_substituted};
ghost use Rattle.nf_substitution.specs.Substitution.{list_substituted};
ghost use Rattle.nf_substitution.specs.Keeping.{with_terms, with_array, with_items, IsFront, AreValues};

use crate::evaluation::{array_value, sum_value};
use crate::kept_atoms::put_terms;
use crate::memo::Memo;
use crate::staying::terms_stay;
use nf_arrays::pushes::push;
use nf_bank::bank::Bank;
use nf_bank::numbering::{put_array, put_sum};
use nf_terms::arr::Arr;
use nf_terms::poly::Poly;
use nf_terms::seq::Seq;
use nf_terms::stop::NfStop;
use nf_trees::tree::{ArrTree, PolyTree};
use nf_vectors::vector::Vector;
use std::alloc::Global;

// A polynomial, found atom by atom.
fn keep_tree(
    alloc: Global,
    vector: &Vector,
    bank: &mut Bank,
    memo: &mut Memo,
    tree: &PolyTree,
) -> Result<Poly, NfStop>
    requires { AreValues vector.now bank.old memo.old }
    ensures answers { Answers result (polynomial_substituted vector.now (polynomial_in tree.now)) }
    ensures known { AreValues vector.now bank.new memo.new }
    ensures kept { OnOk result (bank.new ≡ with_terms (polynomial_in tree.now) bank.old) }
    ensures front { IsFront bank.old bank.new }
{
    let terms = put_sum(alloc, bank, tree)?;
    sum_value(alloc, vector, bank, memo, &terms)
}

/// A polynomial: a copy, where the vector leaves it. `known` are the values of the bank's atoms, before and after.
pub(crate) fn keep_poly(
    alloc: Global,
    vector: &Vector,
    bank: &mut Bank,
    memo: &mut Memo,
    p: &Poly,
) -> Result<Poly, NfStop>
    requires { AreValues vector.now bank.old memo.old }
    ensures answers { Answers result (polynomial_substituted vector.now p.now) }
    ensures known { AreValues vector.now bank.new memo.new }
    ensures kept { OnOk result (bank.new ≡ with_terms p.now bank.old) }
    ensures front { IsFront bank.old bank.new }
{
    if terms_stay(vector, p.tree()) {
        put_terms(alloc, bank, p.tree())?;
        return Ok(p.try_clone(alloc)?);
    }
    keep_tree(alloc, vector, bank, memo, p.tree())
}

/// An array, found atom by atom.
pub(crate) fn keep_arr(
    alloc: Global,
    vector: &Vector,
    bank: &mut Bank,
    memo: &mut Memo,
    tree: &ArrTree,
) -> Result<Arr, NfStop>
    requires { AreValues vector.now bank.old memo.old }
    ensures answers { Answers result (array_substituted vector.now (array_in tree.now)) }
    ensures known { AreValues vector.now bank.new memo.new }
    ensures kept { OnOk result (bank.new ≡ with_array (array_in tree.now) bank.old) }
    ensures front { IsFront bank.old bank.new }
{
    let array = put_array(alloc, bank, tree)?;
    array_value(alloc, vector, bank, memo, &array)
}

// A list with one item more.
fn keep_item(
    alloc: Global,
    vector: &Vector,
    bank: &mut Bank,
    memo: &mut Memo,
    so_far: &Seq,
    item: &Poly,
) -> Result<Seq, NfStop>
    requires { AreValues vector.now bank.old memo.old }
    ensures answers { Answers result
        (after (polynomial_substituted vector.now item.now) (λ q. list_with_item so_far.now q)) }
    ensures known { AreValues vector.now bank.new memo.new }
    ensures kept { OnOk result (bank.new ≡ with_terms item.now bank.old) }
    ensures front { IsFront bank.old bank.new }
{
    let value = keep_poly(alloc, vector, bank, memo, item)?;
    push(alloc, so_far, &value)
}

// Items, behind a list.
fn keep_items(
    alloc: Global,
    vector: &Vector,
    bank: &mut Bank,
    memo: &mut Memo,
    first: Seq,
    items: &[Poly],
) -> Result<Seq, NfStop>
    requires { AreValues vector.now bank.old memo.old }
    ensures answers { Answers result (items_substituted vector.now items.now first) }
    ensures known { AreValues vector.now bank.new memo.new }
    ensures kept { OnOk result (bank.new ≡ with_items items.now bank.old) }
    ensures front { IsFront bank.old bank.new }
{
    let mut so_far = first;
    for item in items {
        so_far = keep_item(alloc, vector, bank, memo, &so_far, item)?;
    }
    Ok(so_far)
}

/// A list, item by item.
#[tactic(auto, using(nf_bank::proofs::Fronts::fronts))]
pub(crate) fn keep_list(
    alloc: Global,
    vector: &Vector,
    bank: &mut Bank,
    memo: &mut Memo,
    list: &Seq,
) -> Result<Seq, NfStop>
    requires { AreValues vector.now bank.old memo.old }
    ensures answers { Answers result (list_substituted vector.now list.now) }
    ensures known { AreValues vector.now bank.new memo.new }
    ensures kept { OnOk result (bank.new ≡ with_items list.now.items bank.old) }
    ensures front { IsFront bank.old bank.new }
{
    let first = vector.list_base(alloc, &list.base())?;
    keep_items(alloc, vector, bank, memo, first, list.items())
}
