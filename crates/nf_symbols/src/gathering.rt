//! The symbols of terms, in the order in which they stand.

ghost use Rattle.std.specs.Prelude.{◌≡◌, ◌++◌, ◌∷◌, [], IfOk, OnOk};
ghost use Rattle.nf_trees.specs.View.{atom_in, monomial_in, polynomial_in, array_in};
ghost use Rattle.nf_terms.specs.Symbols.{symbols_of_base, symbols_of, symbols_of_array, symbols_of_list_base, symbols_of_items};
ghost use Rattle.nf_terms.specs.Symbols.{symbols_of_list, symbols_of_form};
ghost use Rattle.nf_symbols.specs.GatheredSymbols.{with_atom, with_monomial, with_polynomial, with_array};

use nf_terms::arr::Arr;
use nf_terms::form::Nf;
use nf_terms::poly::Poly;
use nf_terms::seq::Seq;
use nf_terms::stop::NoMemory;
use nf_terms::symbols::Sort;
use nf_terms::tree::SeqBase;
use nf_trees::tree::{ArrTree, Atom, Base, MonoTree, PolyTree, Pos};
use std::alloc::Global;

// Adds a symbol. The one refusal is out of memory.
fn push_symbol(out: &mut Vec<(Pos, Sort)>, p: &Pos, sort: Sort) -> Result<(), NoMemory>
    ensures { OnOk result (out.new.items ≡ out.old.items ++ (p.now, sort) ∷ []) }
{
    out.push((*p, sort))?;
    Ok(())
}

// Adds the symbol of a base, if it has one. The one refusal is out of memory.
fn push_base(out: &mut Vec<(Pos, Sort)>, base: &Base) -> Result<(), NoMemory>
    ensures { OnOk result (out.new.items ≡ out.old.items ++ symbols_of_base base.now) }
{
    match base {
        Base::Zero => Ok(()),
        Base::Sym(p) => push_symbol(out, p, Sort::Array),
    }
}

// Adds the symbols of an atom, in order.
#[cycle(symbols)]
fn add_atom(out: &mut Vec<(Pos, Sort)>, atom: &Atom) -> Result<(), NoMemory>
    ensures { OnOk result (out.new.items ≡ with_atom out.old.items (atom_in atom.now)) }
{
    match atom {
        Atom::Sym(p) => push_symbol(out, p, Sort::Scalar),
        Atom::Read(array, index) => {
            add_arr(out, array)?;
            add_poly(out, index)
        }
        Atom::Div(left, right) | Atom::Rem(left, right) => {
            add_poly(out, left)?;
            add_poly(out, right)
        }
    }
}

// Adds the symbols of a monomial, in order.
#[cycle(symbols)]
fn add_mono(out: &mut Vec<(Pos, Sort)>, mono: &MonoTree) -> Result<(), NoMemory>
    ensures { OnOk result (out.new.items ≡ with_monomial out.old.items (monomial_in mono.now)) }
{
    for atom in &mono.atoms {
        add_atom(out, atom)?;
    }
    Ok(())
}

// Adds the symbols of a polynomial, in order.
#[cycle(symbols)]
fn add_poly(out: &mut Vec<(Pos, Sort)>, poly: &PolyTree) -> Result<(), NoMemory>
    ensures { OnOk result (out.new.items ≡ with_polynomial out.old.items (polynomial_in poly.now)) }
{
    for (mono, _coefficient) in &poly.monos {
        add_mono(out, mono)?;
    }
    Ok(())
}

// Adds the symbols of an array, in order.
#[cycle(symbols)]
fn add_arr(out: &mut Vec<(Pos, Sort)>, arr: &ArrTree) -> Result<(), NoMemory>
    ensures { OnOk result (out.new.items ≡ with_array out.old.items (array_in arr.now)) }
{
    push_base(out, &arr.base)?;
    for (index, value) in &arr.writes {
        add_poly(out, index)?;
        add_poly(out, value)?;
    }
    Ok(())
}

// Adds the symbols of a polynomial, in order. The one refusal is out of memory.
#[tactic(auto, using(crate::proofs::Gathered::polynomial_joined))]
fn push_poly(out: &mut Vec<(Pos, Sort)>, poly: &PolyTree) -> Result<(), NoMemory>
    ensures { OnOk result (out.new.items ≡ out.old.items ++ symbols_of (polynomial_in poly.now)) }
{
    add_poly(out, poly)
}

// Adds the symbols of an array, in order. The one refusal is out of memory.
#[tactic(auto, using(crate::proofs::Gathered::array_joined))]
fn push_arr(out: &mut Vec<(Pos, Sort)>, arr: &ArrTree) -> Result<(), NoMemory>
    ensures { OnOk result (out.new.items ≡ out.old.items ++ symbols_of_array (array_in arr.now)) }
{
    add_arr(out, arr)
}

// Adds the symbol of a list's base, if it has one. The one refusal is out of memory.
fn push_list_base(out: &mut Vec<(Pos, Sort)>, base: SeqBase) -> Result<(), NoMemory>
    ensures { OnOk result (out.new.items ≡ out.old.items ++ symbols_of_list_base base) }
{
    match base {
        SeqBase::Empty => Ok(()),
        SeqBase::Sym(p) => push_symbol(out, &p, Sort::List),
    }
}

// Adds the symbols of items, in order. The one refusal is out of memory.
fn push_items(out: &mut Vec<(Pos, Sort)>, items: &[Poly]) -> Result<(), NoMemory>
    ensures { OnOk result (out.new.items ≡ out.old.items ++ symbols_of_items items.now) }
{
    for item in items {
        push_poly(out, item.tree())?;
    }
    Ok(())
}

/// The symbols of a polynomial, each with its sort, in the order in which they stand. The one refusal is out of memory.
pub fn symbols_of_poly(alloc: Global, poly: &Poly) -> Result<Vec<(Pos, Sort)>, NoMemory>
    ensures { IfOk result (λ v. v.items ≡ symbols_of poly.now) }
{
    let mut out = Vec::new(alloc);
    push_poly(&mut out, poly.tree())?;
    Ok(out)
}

/// The symbols of an array, each with its sort, in the order in which they stand. The one refusal is out of memory.
pub fn symbols_of_arr(alloc: Global, arr: &Arr) -> Result<Vec<(Pos, Sort)>, NoMemory>
    ensures { IfOk result (λ v. v.items ≡ symbols_of_array arr.now) }
{
    let mut out = Vec::new(alloc);
    push_arr(&mut out, arr.tree())?;
    Ok(out)
}

/// The symbols of a list, each with its sort, in the order in which they stand. The one refusal is out of memory.
pub fn symbols_of_seq(alloc: Global, seq: &Seq) -> Result<Vec<(Pos, Sort)>, NoMemory>
    ensures { IfOk result (λ v. v.items ≡ symbols_of_list seq.now) }
{
    let mut out = Vec::new(alloc);
    push_list_base(&mut out, seq.base())?;
    push_items(&mut out, seq.items())?;
    Ok(out)
}

/// The symbols of a form, each with its sort, in the order in which they stand. The one refusal is out of memory.
pub fn symbols_of_nf(alloc: Global, form: &Nf) -> Result<Vec<(Pos, Sort)>, NoMemory>
    ensures { IfOk result (λ v. v.items ≡ symbols_of_form form.now) }
{
    match form {
        Nf::Num(number) => symbols_of_poly(alloc, number),
        Nf::Arr(array) => symbols_of_arr(alloc, array),
        Nf::Seq(list) => symbols_of_seq(alloc, list),
    }
}
