//! Forms that are symbols alone.

ghost use Rattle.std.specs.Prelude.{◌≡◌};
ghost use Rattle.propagate_equations.specs.Equations.{symbol_of_array, symbol_of_list, bare_symbol, value_at};

use fs_model::parts::Sort;
use nf_substitution::bare_numbers::bare_number;
use nf_substitution::vector::Vector;
use nf_terms::arr::Arr;
use nf_terms::form::Nf;
use nf_terms::seq::Seq;
use nf_terms::symbols::Sort as TermSort;
use nf_terms::tree::SeqBase;
use nf_trees::tree::{Base, Pos};

// The symbol that an array is: it has no writes.
fn bare_array(array: &Arr) -> Option<Pos>
    ensures { result ≡ symbol_of_array array.now }
{
    match array.writes() {
        [] => match array.base() {
            Base::Zero => None,
            Base::Sym(p) => Some(p),
        },
        [_, ..] => None,
    }
}

// The symbol that a list is: it has no items.
fn bare_list(list: &Seq) -> Option<Pos>
    ensures { result ≡ symbol_of_list list.now.base list.now.items }
{
    match list.items() {
        [] => match list.base() {
            SeqBase::Empty => None,
            SeqBase::Sym(p) => Some(p),
        },
        [_, ..] => None,
    }
}

/// The symbol that a vector has at a position of a sort, where it has a symbol there.
pub fn bare_symbol(v: &Vector, sort: Sort, p: Pos) -> Option<Pos>
    ensures { result ≡ bare_symbol (value_at v.now sort p) }
{
    match sort {
        Sort::Scalar => match v.form(TermSort::Scalar, p) {
            Some(Nf::Num(number)) => bare_number(number),
            _ => Some(p),
        },
        Sort::Array => match v.form(TermSort::Array, p) {
            Some(Nf::Arr(array)) => bare_array(array),
            _ => Some(p),
        },
        Sort::Port => match v.form(TermSort::List, p) {
            Some(Nf::Seq(list)) => bare_list(list),
            _ => Some(p),
        },
    }
}
