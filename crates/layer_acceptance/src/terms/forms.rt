//! Normal forms from texts, by the operations.
//!
//! The words are those of trees, and more: `-` stands behind two sums and `neg` behind one; `#s` is the list s and `#0` the
//! empty one, and `<<` stands behind a list and an item.

use crate::terms::trees::{Trees, operands, position, put_each as put_trees, put_last};
use nf_arrays::division::{div, rem};
use nf_arrays::pushes::push;
use nf_arrays::reads::read;
use nf_arrays::writes::write;
use nf_sums::sums::{add, mul, neg, sub};
use nf_terms::arr::Arr;
use nf_terms::form::Nf;
use nf_terms::poly::Poly;
use nf_terms::seq::Seq;
use nf_terms::stop::NfStop;
use nf_terms::tree::SeqBase;
use std::alloc::Global;

// The normal form that the last array is, or the last sum where there is no array.
fn last_form(trees: &mut Trees) -> Option<Nf> {
    match trees.arrays.pop() {
        Some(array) => Some(Nf::Arr(Arr::of(array)?)),
        None => Some(Nf::Num(Poly::of(trees.sums.pop()?)?)),
    }
}

// Whether one tree is there.
fn is_one(trees: &Trees) -> bool {
    matches!((trees.arrays.len(), trees.sums.len()), (0, 1) | (1, 0))
}

/// The normal form that the tree of a text is, where it is one.
pub fn normal_form(alloc: Global, text: &str) -> Result<Option<Nf>, NfStop> {
    let mut trees = Trees {
        sums: Vec::new(alloc),
        arrays: Vec::new(alloc),
    };
    if put_trees(alloc, &mut trees, text) && is_one(&trees) {
        Ok(last_form(&mut trees))
    } else {
        Err(NfStop::NoMemory)
    }
}

/// The normal form that a text is the tree of; of a list, the form of the text.
pub fn written_form(alloc: Global, text: &str) -> Result<Nf, NfStop> {
    if text.trim().starts_with("#") {
        return form(alloc, text);
    }
    normal_form(alloc, text)?.ok_or(NfStop::NoMemory)
}

// The list, sum or array of one word.
fn simple_form(alloc: Global, word: &str) -> Result<Nf, NfStop> {
    match word.strip_prefix("#") {
        None => normal_form(alloc, word)?.ok_or(NfStop::NoMemory),
        Some("0") => Ok(Nf::Seq(Seq::bare(alloc, SeqBase::Empty))),
        Some(name) => {
            let symbol = position(name).ok_or(NfStop::NoMemory)?;
            Ok(Nf::Seq(Seq::bare(alloc, SeqBase::Sym(symbol))))
        }
    }
}

// An operation on two sums.
fn combine(alloc: Global, word: &str, left: &Poly, right: &Poly) -> Result<Poly, NfStop> {
    match word {
        "+" => add(alloc, left, right),
        "-" => sub(alloc, left, right),
        "*" => mul(alloc, left, right),
        "/" => div(alloc, left, right),
        "%" => rem(alloc, left, right),
        _ => Err(NfStop::NoMemory),
    }
}

// The sum that a word makes of the forms that it works on, where they are such as it can work on.
fn sum_by_word(alloc: Global, forms: &[Nf], word: &str) -> Result<Poly, NfStop> {
    match (word, forms) {
        ("neg", [Nf::Num(sum)]) => Ok(neg(alloc, sum)?),
        ("[]", [Nf::Arr(array), Nf::Num(index)]) => read(alloc, array, index),
        (_, [Nf::Num(left), Nf::Num(right)]) => combine(alloc, word, left, right),
        _ => Err(NfStop::NoMemory),
    }
}

// The same of any form.
fn form_by_word(alloc: Global, forms: &[Nf], word: &str) -> Result<Nf, NfStop> {
    match (word, forms) {
        ("{}", [Nf::Arr(array), Nf::Num(index), Nf::Num(value)]) => {
            Ok(Nf::Arr(write(alloc, array, index, value)?))
        }
        ("<<", [Nf::Seq(list), Nf::Num(item)]) => Ok(Nf::Seq(push(alloc, list, item)?)),
        _ => Ok(Nf::Num(sum_by_word(alloc, forms, word)?)),
    }
}

// Puts what a word makes in the place of what it works on.
fn put(alloc: Global, forms: &mut Vec<Nf>, word: &str) -> Result<(), NfStop> {
    let (first, last) = operands(word);
    let count = forms.len().saturating_sub(first).saturating_sub(last);
    let form = match last {
        0 => simple_form(alloc, word)?,
        _ => form_by_word(alloc, forms.as_slice().get(count..).unwrap_or(&[]), word)?,
    };
    forms.truncate(count);
    if put_last(forms, form) {
        Ok(())
    } else {
        Err(NfStop::NoMemory)
    }
}

/// Puts what each word of a text makes of the forms before it.
pub fn put_each(alloc: Global, forms: &mut Vec<Nf>, text: &str) -> Result<(), NfStop> {
    for word in text.split_whitespace() {
        put(alloc, forms, word)?;
    }
    Ok(())
}

/// The normal form of a text whose words leave one form.
pub fn form(alloc: Global, text: &str) -> Result<Nf, NfStop> {
    let mut forms = Vec::new(alloc);
    put_each(alloc, &mut forms, text)?;
    match (forms.pop(), forms.is_empty()) {
        (Some(form), true) => Ok(form),
        _ => Err(NfStop::NoMemory),
    }
}

/// Whether a form is that of a text.
pub fn is_form(alloc: Global, found: &Nf, text: &str) -> bool {
    match form(alloc, text) {
        Ok(wanted) => wanted.is_same(found),
        Err(_) => false,
    }
}

/// Whether a form is the one whose tree a text is.
pub fn is_written(alloc: Global, found: &Nf, text: &str) -> bool {
    match written_form(alloc, text) {
        Ok(wanted) => wanted.is_same(found),
        Err(_) => false,
    }
}
