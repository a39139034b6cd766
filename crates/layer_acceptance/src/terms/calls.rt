//! Calls that take memory, each with ample memory.

use crate::terms::forms::{form, is_written};
use crate::terms::trees::position;
use nf_bank::bank::{AtomId, Bank};
use nf_substitution::vector::Vector;
use nf_symbols::gathering::symbols_of_nf;
use nf_terms::arr::Arr;
use nf_terms::form::Nf;
use nf_terms::order::is_same_atom;
use nf_terms::poly::Poly;
use nf_terms::stop::NoMemory;
use nf_terms::symbols::Sort;
use nf_terms::tree::SeqBase;
use nf_trees::tree::{Atom, Base, Pos, Side};
use std::alloc::Global;

const B: Pos = Pos {
    side: Side::Left,
    var: 1,
};

const M: Pos = Pos {
    side: Side::Left,
    var: 12,
};

/// Whether a row about calls holds.
pub fn holds(alloc: Global, name: &str, row: &str) -> bool {
    match name {
        "call" => is_called(alloc, row),
        "tree" => is_taken_out(alloc, row),
        _ => form_holds(alloc, name, row),
    }
}

// Whether a row about one form holds.
fn form_holds(alloc: Global, name: &str, row: &str) -> bool {
    let (text, cells) = row.split_once(':').unwrap_or((row, ""));
    let Ok(form) = form(alloc, text) else {
        return false;
    };
    match name {
        "symbols" => has_symbols(alloc, &form, cells),
        "copy" => copy_is_same(alloc, &form),
        "put" => is_put(alloc, &form),
        _ => false,
    }
}

// Whether a symbol is that of a word, as `a`, `@m` of an array and `#m` of a list.
fn is_symbol(symbol: Pos, sort: Sort, word: &str) -> bool {
    let name = match sort {
        Sort::Scalar => word,
        Sort::Array => word.strip_prefix("@").unwrap_or(""),
        Sort::List => word.strip_prefix("#").unwrap_or(""),
    };
    position(name) == Some(symbol)
}

// Whether these are the symbols of a text, and the form mentions each.
fn are_symbols(form: &Nf, symbols: &[(Pos, Sort)], text: &str) -> bool {
    let mut words = text.split_whitespace();
    for (symbol, sort) in symbols {
        if !is_symbol(*symbol, *sort, words.next().unwrap_or("")) || !form.mentions(*symbol) {
            return false;
        }
    }
    words.next().is_none()
}

// Whether a form has these symbols, and does not mention b.
fn has_symbols(alloc: Global, form: &Nf, wanted: &str) -> bool {
    match symbols_of_nf(alloc, form) {
        Ok(symbols) => are_symbols(form, symbols.as_slice(), wanted) && !form.mentions(B),
        Err(_) => false,
    }
}

// Whether a copy of a form is the same.
fn copy_is_same(alloc: Global, form: &Nf) -> bool {
    match form.try_clone(alloc) {
        Ok(copy) => copy.is_same(form),
        Err(_) => false,
    }
}

// A form that is made anew of the tree taken out of it.
fn rebuild(form: Nf) -> Option<Nf> {
    match form {
        Nf::Num(sum) => Some(Nf::Num(Poly::of(sum.into_tree())?)),
        Nf::Arr(array) => Some(Nf::Arr(Arr::of(array.into_tree())?)),
        Nf::Seq(_) => None,
    }
}

// Whether the tree taken out of a text's form is the one that the text writes.
fn is_taken_out(alloc: Global, text: &str) -> bool {
    let Ok(form) = form(alloc, text) else {
        return false;
    };
    match rebuild(form) {
        Some(again) => is_written(alloc, &again, text),
        None => false,
    }
}

// What a vector has for m, of the sort of a form.
fn form_of_m(alloc: Global, vector: &Vector, form: &Nf) -> Result<Nf, NoMemory> {
    match form {
        Nf::Num(_) => Ok(Nf::Num(vector.number(alloc, &M)?)),
        Nf::Arr(_) => Ok(Nf::Arr(vector.array_base(alloc, &Base::Sym(M))?)),
        Nf::Seq(_) => Ok(Nf::Seq(vector.list_base(alloc, &SeqBase::Sym(M))?)),
    }
}

// Whether a vector gives this form by m alone, if it is a number, and has no number there if it is none.
fn gives_number(vector: &Vector, wanted: &Nf) -> bool {
    match vector.form(Sort::Scalar, M) {
        Some(_) => vector.get(M).is_same(wanted),
        None => wanted.sort() != Sort::Scalar,
    }
}

// Whether a vector has no form for b.
fn lacks_b(alloc: Global, vector: &Vector) -> bool {
    match vector.number(alloc, &B) {
        Ok(number) => number.mentions(B) && vector.form(Sort::Scalar, B).is_none(),
        Err(_) => false,
    }
}

// Whether a vector has a form, of each sort, for m alone.
fn has_form(alloc: Global, vector: &Vector, form: &Nf) -> bool {
    match form_of_m(alloc, vector, form) {
        Ok(found) => { found.is_same(form) && gives_number(vector, form) && lacks_b(alloc, vector) }
        Err(_) => false,
    }
}

// Whether a vector and a copy of it have a form.
fn both_have(alloc: Global, vector: &Vector, form: &Nf) -> bool {
    match vector.try_clone(alloc) {
        Ok(copy) => has_form(alloc, vector, form) && has_form(alloc, &copy, form),
        Err(_) => false,
    }
}

// The vector of a form for m.
fn vector_of(alloc: Global, form: &Nf) -> Result<Vector, NoMemory> {
    let copy = form.try_clone(alloc)?;
    let mut vector = Vector::new(alloc);
    vector.put(M, copy)?;
    Ok(vector)
}

// Whether a vector that a form is put into has it, and a copy of the vector too.
fn is_put(alloc: Global, form: &Nf) -> bool {
    match vector_of(alloc, form) {
        Ok(vector) => both_have(alloc, &vector, form),
        Err(_) => false,
    }
}

// The first atom of a sum.
fn first_atom(form: &Nf) -> Option<&Atom> {
    match form {
        Nf::Num(sum) => {
            let (mono, _coefficient) = sum.monos().first()?;
            mono.atoms.first()
        }
        Nf::Arr(_) | Nf::Seq(_) => None,
    }
}

// Whether a bank gives back an atom by its number.
fn gives(alloc: Global, bank: &Bank, atom: &Atom, number: u64) -> bool {
    if number >= bank.len() {
        return false;
    }
    match bank.get(alloc, AtomId(number)) {
        Ok(again) => is_same_atom(atom, &again),
        Err(_) => false,
    }
}

// Whether a bank that a copy of an atom is put into gives it this number, and the atom back.
fn puts(alloc: Global, bank: &mut Bank, atom: &Atom, number: u64) -> bool {
    let Ok(copy) = atom.try_clone(alloc) else {
        return false;
    };
    match bank.put(alloc, &copy) {
        Ok(AtomId(given)) => given == number && gives(alloc, bank, atom, number),
        Err(_) => false,
    }
}

// The same of the first atom of a text's sum.
fn is_numbered(alloc: Global, bank: &mut Bank, text: &str, number: u64) -> bool {
    let Ok(form) = form(alloc, text) else {
        return false;
    };
    match first_atom(&form) {
        Some(atom) => puts(alloc, bank, atom, number),
        None => false,
    }
}

// Whether an empty bank gives atoms these numbers: those inside an atom before it, and an atom that is there keeps its own.
fn numbers_atoms(alloc: Global, bank: &mut Bank) -> bool {
    is_numbered(alloc, bank, "a b /", 2)
        && is_numbered(alloc, bank, "b", 1)
        && is_numbered(alloc, bank, "@m a b / c + []", 4)
        && is_numbered(alloc, bank, "a b /", 2)
        && is_numbered(alloc, bank, "c", 3)
        && bank.len() == 5
}

// Whether what a row calls gives what it is to give.
fn is_called(alloc: Global, row: &str) -> bool {
    let mut bank = Bank::new(alloc);
    row == "numbers of atoms" && numbers_atoms(alloc, &mut bank)
}

/// Of `symbols`, `copy`, `tree` and `put`: a text, and of the first one the symbols. Of `call`: what is called.
pub static TABLES: &str = "symbols:
a @m 1 [] * a + : a @m a
@m a 5 {} : @m a
#m a << : #m a

copy:
a b / c a % * 2 +
@m a b {}
#m a << b <<
m~64

tree:
a b / 2 +
@m a b {}

put:
a 1 +
@m 0 a {}
#m 5 <<

call:
numbers of atoms
";
