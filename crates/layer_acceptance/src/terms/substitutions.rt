//! Vectors, and what they give in place of symbols.

use crate::terms::forms::{form, is_form};
use crate::terms::operations::is_event;
use crate::terms::trees::position;
use nf_substitution::subst::{Subst, subst_arr, subst_poly, subst_seq};
use nf_substitution::vector::Vector;
use nf_terms::form::Nf;
use nf_terms::stop::NfStop;
use std::alloc::Global;

// Gives the symbol of an equation its form, as `a = b 1 +`; an empty text is no equation.
fn put(alloc: Global, vector: &mut Vector, equation: &str) -> bool {
    let Some((name, text)) = equation.split_once('=') else {
        return equation.trim().is_empty();
    };
    let Some(symbol) = position(name.trim()) else {
        return false;
    };
    match form(alloc, text) {
        Ok(value) => vector.put(symbol, value).is_ok(),
        Err(_) => false,
    }
}

// The same of the equations between `;`.
fn put_each(alloc: Global, vector: &mut Vector, text: &str) -> bool {
    for equation in text.split(';') {
        if !put(alloc, vector, equation) {
            return false;
        }
    }
    true
}

// A form with a vector's forms in place of its symbols.
fn substitute(alloc: Global, form: &Nf, vector: &Vector) -> Result<Nf, NfStop> {
    match form {
        Nf::Num(sum) => Ok(Nf::Num(subst_poly(alloc, sum, vector)?)),
        Nf::Arr(array) => Ok(Nf::Arr(subst_arr(alloc, array, vector)?)),
        Nf::Seq(list) => Ok(Nf::Seq(subst_seq(alloc, list, vector)?)),
    }
}

// The same by a substitution that has kept what it met before.
fn substitute_again(alloc: Global, form: &Nf, subst: &mut Subst) -> Result<Nf, NfStop> {
    match form {
        Nf::Num(sum) => Ok(Nf::Num(subst.poly(alloc, sum)?)),
        Nf::Arr(array) => Ok(Nf::Arr(subst.arr(alloc, array)?)),
        Nf::Seq(list) => Ok(Nf::Seq(subst.seq(alloc, list)?)),
    }
}

// Whether what was found is the form of a text, or stopped as that says.
fn is_wanted(alloc: Global, found: Result<Nf, NfStop>, text: &str) -> bool {
    match found {
        Ok(form) => is_form(alloc, &form, text),
        Err(stop) => is_event(stop, text),
    }
}

// Whether a kept substitution gives the form of a text twice, or stops so.
fn gives_twice(alloc: Global, subst: &mut Subst, given: &Nf, text: &str) -> bool {
    is_wanted(alloc, substitute_again(alloc, given, subst), text)
        && is_wanted(alloc, substitute_again(alloc, given, subst), text)
}

// Whether a form over a vector is the form of a text, or stops as that says, by a kept substitution, too.
fn is_given(alloc: Global, vector: &Vector, given: &Nf, text: &str) -> bool {
    let mut subst = Subst::new(alloc, vector);
    is_wanted(alloc, substitute(alloc, given, vector), text)
        && gives_twice(alloc, &mut subst, given, text)
}

// The same of the form of the one text, and the other.
fn holds(alloc: Global, vector: &Vector, left: &str, right: &str) -> bool {
    match form(alloc, left) {
        Ok(given) => is_given(alloc, vector, &given, right),
        Err(_) => false,
    }
}

/// Whether a row's form over its vector is its other form, or stops as that says.
pub fn gives(alloc: Global, row: &str) -> bool {
    let (equations, rest) = row.split_once('|').unwrap_or((row, ""));
    let (left, right) = rest.split_once(':').unwrap_or((rest, ""));
    let mut vector = Vector::new(alloc);
    put_each(alloc, &mut vector, equations) && holds(alloc, &vector, left, right)
}

/// A vector, a text and what it becomes.
pub static TABLES: &str = "substitution:
a = b | a 1 + : b 1 +
a = b ; b = a | a 2 b * - : b 2 a * -
a = b 1 + | a a * : b b * 2 b * + 1 +
a = 0 | a b * : 0
a = 7 | a 2 / : 3
a = 7 ; b = 2 | a b % c + : c 1 +
| a b + : a b +
a = @m | a : a
m = @n 0 5 {} | @m 0 [] : 5
m = @n a 5 {} ; a = 0 | @m a [] : @n a 5 {} 0 []
m = @0 | @m a [] b * : 0
m = @0 | @m a 5 {} : @0 a 5 {}
a = b | @m a 5 {} b [] : 5
a = 1 ; b = 0 | @m a 5 {} b 6 {} : @m 0 6 {} 1 5 {}
a = b | @m a 5 {} b 6 {} : @m b 6 {}
m = @m a 1 {} ; a = a 1 + | @m a 2 {} : @m a 1 {} a 1 + 2 {}
s = #0 1 << ; a = 2 | #s a << : #0 1 << 2 <<
s = #0 | #s : #0
a = A | #0 a a * << : #0 A A * <<
a = b ; a = c | a : c

substitution:
a = a^64 ; b = 170141183460469231731687303715884105727 | a a * 2 b * + : large 4225 0
a = a^64 ; b = 170141183460469231731687303715884105727 | a 2 * b * c * a a * + : wide 2 170141183460469231731687303715884105727
";
