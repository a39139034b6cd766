//! Literals, clashes and implication.

use crate::terms::forms::{form, put_each};
use crate::terms::rows::number;
use crate::terms::trees::put_last;
use fs_model::parts::Rel;
use nf_refutation::refutation::{Places, is_refuted, refuted};
use nf_rel::clashes::{clash, implied, negate};
use nf_rel::copies::is_same;
use nf_rel::kind::Kind;
use nf_rel::literals::{Bound, NLit};
use nf_rel::normal::is_normal;
use nf_rel::normalize::literal;
use nf_terms::form::Nf;
use nf_terms::stop::NfStop;
use std::alloc::Global;

fn relation(word: &str) -> Option<Rel> {
    match word {
        "==" => Some(Rel::Eq),
        "!=" => Some(Rel::Ne),
        ">=" => Some(Rel::Ge),
        ">" => Some(Rel::Gt),
        "<=" => Some(Rel::Le),
        "<" => Some(Rel::Lt),
        _ => None,
    }
}

// The literal of two sums and the relation of a word.
fn make_literal(alloc: Global, sides: &[Nf], word: &str) -> Result<NLit, NfStop> {
    match (sides, relation(word)) {
        ([Nf::Num(left), Nf::Num(right)], Some(relation)) => literal(alloc, relation, left, right),
        _ => Err(NfStop::NoMemory),
    }
}

// The literal of a text, as `a b +, >=, 2`.
fn read_literal(alloc: Global, text: &str) -> Result<NLit, NfStop> {
    let (first, rest) = text.split_once(',').unwrap_or((text, ""));
    let (word, second) = rest.split_once(',').unwrap_or((rest, ""));
    let mut sides = Vec::new(alloc);
    put_each(alloc, &mut sides, first)?;
    put_each(alloc, &mut sides, second)?;
    make_literal(alloc, sides.as_slice(), word.trim())
}

// Puts the literals of a text, between `;`.
fn put_literals(alloc: Global, list: &mut Vec<NLit>, text: &str) -> bool {
    for part in text.split(';') {
        match read_literal(alloc, part) {
            Ok(literal) => {
                if !put_last(list, literal) {
                    return false;
                }
            }
            Err(_) => return false,
        }
    }
    true
}

fn word_of(kind: Kind) -> &'static str {
    match kind {
        Kind::Ge => ">=",
        Kind::Le => "<=",
        Kind::Eq => "==",
        Kind::Ne => "!=",
    }
}

// Whether a bound is the one of a text, as `a b +, >=, 2`.
fn is_bound(alloc: Global, bound: &Bound, text: &str) -> bool {
    let (first, rest) = text.split_once(',').unwrap_or((text, ""));
    let (word, digits) = rest.split_once(',').unwrap_or((rest, ""));
    match form(alloc, first) {
        Ok(Nf::Num(sum)) => {
            sum == bound.dir
                && word.trim() == word_of(bound.kind)
                && digits.trim().parse::<i128>().ok() == Some(bound.bound)
        }
        _ => false,
    }
}

// Whether a literal is the one of a text.
fn is_literal(alloc: Global, literal: &NLit, text: &str) -> bool {
    match literal {
        NLit::True => text.trim() == "true",
        NLit::False => text.trim() == "false",
        NLit::Is(bound) => is_bound(alloc, bound, text),
    }
}

// Whether a literal is in normal form, and a copy of it is the same and the one of a text.
fn is_copied(alloc: Global, literal: &NLit, text: &str) -> bool {
    match literal.try_clone(alloc) {
        Ok(copy) => {
            is_normal(literal) && is_same(literal, &copy) && is_literal(alloc, &copy, text)
        }
        Err(_) => false,
    }
}

// Whether the negation of a literal is the other one.
fn is_negation(alloc: Global, literal: &NLit, other: &NLit) -> bool {
    match literal.try_clone(alloc) {
        Ok(copy) => {
            let negation = negate(copy);
            is_same(&negation, other)
        }
        Err(_) => false,
    }
}

// Whether two literals clash as wanted, in both orders; those that do are not the same.
fn clash_as(left: &NLit, right: &NLit, wanted: bool) -> bool {
    clash(left, right) == wanted
        && clash(right, left) == wanted
        && !(wanted && is_same(left, right))
}

// Whether places are those of a text, or none where that is `none`.
fn are_places(found: Option<Places>, text: &str) -> bool {
    match found {
        None => text == "none",
        Some(Places { first, second }) => {
            let (left, right) = text.split_once(' ').unwrap_or(("", ""));
            number(left) == first as u128 && number(right) == second as u128
        }
    }
}

// Whether a list that is short is refuted, and which of its literals clash first, as the name of a table and a row's places
// say.
fn are_refuted(alloc: Global, name: &str, list: &[NLit], places: &str) -> bool {
    if list.len() > 100 {
        return false;
    }
    let found = refuted(list);
    match is_refuted(alloc, list) {
        Ok(answer) => {
            answer == (found.is_some() || name == "refuted together") && are_places(found, places)
        }
        Err(_) => false,
    }
}

// Whether a row of two literals holds.
fn pair_holds(alloc: Global, name: &str, left: &NLit, right: &NLit) -> bool {
    match name {
        "negation" => is_negation(alloc, left, right) && is_negation(alloc, right, left),
        "clash" => clash_as(left, right, true),
        _ => name == "no clash" && clash_as(left, right, false),
    }
}

// Whether a row holds whose literals are these.
fn row_holds(alloc: Global, name: &str, list: &[NLit]) -> bool {
    match list {
        [front @ .., last] if name == "implied" || name == "not implied" => {
            implied(front, last) == (name == "implied")
        }
        [left, right] => pair_holds(alloc, name, left, right),
        _ => false,
    }
}

// Whether a row holds whose literals before the `:` are these.
fn list_holds(alloc: Global, name: &str, list: &mut Vec<NLit>, rest: &str) -> bool {
    match name {
        "literal" => match list.as_slice() {
            [literal] => is_copied(alloc, literal, rest),
            _ => false,
        },
        "refuted" | "refuted together" | "open" => {
            are_refuted(alloc, name, list.as_slice(), rest.trim())
        }
        _ => put_literals(alloc, list, rest) && row_holds(alloc, name, list.as_slice()),
    }
}

/// Whether a row about literals holds.
pub fn holds(alloc: Global, name: &str, row: &str) -> bool {
    let (left, rest) = row.split_once(':').unwrap_or((row, "none"));
    let mut list = Vec::new(alloc);
    put_literals(alloc, &mut list, left) && list_holds(alloc, name, &mut list, rest)
}

/// Of `literal` a relation and its literal, and of `refuted` the places of the first two that clash. Of `refuted together` and
/// `open` no two clash.
pub static TABLES: &str = "literal:
2 a *, >, 3: a, >=, 2
2 a *, ==, 3: false
2 a *, ==, 4: a, ==, 2
2 a *, !=, 3: true
2 a *, !=, 4: a, !=, 2
a, <, b: a -1 b * +, <=, -1
b, <, a: a -1 b * +, >=, 1
a, >=, a: true
a, >, a: false
a, ==, a: true
3, <=, 3: true
3, !=, 3: false
2 a *, >=, -3: a, >=, -1
2 a *, >=, 3: a, >=, 2
2 a *, <=, -3: a, <=, -2
2 a *, <=, 3: a, <=, 1
-2 a *, >=, 3: a, <=, -2
-2 a *, >, -3: a, <=, 1
-2 a *, ==, 6: a, ==, -3
4 a * 6 b * +, >=, 1: 2 a * 3 b * +, >=, 1
6 a * -4 b * +, <, 1: 3 a * -2 b * +, <=, 0
a 5 +, >=, 0: a, >=, -5
a, <=, 170141183460469231731687303715884105725: a, <=, 170141183460469231731687303715884105725
a, >=, -170141183460469231731687303715884105726: a, >=, -170141183460469231731687303715884105726
@m 2 a * [] 2 *, ==, 8: @m 2 a * [], ==, 4

negation:
a, >=, 2: a, <=, 1
a, <=, 2: a, >=, 3
a, ==, 2: a, !=, 2
a, !=, 2: a, ==, 2

clash:
a, >=, 2: a, <=, 1
a, >=, 2: a, ==, 1
a, <=, 2: a, ==, 3
a, ==, 2: a, ==, 3
a, ==, 2: a, !=, 2
2 a *, >=, 3: a, <, 2
a, <, b: b, <=, a
0, ==, 1: a, >=, 0
0, ==, 1: 0, ==, 0

no clash:
a, >=, 2: a, <=, 2
a, >=, 2: b, <=, 1
a, >=, 2: a, >=, 5
a, <=, 2: a, <=, 1
a, >=, 2: a, ==, 2
a, >=, 2: a, !=, 2
a, ==, 2: a, ==, 2
a, ==, 2: a, !=, 3
a, !=, 2: a, !=, 2
0, ==, 0: a, >=, 0
0, ==, 0: 0, ==, 0
a, >=, 2: a b +, <=, 1

refuted:
a, >=, 2: none
a, >=, 2; b, <=, 1: none
a, >=, 2; b, <=, 1; a, <=, 1: 0 2
a, >=, 2; b, <=, 1; b, >=, 2; a, <=, 1: 0 3
b, <=, 1; b, >=, 2; a, <=, 1; a, >=, 2: 0 1
c, ==, 0; a, >=, 2; a, <=, 1; a, <=, 0: 1 2
0, ==, 1: 0 0
0, ==, 1; 0, ==, 1: 0 0
a, >=, 2; 0, ==, 1: 0 1
0, ==, 0; 0, ==, 0: none
a, !=, 5; a, ==, 1; a, ==, 5; a, ==, 9: 0 2
a, !=, 4; a, ==, 1; a, ==, 5: 1 2
a, ==, 3; a, !=, 2; a, !=, 3: 0 2
a, >=, 2; b, >=, 2; a, !=, 2; a, ==, 2: 2 3
a b +, >=, 2; a, <=, 1; a b +, ==, 1: 0 2
a, <=, 4; a, >=, 1; a, >=, 5; a, >=, 3: 0 2
a, >=, 1; a, <=, 9; a, !=, 3; b, ==, 3: none

refuted together:
a, >=, 3; a, <=, 3; a, !=, 3
a, <=, b; b, <=, a; a, !=, b
2 a *, >=, 5; 2 a *, <=, 7; a, !=, 3
a, !=, 4; a, <=, 5; a, !=, 3; a, >=, 3; a, !=, 5
a, >=, -1; b, >=, 0; a, <=, 1; a, !=, 0; a, !=, 1; a, !=, -1
b, >=, 0; a, >=, 3; c, !=, 7; a, !=, 3; b, <=, 4; a, <=, 3
a, >=, 170141183460469231731687303715884105726; a, <=, 170141183460469231731687303715884105726; a, !=, 170141183460469231731687303715884105726
a, >=, -170141183460469231731687303715884105726; a, <=, -170141183460469231731687303715884105726; a, !=, -170141183460469231731687303715884105726
a, >=, 170141183460469231731687303715884105724; a, <=, 170141183460469231731687303715884105725; a, !=, 170141183460469231731687303715884105724; a, !=, 170141183460469231731687303715884105725

open:
a, >=, 3; a, !=, 3; a, !=, 4
a, <=, 3; a, !=, 3; a, !=, 2
a, !=, 3; a, !=, 4
a, >=, 3; a, <=, 5; a, !=, 3; a, !=, 5
a, ==, 4; a, !=, 3; a, !=, 5; a, >=, 4; a, <=, 4
a, >=, 3; b, <=, 3; a, !=, 3; b, !=, 3
a, >=, 0; b, >=, 0; a b +, <=, -1
a, >=, 170141183460469231731687303715884105726; a, !=, 170141183460469231731687303715884105726
a, <=, -170141183460469231731687303715884105725; a, !=, -170141183460469231731687303715884105725

implied:
a, >=, 2: a, >=, 2
a, >=, 2: a, >=, 1
a, >=, 2: a, >, 1
a, >=, 2: a, !=, 1
a, ==, 2: a, <=, 2
a, ==, 2: a, !=, 3
b, >=, 0; a, <, b: b, >, a
b, >=, 0: 0, ==, 0
0, ==, 1: a, ==, 5
0, ==, 1: 0, ==, 1
a, >=, 2; a, <=, 2: a, ==, 2
a, >=, 3; a, !=, 3: a, >=, 4
a, !=, b; a, <=, b: a, <, b
a, <=, 5; a, !=, 5; a, !=, 4: a, <, 4
a, >=, 0; a, <=, 2; a, !=, 0; a, !=, 2: a, ==, 1
a, >=, 3; a, <=, 4; a, !=, 3: a, !=, 5
a, >=, 3; a, <=, 3; a, !=, 3: a, ==, 9
a, >=, 3; 0, ==, 1: b, ==, 9
a, <=, 170141183460469231731687303715884105725; a, !=, 170141183460469231731687303715884105725: a, <=, 170141183460469231731687303715884105724
a, >=, -170141183460469231731687303715884105726; a, !=, -170141183460469231731687303715884105726: a, >=, -170141183460469231731687303715884105725
a, >=, 170141183460469231731687303715884105726: a, >=, 170141183460469231731687303715884105726

not implied:
a, >=, 2: a, >=, 3
a, >=, 2: a, <=, 5
a, >=, 2: b, >=, 2
a, !=, 2: a, !=, 3
b, >=, 0: 0, ==, 1
a, >=, 3; a, !=, 4: a, >=, 4
a, >=, 0; a, <=, 2; a, !=, 0: a, ==, 1
a, >=, 3; a, <=, 3; a, !=, 3: b, ==, 9
a, >=, 3; a, <=, 3; a, !=, 3: 0, ==, 1
a, >=, 170141183460469231731687303715884105725: a, >=, 170141183460469231731687303715884105726
";
