//! Trees from texts, as they are written: nothing is put in order.
//!
//! A small letter is a scalar of the left side, a capital one of the right side; `@m` is the array m and `@0` the array of
//! zeros; a number is itself, and `none` a monomial without atoms whose coefficient is 0. `+` stands behind two sums, `*`
//! behind two monomials, `/` and `%` behind a dividend and a divisor, `[]` behind an array and an index, and `{}` behind an
//! array, an index and a value. `a^3` is the product of three a, and `m~3` is m read at m read at m read at 0.

use nf_terms::atoms::{make_quotient, make_read, make_remainder};
use nf_terms::stop::NoMemory;
use nf_trees::tree::{ArrTree, Atom, Base, MonoTree, PolyTree, Pos, Side};
use std::alloc::Global;

/// Sums and arrays: a word takes what it works on from the ends, and what it makes comes last.
#[derive(Drop)]
pub struct Trees {
    pub sums: Vec<PolyTree>,
    pub arrays: Vec<ArrTree>,
}

/// The variable of a letter.
pub fn position(name: &str) -> Option<Pos> {
    let letter = name.as_bytes().first()?;
    if name.len() > 1 {
        return None;
    }
    match *letter {
        b'a'..=b'z' => Some(Pos {
            side: Side::Left,
            var: (*letter - b'a') as u32,
        }),
        b'A'..=b'Z' => Some(Pos {
            side: Side::Right,
            var: (*letter - b'A') as u32,
        }),
        _ => None,
    }
}

/// How many arrays or lists a word works on, and how many sums behind them; a name or a number works on none.
pub fn operands(word: &str) -> (usize, usize) {
    match word {
        "+" | "-" | "*" | "/" | "%" => (0, 2),
        "neg" => (0, 1),
        "[]" | "<<" => (1, 1),
        "{}" => (1, 2),
        _ => (0, 0),
    }
}

/// Puts an item behind the others of a list, where there is memory.
pub fn put_last<T: Drop>(list: &mut Vec<T>, item: T) -> bool {
    list.push(item).is_ok()
}

// Puts the sum of one monomial.
fn put_monomial(
    alloc: Global,
    sums: &mut Vec<PolyTree>,
    atoms: Vec<Atom>,
    coefficient: i128,
) -> bool {
    let mut monos = Vec::new(alloc);
    let is_put = put_last(&mut monos, (MonoTree { atoms }, coefficient));
    put_last(sums, PolyTree { monos }) && is_put
}

// Puts a power of a symbol.
fn put_power(alloc: Global, sums: &mut Vec<PolyTree>, symbol: Pos, times: u32) -> bool {
    let mut atoms = Vec::new(alloc);
    let mut is_put = true;
    for _ in 0..times {
        is_put = put_last(&mut atoms, Atom::Sym(symbol)) && is_put;
    }
    put_monomial(alloc, sums, atoms, 1) && is_put
}

// Puts a number; 0 has no monomial.
fn put_number(alloc: Global, sums: &mut Vec<PolyTree>, word: &str) -> bool {
    match word.parse::<i128>() {
        Ok(0) => put_last(sums, zero(alloc)),
        Ok(number) => put_monomial(alloc, sums, Vec::new(alloc), number),
        Err(_) => word == "none" && put_monomial(alloc, sums, Vec::new(alloc), 0),
    }
}

// Puts a symbol, a power of one or a number.
fn put_sum(alloc: Global, sums: &mut Vec<PolyTree>, word: &str) -> bool {
    let (name, times) = word.split_once('^').unwrap_or((word, "1"));
    match (position(name), times.parse::<u32>()) {
        (Some(symbol), Ok(times)) => put_power(alloc, sums, symbol, times),
        _ => put_number(alloc, sums, word),
    }
}

// Puts the array of a symbol, or that of zeros.
fn put_array(alloc: Global, arrays: &mut Vec<ArrTree>, name: &str) -> bool {
    match position(name) {
        Some(symbol) => put_last(arrays, bare_array(alloc, Base::Sym(symbol))),
        None => name == "0" && put_last(arrays, bare_array(alloc, Base::Zero)),
    }
}

// Puts so many reads of an array inside one another, round 0.
fn put_reads(alloc: Global, trees: &mut Trees, name: &str, times: u32) -> bool {
    let mut is_put = put_last(&mut trees.sums, zero(alloc));
    for _ in 0..times {
        is_put = put_array(alloc, &mut trees.arrays, name)
            && put_atom(alloc, trees, "[]")
            && is_put;
    }
    is_put
}

// Puts the sum or the array of a name or a number.
fn put_operand(alloc: Global, trees: &mut Trees, word: &str) -> bool {
    if let Some(name) = word.strip_prefix("@") {
        return put_array(alloc, &mut trees.arrays, name);
    }
    match word.split_once('~') {
        Some((name, times)) => put_reads(alloc, trees, name, times.parse::<u32>().unwrap_or(0)),
        None => put_sum(alloc, &mut trees.sums, word),
    }
}

// The sum without a monomial.
fn zero(alloc: Global) -> PolyTree {
    PolyTree {
        monos: Vec::new(alloc),
    }
}

fn bare_array(alloc: Global, base: Base) -> ArrTree {
    ArrTree {
        base,
        writes: Vec::new(alloc),
    }
}

// The last sum, and 0 where none is there.
fn take_sum(alloc: Global, sums: &mut Vec<PolyTree>) -> PolyTree {
    match sums.pop() {
        Some(sum) => sum,
        None => zero(alloc),
    }
}

// The last array, and that of zeros where none is there.
fn take_array(alloc: Global, arrays: &mut Vec<ArrTree>) -> ArrTree {
    match arrays.pop() {
        Some(array) => array,
        None => bare_array(alloc, Base::Zero),
    }
}

// The last monomial of the last sum, and one without atoms where there is none.
fn take_monomial(alloc: Global, sums: &mut Vec<PolyTree>) -> (MonoTree, i128) {
    let mut sum = take_sum(alloc, sums);
    match sum.monos.pop() {
        Some(mono) => mono,
        None => {
            let atoms = Vec::new(alloc);
            (MonoTree { atoms }, 0)
        }
    }
}

// Puts the one sum behind the other.
fn add(alloc: Global, sums: &mut Vec<PolyTree>) -> bool {
    let mut right = take_sum(alloc, sums);
    let mut left = take_sum(alloc, sums);
    let is_put = left.monos.append(&mut right.monos).is_ok();
    put_last(sums, left) && is_put
}

// Puts the atoms of one monomial behind those of the other.
fn multiply(alloc: Global, sums: &mut Vec<PolyTree>) -> bool {
    let (mut right, factor) = take_monomial(alloc, sums);
    let (mut left, coefficient) = take_monomial(alloc, sums);
    let is_put = left.atoms.append(&mut right.atoms).is_ok();
    put_monomial(alloc, sums, left.atoms, coefficient.saturating_mul(factor)) && is_put
}

// Puts a write behind those of the last array.
fn write(alloc: Global, trees: &mut Trees) -> bool {
    let value = take_sum(alloc, &mut trees.sums);
    let index = take_sum(alloc, &mut trees.sums);
    let mut array = take_array(alloc, &mut trees.arrays);
    let is_put = put_last(&mut array.writes, (index, value));
    put_last(&mut trees.arrays, array) && is_put
}

// A read, a quotient or a remainder.
fn atom(alloc: Global, trees: &mut Trees, word: &str) -> Result<Atom, NoMemory> {
    let right = take_sum(alloc, &mut trees.sums);
    match word {
        "[]" => make_read(alloc, take_array(alloc, &mut trees.arrays), right),
        "/" => make_quotient(alloc, take_sum(alloc, &mut trees.sums), right),
        _ => make_remainder(alloc, take_sum(alloc, &mut trees.sums), right),
    }
}

// Puts it.
fn put_atom(alloc: Global, trees: &mut Trees, word: &str) -> bool {
    let Ok(atom) = atom(alloc, trees, word) else {
        return false;
    };
    let mut atoms = Vec::new(alloc);
    let is_put = put_last(&mut atoms, atom);
    put_monomial(alloc, &mut trees.sums, atoms, 1) && is_put
}

// Puts what a word makes of the last trees. Negation and what works on lists make no tree.
fn put(alloc: Global, trees: &mut Trees, word: &str) -> bool {
    let (arrays, sums) = operands(word);
    if trees.arrays.len() < arrays || trees.sums.len() < sums {
        return false;
    }
    match word {
        "+" => add(alloc, &mut trees.sums),
        "*" => multiply(alloc, &mut trees.sums),
        "{}" => write(alloc, trees),
        "[]" | "/" | "%" => put_atom(alloc, trees, word),
        _ => put_operand(alloc, trees, word),
    }
}

/// Puts what each word of a text makes of the trees before it.
pub fn put_each(alloc: Global, trees: &mut Trees, text: &str) -> bool {
    for word in text.split_whitespace() {
        if !put(alloc, trees, word) {
            return false;
        }
    }
    true
}
