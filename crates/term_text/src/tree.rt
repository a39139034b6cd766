//! Terms as they are written, over the bytes that they are read from.

use nf_terms::tree::Side;

/// An atom: a symbol, an array read at an index, a quotient or a remainder.
#[derive(Drop)]
#[cycle(written)]
pub enum WrittenAtom<'a> {
    Symbol(Side, &'a [u8]),
    Read(Box<WrittenArray<'a>>, Box<WrittenPolynomial<'a>>),
    Quotient(Box<WrittenPolynomial<'a>>, Box<WrittenPolynomial<'a>>),
    Remainder(Box<WrittenPolynomial<'a>>, Box<WrittenPolynomial<'a>>),
}

/// What a monomial begins with: the digits of a number, or an atom.
#[derive(Drop)]
#[cycle(written)]
pub enum WrittenHead<'a> {
    Number(&'a [u8]),
    One(WrittenAtom<'a>),
}

/// A monomial: its head, and the atoms after it.
#[derive(Drop)]
#[cycle(written)]
pub struct WrittenMonomial<'a> {
    pub head: WrittenHead<'a>,
    pub atoms: Vec<WrittenAtom<'a>>,
}

/// A polynomial: each monomial, and whether it is taken away. Without a monomial it is 0.
#[derive(Drop)]
#[cycle(written)]
pub struct WrittenPolynomial<'a> {
    pub monomials: Vec<(bool, WrittenMonomial<'a>)>,
}

/// What an array's writes begin from: `zero`, or a symbol.
#[derive(Clone, Copy)]
pub enum WrittenBase<'a> {
    Zero,
    Symbol(Side, &'a [u8]),
}

/// An array: writes over a base, the first write first, each an index and a value.
#[derive(Drop)]
#[cycle(written)]
pub struct WrittenArray<'a> {
    pub base: WrittenBase<'a>,
    pub writes: Vec<(WrittenPolynomial<'a>, WrittenPolynomial<'a>)>,
}

/// What a list's items stand behind: `none`, or a symbol.
#[derive(Clone, Copy)]
pub enum WrittenListBase<'a> {
    Empty,
    Symbol(Side, &'a [u8]),
}

/// A list: items behind a base, the first item first.
#[derive(Drop)]
pub struct WrittenList<'a> {
    pub base: WrittenListBase<'a>,
    pub items: Vec<WrittenPolynomial<'a>>,
}
