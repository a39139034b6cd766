//! Conditions as they are written, over the bytes that they are read from.

use nf_rel::kind::Kind;
use term_text::tree::WrittenPolynomial;

/// A whole number: `0`, or digits with or without a `-` before them.
#[derive(Clone, Copy)]
pub enum WrittenInteger<'a> {
    Zero,
    Positive(&'a [u8]),
    Negative(&'a [u8]),
}

/// A condition: `false`, or a polynomial against a number.
#[derive(Drop)]
pub enum WrittenCondition<'a> {
    False,
    Compared(WrittenPolynomial<'a>, Kind, WrittenInteger<'a>),
}
