//! Trees of terms, normal or not: their copies, their order, their size, depth and weight.
//!
//! Promises: trees of three sorts, their copies, their order and their measures; which symbols stand in them.
//!
//! Rules: `specs/View`, `specs/Order`, `specs/Measures`, `specs/Mentions`.
//!
//! Words:
//! - atom: a factor of a monomial that is no number: a symbol, a read of an array, a quotient or a remainder
//! - depth (of a term): the greatest number of brackets open at once in its text
//! - monomial: a product of atoms
//! - polynomial: a sum of monomials with their coefficients
//! - size: a measure of a normal form, in units
//! - symbol: a variable of one side, as an unknown
//! - unit (of size): what sizes are counted in
//! - weight: the sum of the absolute values of the coefficients
#![tactic(auto)]

pub mod atoms;
pub mod clones;
pub mod copies;
pub mod measures;
pub mod mentions;
pub mod order;
pub mod stop;
pub mod tree;
