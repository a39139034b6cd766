//! The tests of written terms.

ghost use Rattle.term_values.specs.Checks.{numbers_fit, names_known, sorts_fit, ones_left_out};

use crate::checks::Check;
use crate::names::{Names, has_sort, is_known};
use nf_terms::symbols::Sort;
use nf_terms::tree::Side;
use term_condition_text::numbers::fits;

/// Each number is at most 2^127 - 1.
#[derive(Drop)]
pub struct NumbersFit;

impl Check for NumbersFit {
    ghost use Rattle.term_values.specs.Checks.{numbers_fit};

    ghost test = { λ _. numbers_fit };

    fn number(&self, digits: &[u8]) -> bool {
        fits(digits)
    }

    fn factor(&self, _digits: &[u8]) -> bool {
        true
    }

    fn name(&self, _wanted: Sort, _side: Side, _name: &[u8]) -> bool {
        true
    }
}

/// Each name stands for a position.
#[derive(Drop)]
pub struct NamesKnown<'a, N>(pub &'a N);

impl<'a, N: Names> Check for NamesKnown<'a, N> {
    ghost use Rattle.term_values.specs.Checks.{names_known};

    ghost test = { λ t. names_known (N.find t.0.now) };

    fn number(&self, _digits: &[u8]) -> bool {
        true
    }

    fn factor(&self, _digits: &[u8]) -> bool {
        true
    }

    fn name(&self, _wanted: Sort, side: Side, name: &[u8]) -> bool {
        is_known(self.0, side, name)
    }
}

/// Each name stands for a position of the sort that is needed.
#[derive(Drop)]
pub struct SortsFit<'a, N>(pub &'a N);

impl<'a, N: Names> Check for SortsFit<'a, N> {
    ghost use Rattle.term_values.specs.Checks.{sorts_fit};

    ghost test = { λ t. sorts_fit (N.find t.0.now) };

    fn number(&self, _digits: &[u8]) -> bool {
        true
    }

    fn factor(&self, _digits: &[u8]) -> bool {
        true
    }

    fn name(&self, wanted: Sort, side: Side, name: &[u8]) -> bool {
        has_sort(self.0, wanted, side, name)
    }
}

/// No 1 stands before an atom.
#[derive(Drop)]
pub struct OnesLeftOut;

impl Check for OnesLeftOut {
    ghost use Rattle.term_values.specs.Checks.{ones_left_out};

    ghost test = { λ _. ones_left_out };

    fn number(&self, _digits: &[u8]) -> bool {
        true
    }

    fn factor(&self, digits: &[u8]) -> bool {
        digits != b"1".as_slice()
    }

    fn name(&self, _wanted: Sort, _side: Side, _name: &[u8]) -> bool {
        true
    }
}

/// All of these at once.
#[derive(Drop)]
pub struct Faultless<'a, N>(pub &'a N);

impl<'a, N: Names> Check for Faultless<'a, N> {
    ghost use Rattle.term_values.specs.Checks.{faultless};

    ghost test = { λ t. faultless (N.find t.0.now) };

    fn number(&self, digits: &[u8]) -> bool {
        NumbersFit.number(digits)
    }

    fn factor(&self, digits: &[u8]) -> bool {
        OnesLeftOut.factor(digits)
    }

    fn name(&self, wanted: Sort, side: Side, name: &[u8]) -> bool {
        has_sort(self.0, wanted, side, name)
    }
}
