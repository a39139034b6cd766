//! What names stand for.

ghost use Rattle.std.specs.Prelude.{◌≡◌, is_some};
ghost use Rattle.nf_terms.specs.TermSorts.{same_term_sort};
ghost use Rattle.term_values.specs.NameMeanings.{position, name_has_sort};

use nf_terms::symbols::Sort;
use nf_terms::tree::{Pos, Side};

/// The positions that the names of the two sides stand for.
pub trait Names {
    ghost use Rattle.std.specs.Prelude.{◌≡◌};
    ghost use Rattle.term_values.specs.NameMeanings.{Find};

    /// The position of each name, and its sort.
    ghost find: { Self → Find };

    /// The position of a name of a side and its sort, and none where the name stands for none.
    fn find(&self, side: Side, name: &[u8]) -> Option<(Pos, Sort)>
        ensures { result ≡ find self.now side name.now };
}

/// The position of a name; of one that stands for none, any position.
pub fn position<N: Names>(names: &N, side: Side, name: &[u8]) -> Pos
    ensures { result ≡ position (N.find names.now) side name.now }
{
    match names.find(side, name) {
        Some((place, _)) => place,
        None => Pos {
            side: Side::Left,
            var: 0,
        },
    }
}

/// Whether a name stands for a position.
pub fn is_known<N: Names>(names: &N, side: Side, name: &[u8]) -> bool
    ensures { result ≡ is_some (N.find names.now side name.now) }
{
    names.find(side, name).is_some()
}

fn same_sort(wanted: Sort, sort: Sort) -> bool
    ensures { result ≡ same_term_sort wanted sort }
{
    match wanted {
        Sort::Scalar => match sort {
            Sort::Scalar => true,
            Sort::Array | Sort::List => false,
        },
        Sort::Array => match sort {
            Sort::Array => true,
            Sort::Scalar | Sort::List => false,
        },
        Sort::List => match sort {
            Sort::List => true,
            Sort::Scalar | Sort::Array => false,
        },
    }
}

/// Whether a name stands for a position of this sort.
pub fn has_sort<N: Names>(names: &N, wanted: Sort, side: Side, name: &[u8]) -> bool
    ensures { result ≡ name_has_sort wanted (N.find names.now side name.now) }
{
    match names.find(side, name) {
        Some((_, sort)) => same_sort(wanted, sort),
        None => false,
    }
}
