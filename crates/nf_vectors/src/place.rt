//! Places: positions with sorts, as keys.

ghost use Rattle.std.specs.Prelude.{◌≡◌};
ghost use Rattle.nf_terms.specs.TermSorts.{same_term_sort as same};

use nf_terms::symbols::Sort;
use nf_terms::tree::Pos;
use std::hash::Hash;

/// A position and the sort of its form.
#[derive(Clone, Copy, Hash, Drop)]
pub struct Place {
    pub pos: Pos,
    pub sort: Sort,
}

// Whether two sorts are the same.
fn same_sort(left: Sort, right: Sort) -> bool
    ensures { result ≡ same left right }
{
    match left {
        Sort::Scalar => matches!(right, Sort::Scalar),
        Sort::Array => matches!(right, Sort::Array),
        Sort::List => matches!(right, Sort::List),
    }
}

impl PartialEq for Place {
    ghost use Rattle.nf_vectors.specs.SamePlaces.{same_place, places_partly};

    ghost eq = { same_place };

    ghost laws = { places_partly };

    fn eq(&self, other: &Place) -> bool {
        self.pos == other.pos && same_sort(self.sort, other.sort)
    }
}

impl Eq for Place {
    ghost use Rattle.nf_vectors.specs.SamePlaces.{places_same};

    ghost laws = { places_same };
}

#[derived]
impl Hash for Place {
    ghost use Rattle.std.specs.Hash.{same_Alike};
    ghost use Rattle.nf_vectors.specs.SamePlaces.{places_decide};

    ghost respects_eq = { (same_Alike _ places_decide).fed };
}
