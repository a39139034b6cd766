//! The order of terms.

use crate::terms::forms::put_each;
use nf_terms::form::Nf;
use std::alloc::Global;
use std::cmp::Ordering;

// The order of two forms of one sort.
fn order_of(left: &Nf, right: &Nf) -> Option<Ordering> {
    match (left, right) {
        (Nf::Num(left), Nf::Num(right)) => Some(left.cmp(right)),
        (Nf::Arr(left), Nf::Arr(right)) => Some(left.cmp(right)),
        (Nf::Seq(left), Nf::Seq(right)) => Some(left.cmp(right)),
        _ => None,
    }
}

// Whether two forms stand in this order, and no other.
fn stand(lower: &Nf, higher: &Nf) -> bool {
    order_of(lower, higher) == Some(Ordering::Less)
        && order_of(higher, lower) == Some(Ordering::Greater)
        && order_of(lower, lower) == Some(Ordering::Equal)
        && lower.is_same(lower)
        && !lower.is_same(higher)
}

// Whether two forms are there, and stand in this order.
fn both_stand(forms: &[Nf]) -> bool {
    match forms {
        [lower, higher] => stand(lower, higher),
        _ => false,
    }
}

/// Whether the left form of a row stands before the right one.
pub fn stands(alloc: Global, row: &str) -> bool {
    let (left, right) = row.split_once(" < ").unwrap_or((row, ""));
    let mut forms = Vec::new(alloc);
    put_each(alloc, &mut forms, left).is_ok()
        && put_each(alloc, &mut forms, right).is_ok()
        && both_stand(forms.as_slice())
}

/// Two forms in order.
pub static TABLES: &str = "order:
a < b
b < A
z < A
A < B
A < @m 0 []
@M 0 [] < a b /
A B / < a b %
a a * < a b *
a b * < b b *
b b * < a
a b * < a
a b * < A
a < a b +
a < a 1 +
a < 2 a *
2 a * < 3 a *
a neg < a
a < 1
A < 5
0 < a
1 < 2
1 neg < 1
@m 0 [] < @m 1 []
@m 5 [] < @n 0 []
a b / < a c /
a c / < b a /
@0 < @a
@0 0 1 {} < @a
@a < @A
@m < @m 0 1 {}
@m 0 2 {} < @m 1 0 {}
@m 0 1 {} < @m 0 2 {}
@m 0 1 {} < @m 0 1 {} 1 1 {}
#0 < #a
#0 5 << < #a
#a < #a 1 <<
#a 1 << < #a 2 <<
";
