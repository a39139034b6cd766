//! Refuted literals.

ghost use Rattle.std.specs.Prelude.{◌≡◌, ◌<◌, ◌^◌, length, map, drop, option_map, IfOk, IfSome};
ghost use Rattle.std.specs.List.{position_from};
ghost use Rattle.nf_rel.specs.Bounds.{clashing_from};
ghost use Rattle.nf_rel.specs.Literals.{clash, is_refuted};
ghost use Rattle.nf_rel.specs.View.{literal_in};

use crate::bound_table::BoundTable;
use nf_rel::clashes::clash;
use nf_rel::literals::NLit;
use nf_terms::stop::NoMemory;
use std::alloc::Global;

/// Two places.
#[derive(Clone, Copy)]
pub struct Places {
    pub first: u32,
    pub second: u32,
}

// The first place from there on whose literal clashes with one.
fn first_clash(list: &[NLit], l: &NLit, first: usize) -> Option<usize>
    requires { first < length list.now }
    ensures place { result ≡ position_from (clash (literal_in l.now)) first (map literal_in (drop first list.now)) }
    ensures within { IfSome result (λ place. place < length list.now) }
{
    let mut place = first;
    while place < list.len() {
        if clash(l, &list[place]) {
            return Some(place);
        }
        place += 1;
    }
    None
}

/// The least two places whose literals clash, by the first and then by the second. They are equal exactly where the list
/// begins with a False.
///
/// A list may be refuted where no two of its literals clash. Each literal is compared with those behind it, so n of them
/// take n * n / 2 comparisons; it takes no memory.
pub fn refuted(list: &[NLit]) -> Option<Places>
    requires { length list.now < 2 ^ 32 }
    ensures { option_map (λ c. (c.first, c.second)) result ≡ clashing_from 0 (map literal_in list.now) }
{
    for first in 0..list.len() {
        if let Some(second) = first_clash(list, &list[first], first) {
            return Some(Places {
                first: first as u32,
                second: second as u32,
            });
        }
    }
    None
}

/// Whether a literal is False, or no integer meets all literals of some direction.
///
/// Literals are looked up by their directions, so n of them take the time of n log n comparisons, and log n for each literal
/// and each number that a `!=` leaves out beside the greatest lower bound of its direction. The one refusal is out of memory.
pub fn is_refuted(alloc: Global, list: &[NLit]) -> Result<bool, NoMemory>
    ensures { IfOk result (λ refuted. refuted ≡ is_refuted (map literal_in list.now)) }
{
    let table = BoundTable::of(alloc, list)?;
    Ok(table.refutes_any(list))
}
