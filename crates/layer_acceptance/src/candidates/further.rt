//! Further candidates.

use crate::calls::value_at;
use crate::candidates::first::first_of_texts;
use crate::machines::reading::machine;
use fs_ast::machine::Machine;
use fs_trials::candidates::Candidates;
use std::alloc::Global;

// The pool of two of these has 10 numbers, so that further candidates come from number 100 on. Further numbers are 0 to 10,
// 12, 16, -1, -2, -3, -5, 99, 100 and 101. Signed ones are the same 17, and then 99, -99, 100, -100, 101, -101, -6, -7 and -8.
const CONSTANTS: &str = "fsmd 1; input a, b; input array m; output y; reset s0;
state s0: when a > 100 goto s0: y = b + 7; goto s0: y = m[a];";

// After n turns y is the n-th power of two.
const POWERS: &str = "fsmd 1; input n; local i, r; output y; reset s0;
state s0: goto s1: i = 0, r = 1;
state s1: when i < n goto s1: i = i + 1, r = r + r; goto s0: y = r;";

// After n turns y is the number of regions into which lines between n + 1 points of a circle divide it: 1, 2, 4, 8, 16, 31 ..
const REGIONS: &str = "fsmd 1; input n; local i, r, d, e, f; output y; reset q0;
state q0: goto q1: i = 0, r = 1, d = 1, e = 1, f = 1;
state q1: when i < n goto q1: i = i + 1, r = r + d, d = d + e, e = e + f, f = f + 1; goto q0: y = r;";

// What further candidate j gives index i of input k of a machine.
fn further_value(alloc: Global, m: &Machine, j: u64, k: u32, i: i128) -> Option<i128> {
    if j >= 256 {
        return None;
    }
    let candidates = Candidates::of(alloc, m, m).ok()?;
    let inputs = candidates
        .inputs(alloc, candidates.count() - 256 + j, m)
        .ok()?;
    value_at(&inputs, k, i)
}

// The first, some in the middle and the last, of which those from 192 on are signed ones, each at two scalars and at places of an
// array: the number of the candidate, the input, the index and what is given.
static NUMBERS: [(u64, u32, i128, i128); 22] = [
    (0, 0, 0, 99),
    (0, 1, 0, 8),
    (0, 2, 0, 101),
    (0, 2, 1, 4),
    (0, 2, 31, -2),
    (0, 2, 32, 0),
    (0, 2, -1, 0),
    (7, 0, 0, 8),
    (7, 1, 0, 16),
    (7, 2, 3, 101),
    (7, 2, 15, 12),
    (7, 2, 16, 8),
    (191, 2, 0, 10),
    (191, 2, -1, 0),
    (192, 0, 0, -6),
    (192, 2, -1, 8),
    (255, 0, 0, -6),
    (255, 1, 0, -99),
    (255, 2, 0, -1),
    (255, 2, 31, -100),
    (255, 2, 32, 0),
    (255, 2, -4, -8),
];

#[test]
fn numbers_of_further_candidates(rt: HostRuntime) -> Result<(), &'static str> {
    let machine = machine(rt.alloc(), CONSTANTS)?;
    for (j, k, i, number) in &NUMBERS {
        assert!(rt;
            further_value(rt.alloc(), &machine, *j, *k, *i) == Some(*number),
            "candidate {j}, input {k}, index {i}"
        );
    }
    Ok(())
}

// Whether the first candidate that shows a difference of two texts' machines is this one, and gives the first input this number.
fn is_first(alloc: Global, left: &str, right: &str, j: u64, number: i128) -> bool {
    match first_of_texts(alloc, left, right) {
        Some(Some(found)) => found.j == j && value_at(&found.inputs, 0, 0) == Some(number),
        _ => false,
    }
}

// A loop must turn five times before the two differ. The pool is 0, 1, -1 and 2, so its 16 candidates show nothing: the second
// of the further ones gives 6.
#[test]
fn only_a_further_candidate_differs(rt: HostRuntime) {
    assert!(rt; is_first(rt.alloc(), POWERS, REGIONS, 17, 6));
}
