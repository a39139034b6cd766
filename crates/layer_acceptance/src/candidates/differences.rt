//! The first candidate that shows a difference of two machines.

use crate::candidates::first::first_of_texts;
use std::alloc::Global;

const SUM: &str = "fsmd 1; input a, b; output y; local t; reset s0;
state s0: goto s1: t = a + b;
state s1: goto s0: y = t * t;";

const SQUARES: &str = "fsmd 1; input a, b; output y; reset q0;
state q0: goto q0: y = a * a + b * b;";

const MOVED: &str = "fsmd 1; input a, b, c; output y; local x; reset s0;
state s0: goto s1: x = a + b;
state s1: when c > 0 goto s0: y = x + 1; goto s0: y = x - 1;";

const MOVED_WRONGLY: &str = "fsmd 1; input a, b, c; output y; local x; reset q0;
state q0: when c > 0 goto q1: x = a + b; goto q2: x = a - b;
state q1: goto q0: y = x + 1;
state q2: goto q0: y = x - 1;";

const WRITES: &str = "fsmd 1; input i, j; output array m; reset s0;
state s0: goto s0: m[i] = 1, m[j] = 2;";

const WRITES_EXCHANGED: &str = "fsmd 1; input i, j; output array m; reset s0;
state s0: goto s0: m[j] = 2, m[i] = 1;";

const RARE: &str = "fsmd 1; input x; output y; reset s0;
state s0: when x * x == 10404 goto s0: y = 1; goto s0;";

const NEVER: &str = "fsmd 1; input x; output y; reset q0;
state q0: goto q0;";

const MAY_NEVER_END: &str = "fsmd 1; input x; output y; reset s0;
state s0: goto s1;
state s1: when x > 0 goto s1; goto s0: y = 1;";

const ENDS_AT_ONCE: &str = "fsmd 1; input x; output y; reset q0;
state q0: goto q0: y = 1;";

const EMITS: &str = "fsmd 2; input a, b; port p; reset s0;
state s0: goto s0: emit p a, emit p b;";

const EMITS_EXCHANGED: &str = "fsmd 2; input a, b; port p; reset s0;
state s0: goto s0: emit p b, emit p a;";

// Two texts, and the number of the first candidate that shows a difference of their machines, if one does. The least candidate
// counts, over scalars, arrays and ports. A value that no candidate has, and a run that does not end, show nothing.
static PAIRS: [(&str, &str, Option<u64>); 7] = [
    (SUM, SQUARES, Some(1)),
    (MOVED, MOVED_WRONGLY, Some(2)),
    (WRITES, WRITES_EXCHANGED, Some(0)),
    (EMITS, EMITS_EXCHANGED, Some(4)),
    (SUM, SUM, None),
    (RARE, NEVER, None),
    (MAY_NEVER_END, ENDS_AT_ONCE, None),
];

// Whether the first candidate that shows a difference of two texts' machines has this number, or none shows one.
fn is_first(alloc: Global, left: &str, right: &str, number: Option<u64>) -> bool {
    match first_of_texts(alloc, left, right) {
        Some(Some(found)) => number == Some(found.j),
        Some(None) => number.is_none(),
        None => false,
    }
}

#[test]
fn least_candidates(rt: HostRuntime) {
    for (left, right, number) in &PAIRS {
        assert!(rt;
            is_first(rt.alloc(), left, right, *number),
            "{left} {right}"
        );
    }
}
