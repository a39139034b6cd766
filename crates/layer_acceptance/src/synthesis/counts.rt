//! Files of unit counts.

use hls_unit_counts::read_units;
use std::alloc::Global;

// Whether a file of unit counts holds these of `add`, `mul`, `div` and `mem`.
fn holds(alloc: Global, text: &str, counts: (u32, u32, u32, u32)) -> bool {
    match read_units(alloc, text.as_bytes()) {
        Ok(units) => (units.add, units.mul, units.div, units.mem) == counts,
        Err(_) => false,
    }
}

// A kind of unit that is not named has the largest count, and of a kind that is named twice the last count holds.
static FILES: [(&str, (u32, u32, u32, u32)); 4] = [
    ("{}", (1000000, 1000000, 1000000, 1000000)),
    ("{\"add\": 1, \"mul\": 2}", (1, 2, 1000000, 1000000)),
    (
        "{\"mem\": 0, \"div\": 1000000}",
        (1000000, 1000000, 1000000, 0),
    ),
    ("{\"add\": 1, \"add\": 2}", (2, 1000000, 1000000, 1000000)),
];

#[test]
fn counts_of_files(rt: HostRuntime) {
    for (text, counts) in &FILES {
        assert!(rt; holds(rt.alloc(), text, *counts), "{text}");
    }
}
