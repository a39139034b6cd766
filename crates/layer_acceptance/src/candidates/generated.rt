//! Generated machines.

use crate::candidates::first::first_found;
use fs_generated::generate::generate;
use std::alloc::Global;

// How many states the two machines have.
fn states(alloc: Global, n: u32) -> Option<(u32, u32)> {
    let n = n.clamp(1, 300);
    match generate(alloc, n) {
        Ok((left, right)) => Some((left.state_count(), right.state_count())),
        Err(_) => None,
    }
}

// Whether no candidate tells the machines of three loops apart.
fn are_alike(alloc: Global) -> bool {
    match generate(alloc, 3) {
        Ok((left, right)) => matches!(first_found(alloc, &left, &right), Some(None)),
        Err(_) => false,
    }
}

// A loop has three states in the behaviour and two in the schedule, and one state comes last.
#[test]
fn loops(rt: HostRuntime) {
    for (n, counts) in [(1, (4, 3)), (3, (10, 7)), (300, (901, 601))] {
        assert!(rt; states(rt.alloc(), n) == Some(counts), "{n}");
    }
    assert!(rt;
        are_alike(rt.alloc()),
        "no candidate tells the machines apart"
    );
}
