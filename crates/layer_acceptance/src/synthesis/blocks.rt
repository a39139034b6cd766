//! The basic blocks of machines.

use crate::machines::reading::machine;
use crate::machines::samples::SOLVER;
use fs_ast::machine::Machine;
use fs_model::parts::StateId;
use hls_sched::arrivals::count_arrivals;
use hls_sched::blocks::{Block, firsts, is_in_block, item, trace_block};
use std::alloc::Global;

// Whether a block has the states of a text, and leads where that says, as `4 5 to 0`.
fn is_block(block: &Block, text: &str) -> bool {
    let (states, exit) = text.split_once(" to ").unwrap_or((text, ""));
    let mut words = states.split(' ');
    for state in block.states.as_slice() {
        let word = words.next().unwrap_or("");
        if word.parse::<u32>().ok() != Some(state.0) {
            return false;
        }
    }
    words.next().is_none() && exit.parse::<u32>().ok() == Some(block.exit.0)
}

// Whether the blocks of a machine, in order, are those of a text.
fn has_blocks(alloc: Global, m: &Machine, text: &str) -> bool {
    let Ok(arrivals) = count_arrivals(alloc, m) else {
        return false;
    };
    let Ok(starts) = firsts(alloc, m, arrivals.as_slice()) else {
        return false;
    };
    let mut wanted = text.split("; ");
    for start in starts.as_slice() {
        let Ok(block) = trace_block(alloc, m, arrivals.as_slice(), *start) else {
            return false;
        };
        if !is_block(&block, wanted.next().unwrap_or("")) {
            return false;
        }
    }
    wanted.next().unwrap_or("").is_empty()
}

// How many assignments a state makes by a text, as `2: 1`, if it is named there; the most where that is no number.
fn assignment_count(text: &str, state: u32) -> Option<usize> {
    for part in text.split("; ") {
        let (place, count) = part.split_once(": ").unwrap_or(("", ""));
        if place.parse::<u32>().ok() == Some(state) {
            return Some(count.parse::<usize>().unwrap_or(usize::MAX));
        }
    }
    None
}

// Whether the states of a machine that stand in blocks are those of a text, each with how many assignments it makes.
fn has_states(m: &Machine, text: &str) -> bool {
    for q in 0..m.state_count() {
        let count = assignment_count(text, q);
        let is_told = if is_in_block(m, StateId(q)) {
            count == Some(item(m, StateId(q)).len())
        } else {
            count.is_none()
        };
        if !is_told {
            return false;
        }
    }
    true
}

// Two branches meet in a state that no block leads into, since two states lead to it.
const MEETING: &str = "fsmd 1; input a; output x; reset s0;
state s0: goto s1;
state s1: when a < 0 goto s2; goto s3;
state s2: goto s4: x = 1;
state s3: goto s4: x = 2;
state s4: goto s5: x = x + 1;
state s5: goto s0: x = x + 1;";

// A block goes against the order of the states.
const BACKWARDS: &str = "fsmd 1; output x; reset s0;
state s0: goto s3;
state s1: goto s0: x = x + 3;
state s2: goto s1: x = x + 2;
state s3: goto s2: x = x + 1;";

// Both branches of a state lead to one state, and a third state leads to none.
const FORKED: &str = "fsmd 1; input a; output x; reset s0;
state s0: when a < 0 goto s1; goto s1: x = 1;
state s1: goto s2: x = 2;
state s2: goto s0;
state s3: goto s2;";

const ALONE: &str = "fsmd 1; output x; reset s0; state s0: goto s0: x = 1;";

// Whether the machine of a text has these blocks, and these states stand in them.
fn leads(alloc: Global, text: &str, blocks: &str, states: &str) -> bool {
    match machine(alloc, text) {
        Ok(machine) => has_blocks(alloc, &machine, blocks) && has_states(&machine, states),
        Err(_) => false,
    }
}

// Texts of machines, their blocks and the states that stand in them.
static MACHINES: [(&str, &str, &str); 5] = [
    (
        SOLVER,
        "2 3 4 5 6 7 8 9 10 to 1",
        "2: 1; 3: 1; 4: 1; 5: 1; 6: 1; 7: 1; 8: 1; 9: 1; 10: 1",
    ),
    (
        MEETING,
        "2 to 4; 3 to 4; 4 5 to 0",
        "2: 1; 3: 1; 4: 1; 5: 1; ",
    ),
    (BACKWARDS, "3 2 1 to 0", "1: 1; 2: 1; 3: 1"),
    (FORKED, "1 to 2; 2 to 0; 3 to 2", "1: 1; 2: 0; 3: 0; "),
    (ALONE, "", ""),
];

#[test]
fn blocks_of_machines(rt: HostRuntime) {
    for (text, blocks, states) in &MACHINES {
        assert!(rt; leads(rt.alloc(), text, blocks, states), "{text}");
    }
}
