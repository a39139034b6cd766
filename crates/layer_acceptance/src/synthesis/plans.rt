//! The rows of a line under unit counts.

use crate::machines::reading::machine;
use crate::machines::samples::{EMITS, PRODUCTS, SOLVER};
use fs_ast::machine::Machine;
use fs_model::parts::StateId;
use hls_block_filling::effects::Effects;
use hls_block_filling::plan::{Plan, make_plan};
use hls_block_filling::uses::{Uses, uses_of};
use hls_unit_counts::{Units, read_units};
use std::alloc::Global;

// Puts the effects of the states of a machine from one on, each as an item, and the units that they use.
fn put_items(m: &Machine, from: u32, effects: &mut Vec<Effects>, uses: &mut Vec<Uses>) -> bool {
    for state in from..m.state_count() {
        if let Some(branch) = m.branches(StateId(state)).first() {
            let assigns = branch.assigns.as_slice();
            if effects.push(Effects::of(assigns)).is_err() || uses.push(uses_of(assigns)).is_err() {
                return false;
            }
        }
    }
    true
}

// Whether each item of a plan has a row, that of a text, or any where that is `…`.
fn has_rows(plan: &Plan, text: &str) -> bool {
    if text == "…" {
        return true;
    }
    let mut words = text.split(' ');
    for row in plan.rows.as_slice() {
        let word = words.next().unwrap_or("");
        if row.is_none() || word.parse::<u32>().ok() != *row {
            return false;
        }
    }
    words.next().is_none()
}

// Whether a plan is that of a text: the row of each item, how many rows there are, and the chain.
fn is_plan(plan: &Plan, text: &str) -> bool {
    let (rows, rest) = text.split_once(" in ").unwrap_or((text, ""));
    let (count, chain) = rest.split_once(", chain ").unwrap_or((rest, ""));
    has_rows(plan, rows)
        && count.parse::<u32>().ok() == Some(plan.count)
        && chain.parse::<u32>().ok() == Some(plan.chain)
}

// Whether items have the plan of a text under unit counts.
fn fills(alloc: Global, effects: &[Effects], uses: &[Uses], units: &Units, text: &str) -> bool {
    if effects.len() > 4096 || uses.len() != effects.len() {
        return false;
    }
    match make_plan(alloc, effects, uses, units) {
        Ok(plan) => is_plan(&plan, text),
        Err(_) => false,
    }
}

// Whether the states of a machine from one on, each as an item, have this plan.
fn plans(alloc: Global, m: &Machine, from: u32, units: &Units, text: &str) -> bool {
    let mut effects = Vec::new(alloc);
    let mut uses = Vec::new(alloc);
    put_items(m, from, &mut effects, &mut uses)
        && fills(alloc, effects.as_slice(), uses.as_slice(), units, text)
}

// The same of the machine of a text and a file of unit counts, where neither is refused.
fn holds(alloc: Global, text: &str, from: u32, counts: &str, plan: &str) -> Option<bool> {
    let units = read_units(alloc, counts.as_bytes()).ok()?;
    let machine = machine(alloc, text).ok()?;
    Some(plans(alloc, &machine, from, &units, plan))
}

// Each item reads what the one before it writes.
const CHAIN: &str = "fsmd 1; input a; output y; reset s0;
state s0: goto s1;
state s1: goto s2: y = a + 1;
state s2: goto s3: y = y + 2;
state s3: goto s0: y = y + 3;";

// Rows are filled by heights, and an item that reads a variable stands in no later row than one that writes it. One multiplier
// needs a row for each of three products, and two emits keep their order in rows of their own.
static PLANS: [(&str, u32, &str, &str); 5] = [
    (
        SOLVER,
        2,
        "{\"add\": 1, \"mul\": 2}",
        "0 0 1 1 2 2 3 1 0 in 4, chain 4",
    ),
    (SOLVER, 2, "{\"add\": 1, \"mul\": 1}", "… in 6, chain 4"),
    (CHAIN, 1, "{}", "0 1 2 in 3, chain 3"),
    (PRODUCTS, 1, "{\"mul\": 1}", "0 1 2 in 3, chain 1"),
    (EMITS, 1, "{}", "0 1 0 in 2, chain 2"),
];

#[test]
fn rows_of_items(rt: HostRuntime) {
    for (text, from, counts, plan) in &PLANS {
        assert!(rt;
            holds(rt.alloc(), text, *from, counts, plan) == Some(true),
            "{counts}: not {plan}"
        );
    }
}
