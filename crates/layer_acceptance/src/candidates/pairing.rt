//! The positions of two machines.

use crate::machines::reading::machine;
use fs_ast::machine::Machine;
use fs_pair::positions::{Position, same_interface};
use nf_terms::tree::Side;
use std::alloc::Global;

const LEFT: &str = "fsmd 1; input a; local t, u; output y; reset s0;
state s0: goto s0: y = a;";

const RIGHT: &str = "fsmd 1; output y; local u; input a; local v; reset q0;
state q0: goto q0: y = a;";

// Whether a position is that of a text: a machine's letter, the number of its variable there, and the place of its partner.
fn is_position(position: &Position, text: &str) -> bool {
    let (place, partner) = text.split_once(" with ").unwrap_or((text, ""));
    let side = match position.pos.side {
        Side::Left => 'L',
        Side::Right => 'R',
    };
    let var = place.strip_prefix(side).unwrap_or("");
    var.parse::<u32>().ok() == Some(position.pos.var)
        && partner.parse::<u32>().ok() == position.partner
}

// Whether positions are those of the lines of a text.
fn are_positions(positions: &[Position], text: &str) -> bool {
    let mut lines = text.lines();
    for position in positions {
        if !is_position(position, lines.next().unwrap_or("")) {
            return false;
        }
    }
    lines.next().is_none()
}

// A position without a partner names none.
const POSITIONS: &str = "L0 with 1
R2 with 0
L1
L2 with 4
R1 with 3
L3 with 6
R0 with 5
R3
";

// Whether the two machines have these positions.
fn are_paired(alloc: Global, left: &Machine, right: &Machine) -> bool {
    match same_interface(alloc, left, right) {
        Ok(pairing) => are_positions(pairing.positions(), POSITIONS),
        Err(_) => false,
    }
}

// The left machine's variables in order, each followed by the right one's of its name, and then the right one's others.
#[test]
fn positions_of_two_machines(rt: HostRuntime) -> Result<(), &'static str> {
    let left = machine(rt.alloc(), LEFT)?;
    let right = machine(rt.alloc(), RIGHT)?;
    assert!(rt; are_paired(rt.alloc(), &left, &right));
    Ok(())
}
