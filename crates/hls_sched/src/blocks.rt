//! The basic blocks of a machine.

ghost use Rattle.std.specs.Prelude.{◌≡◌, ◌<◌, ◌≤◌, true, length, map, IfOk};
ghost use Rattle.std.specs.List.{All};
ghost use Rattle.fs_model.specs.View.{assignment_of};
ghost use Rattle.hls_block_filling.specs.BasicBlocks.{item_of, is_in_block, follows, next_state, basic_block_at, exit_of};
ghost use Rattle.hls_block_filling.specs.BasicBlocks.{is_inner, is_first_of_block, firsts};
ghost use Rattle.hls_sched.specs.Arrivals.{AreArrivals};

use crate::arrivals::Arrivals;
use fs_ast::machine::Machine;
use fs_model::name::NoMemory;
use fs_model::parts::{Assign, StateId, VarId};
use std::alloc::Global;

/// A block: its states in order, and the state to which it leads.
#[derive(Drop)]
pub struct Block {
    pub states: Vec<StateId>,
    pub exit: StateId,
}

/// Whether a state stands in a block: it isn't the reset state, and has one branch. Takes no memory.
pub fn is_in_block(m: &Machine, state: StateId) -> bool
    requires { state.0 < length m.now.states }
    ensures { result ≡ is_in_block m.now state.0 }
{
    state.0 != m.reset().0 && m.branches(state).len() <= 1
}

/// What a state in a block does: the assignments of its one branch. Of another state it is the first branch. Takes
/// no memory.
pub fn item(m: &Machine, state: StateId) -> &[Assign<VarId>]
    requires { state.0 < length m.now.states }
    ensures { map assignment_of result.now ≡ item_of m.now state.0 }
{
    m.branches(state)[0].assigns.as_slice()
}

// The state to which the first branch of a state leads.
fn next(m: &Machine, state: StateId) -> StateId
    requires { state.0 < length m.now.states }
    ensures next { result.0 ≡ next_state m.now state.0 }
    ensures within { result.0 < length m.now.states }
{
    m.branches(state)[0].target
}

// Whether a state comes after another in a block.
fn follows(m: &Machine, arrivals: &[Arrivals], first: StateId, second: StateId) -> bool
    requires arrivals { AreArrivals m.now arrivals.now }
    requires first { first.0 < length m.now.states }
    requires second { second.0 < length m.now.states }
    ensures { result ≡ follows m.now first.0 second.0 }
{
    is_in_block(m, first)
        && is_in_block(m, second)
        && arrivals[second.0 as usize].is_once_from(first)
}

// Whether a state comes after another one in a block.
fn is_inner(m: &Machine, arrivals: &[Arrivals], state: StateId) -> bool
    requires arrivals { AreArrivals m.now arrivals.now }
    requires within { state.0 < length m.now.states }
    ensures { result ≡ is_inner m.now state.0 }
{
    match arrivals[state.0 as usize] {
        Arrivals::Once(from) => follows(m, arrivals, from, state),
        _ => false,
    }
}

// Whether a state is the first of a block.
fn is_first(m: &Machine, arrivals: &[Arrivals], state: StateId) -> bool
    requires arrivals { AreArrivals m.now arrivals.now }
    requires within { state.0 < length m.now.states }
    ensures { result ≡ is_first_of_block m.now state.0 }
{
    is_in_block(m, state) && !is_inner(m, arrivals, state)
}

/// The first states of the blocks of a machine, in order. `arrivals` are those of its states. The one refusal is
/// out of memory.
pub fn firsts(alloc: Global, m: &Machine, arrivals: &[Arrivals]) -> Result<Vec<StateId>, NoMemory>
    requires { AreArrivals m.now arrivals.now }
    ensures states { IfOk result (λ out. map (λ q. q.0) out.items ≡ firsts m.now) }
    ensures within { IfOk result (λ out. All (λ q. q.0 < length m.now.states) out.items) }
    ensures first { IfOk result (λ out. All (λ q. is_first_of_block m.now q.0 ≡ true) out.items) }
{
    let mut out = Vec::new(alloc);
    for q in 0..m.state_count() {
        if is_first(m, arrivals, StateId(q)) {
            out.push(StateId(q))?;
        }
    }
    Ok(out)
}

/// The block of a machine from a state on: the whole block, where it is the first state of one. `arrivals` are
/// those of its states. The one refusal is out of memory.
pub fn trace_block(
    alloc: Global,
    m: &Machine,
    arrivals: &[Arrivals],
    first: StateId,
) -> Result<Block, NoMemory>
    requires arrivals { AreArrivals m.now arrivals.now }
    requires first { first.0 < length m.now.states }
    ensures states { IfOk result (λ l. map (λ q. q.0) l.states.items ≡ basic_block_at m.now first.0) }
    ensures within { IfOk result (λ l. All (λ q. q.0 < length m.now.states) l.states.items) }
    ensures few { IfOk result (λ l. length l.states.items ≤ length m.now.states) }
    ensures exit { IfOk result (λ l. l.exit.0 ≡ exit_of m.now first.0) }
    ensures leads { IfOk result (λ l. l.exit.0 < length m.now.states) }
{
    let mut states = Vec::new(alloc);
    let mut last = first;
    'block: for _ in 0..m.state_count() {
        states.push(last)?;
        let after = next(m, last);
        if !follows(m, arrivals, last, after) {
            return Ok(Block {
                states,
                exit: after,
            });
        }
        last = after;
    }
    // A block has no more states than the machine.
    unreachable!()
}
