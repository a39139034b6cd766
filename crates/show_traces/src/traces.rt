//! The trace of a run.

ghost use Rattle.std.specs.Prelude.{◌≡◌, ◌==◌, IfOk};
ghost use Rattle.fs_model.specs.Runs.{Inputs as Given, start};
ghost use Rattle.fs_stores.specs.Values.{store_of, IsStoreOf};
ghost use Rattle.fs_stores.specs.InputValues.{inputs_of, signatures_of, Serves};
ghost use Rattle.show_traces.specs.Traces.{IsTrace};

use crate::steps::add_step;
use fs_ast::machine::Machine;
use fs_model::parts::StateId;
use fs_stores::inputs::{Inputs, start};
use fs_stores::memory::NoMemory;
use fs_stores::store::Store;
use std::alloc::Global;

/// The trace of a machine's run on inputs: a line for each step, up to the first return to the reset state, to so many steps, or
/// to a step that touches a number outside 128 bits, which has no line.
///
/// A line is `STEP STATE -> TARGET`, and behind it what the step changes, in order of the assignments, each valued in the
/// store before: `: x = 5, m[3] = 7, emit p 4`. The one refusal is out of memory.
pub fn trace_text(
    alloc: Global,
    m: &Machine,
    inputs: &Inputs,
    limit: u64,
) -> Result<Vec<u8>, NoMemory>
    requires { Serves (signatures_of inputs.now) m.now }
    ensures { IfOk result (λ text. IsTrace m.now (inputs_of inputs.now) limit text.items) }
{
    let mut store = start(alloc, m, inputs)?;
    trace_from(alloc, m, &mut store, limit)
}

// The trace of a run from a store in which it starts.
fn trace_from(
    alloc: Global,
    m: &Machine,
    store: &mut Store,
    limit: u64,
) -> Result<Vec<u8>, NoMemory>
    requires { IsStoreOf m.now store.old }
    ensures { (ins : Given) → store_of store.old ≡ start m.now ins → IfOk result (λ text. IsTrace m.now ins limit text.items) }
{
    let mut text = Vec::new(alloc);
    let mut at = m.reset();
    for done in 0..limit {
        match add_step(alloc, &mut text, m, store, at, done + 1)? {
            Some(next) => at = next,
            None => return Ok(text),
        }
        if is_reset(m, at) {
            return Ok(text);
        }
    }
    Ok(text)
}

fn is_reset(m: &Machine, s: StateId) -> bool
    ensures { result ≡ (s.0 == m.now.reset) }
{
    s.0 == m.reset().0
}
