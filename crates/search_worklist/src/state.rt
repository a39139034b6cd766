//! The state of a search.

ghost use Rattle.std.specs.Prelude.{◌≡◌, ◌≤◌, length, IfOk, OnOk};
ghost use Rattle.fs_cut.specs.View.{point_of};
ghost use Rattle.cert_model.specs.Lawful.{most_nodes};
ghost use Rattle.search_tables.specs.SearchTables.{MachinePair, units, first_table};
ghost use Rattle.search_worklist.specs.NodeUpdates.{node_number, change_table};
ghost use Rattle.search_worklist.specs.States.{table, IsReady};
ghost use Rattle.search_worklist.specs.View.{machines_in};

use crate::sides::Sides;
use crate::trial::TableChange;
use fs_cut::cover::Point;
use indexmap::IndexMap;
use nf_terms::stop::NoMemory;
use search_places::node_state::NodeState;
use search_places::nodes::put;
use search_tables::pairs::PointPair;
use search_waiting::item::Item;
use search_waiting::waiting::{add, add_all};
use std::alloc::Global;
use std::collections::BTreeSet;
use sym_facts::start::start_fact;

/// The nodes of a table, what waits, and the number of units.
#[derive(Drop)]
pub struct State {
    pub entries: IndexMap<PointPair, NodeState>,
    pub waiting: BTreeSet<Item>,
    pub units: u64,
}

/// Makes a change. The node then waits, and so does what arrived at it before. Answers the node's number. The one refusal is out
/// of memory, and the state is of no use then.
pub fn make(alloc: Global, state: &mut State, change: TableChange) -> Result<usize, NoMemory>
    requires few { length (change_table (table state.old) change) ≤ most_nodes }
    requires sized { change.units ≡ units (change_table (table state.old) change) }
    ensures ready { (m : MachinePair) → IsReady m state.old → OnOk result (IsReady m state.new) }
    ensures table { OnOk result (table state.new ≡ change_table (table state.old) change) }
    ensures number { IfOk result (λ k. k ≡ node_number (table state.old) (point_of change.left) (point_of change.right)) }
{
    let put = put(
        alloc,
        &mut state.entries,
        change.left,
        change.right,
        change.fact,
    )?;
    add(
        &mut state.waiting,
        Item {
            node: put.number as u32,
            place: 0,
        },
    )?;
    add_all(&mut state.waiting, put.arrivals.as_slice())?;
    state.units = change.units;
    Ok(put.number)
}

/// The table of the start node alone, which waits. The one refusal is out of memory.
pub fn begin(alloc: Global, m: &Sides<'_>) -> Result<State, NoMemory>
    ensures ready { IfOk result (IsReady (machines_in m.now)) }
    ensures table { IfOk result (λ s. table s ≡ first_table (machines_in m.now)) }
{
    let fact = start_fact(alloc, m.pairing)?;
    let units = fact.size();
    let mut state = State {
        entries: IndexMap::new(alloc),
        waiting: BTreeSet::new(alloc),
        units: 0,
    };
    make(
        alloc,
        &mut state,
        TableChange {
            left: Point::Start,
            right: Point::Start,
            fact,
            units,
        },
    )?;
    Ok(state)
}
