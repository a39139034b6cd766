//! The scalars of a machine that matter at a point: they may be read behind it before they are written, or are outputs there; and
//! the variables that may still be written.

use fs_ast::machine::Machine;
use fs_cut::cover::Point;
use fs_model::parts::{Assign, Branch, Expr, Lit, Role, Sort, StateId, VarId};
use fs_pair::positions::Position;
use fs_variable_sets::VariableSet;
use fs_variable_sets::flows::Flow;
use nf_terms::stop::NoMemory;
use nf_terms::tree::Side;
use std::alloc::Global;
use std::rc::Rc;

/// For each state the scalars that matter there, those that matter where a run is over, and for each state the variables that may
/// be written from there on.
#[derive(Drop)]
pub struct Liveness {
    reset: usize,
    at_states: Vec<VariableSet>,
    at_end: VariableSet,
    written: Vec<VariableSet>,
}

// The scalars that an expression reads.
fn scalars_in(e: &Expr<VarId>) -> VariableSet {
    match e {
        Expr::Num(_) => VariableSet::empty(),
        Expr::Var(x) => VariableSet::empty().with(*x),
        Expr::Read(_, i) | Expr::Neg(i) => scalars_in(i),
        Expr::Add(l, r) | Expr::Sub(l, r) | Expr::Mul(l, r) | Expr::Div(l, r) | Expr::Rem(l, r) => {
            scalars_in(l).union(scalars_in(r))
        }
    }
}

// The scalars that literals read.
fn read_by_literals(literals: &[Rc<Lit<VarId>>]) -> VariableSet {
    let mut read = VariableSet::empty();
    for l in literals {
        read = read.union(scalars_in(&l.left)).union(scalars_in(&l.right));
    }
    read
}

// The scalars that assignments read, and the variables that they write.
fn uses_of(assigns: &[Assign<VarId>]) -> (VariableSet, VariableSet) {
    let (mut read, mut written) = (VariableSet::empty(), VariableSet::empty());
    for assign in assigns {
        match assign {
            Assign::Set(x, e) => {
                read = read.union(scalars_in(e));
                written = written.with(*x);
            }
            Assign::Put(x, i, e) => {
                read = read.union(scalars_in(i)).union(scalars_in(e));
                written = written.with(*x);
            }
            Assign::Emit(x, e) => {
                read = read.union(scalars_in(e));
                written = written.with(*x);
            }
        }
    }
    (read, written)
}

// What a branch of a state reads and writes.
fn flow_of(from: u32, branch: &Branch) -> Flow {
    let (read, writes) = uses_of(branch.assigns.as_slice());
    Flow {
        from: from as usize,
        target: branch.target.0 as usize,
        reads: read.union(read_by_literals(branch.lits.as_slice())),
        writes,
    }
}

// Adds what the branches of a state read and write.
fn add_flows(flows: &mut Vec<Flow>, from: u32, branches: &[Branch]) -> Result<(), NoMemory> {
    for branch in branches {
        flows.push(flow_of(from, branch))?;
    }
    Ok(())
}

// What all branches read and write, from the last state on, since scalars come to matter backwards.
fn flows_of(alloc: Global, m: &Machine) -> Result<Vec<Flow>, NoMemory> {
    let mut flows = Vec::new(alloc);
    let count = m.state_count();
    for k in 0..count {
        let state = count - 1 - k;
        add_flows(&mut flows, state, m.branches(StateId(state)))?;
    }
    Ok(flows)
}

// The outputs of a machine that are scalars.
fn output_scalars(m: &Machine) -> VariableSet {
    let mut outputs = VariableSet::empty();
    for (number, variable) in m.vars().iter().enumerate() {
        if variable.role == Role::Output && variable.sort == Sort::Scalar && number < 128 {
            outputs = outputs.with(VarId(number as u32));
        }
    }
    outputs
}

impl Liveness {
    // What matters behind a branch.
    fn behind(&self, flow: &Flow) -> VariableSet {
        match self.at_states.get(flow.target) {
            Some(live) if flow.target != self.reset => *live,
            _ => self.at_end,
        }
    }

    // Adds what matters by a branch. Answers whether that is more than was known.
    fn grow(&mut self, flow: &Flow) -> bool {
        let more = flow.reads.union(self.behind(flow).without(flow.writes));
        let Some(live) = self.at_states.get_mut(flow.from) else {
            return false;
        };
        let old = *live;
        *live = old.union(more);
        live.bits != old.bits
    }

    // Adds what a branch writes, and what may be written behind it. Answers whether that is more than was known.
    fn grow_written(&mut self, flow: &Flow) -> bool {
        let behind = match self.written.get(flow.target) {
            Some(written) if flow.target != self.reset => *written,
            _ => VariableSet::empty(),
        };
        let Some(written) = self.written.get_mut(flow.from) else {
            return false;
        };
        let old = *written;
        *written = old.union(flow.writes).union(behind);
        written.bits != old.bits
    }

    // Adds what matters and what is written by each branch. Answers whether that is more than was known.
    fn grow_all(&mut self, flows: &[Flow]) -> bool {
        let mut grows = false;
        for flow in flows {
            let is_more_live = self.grow(flow);
            let is_more_written = self.grow_written(flow);
            grows = grows || is_more_live || is_more_written;
        }
        grows
    }

    /// What matters at the points of a machine. The one refusal is out of memory.
    pub fn of(alloc: Global, m: &Machine) -> Result<Liveness, NoMemory> {
        let flows = flows_of(alloc, m)?;
        let count = m.state_count() as usize;
        let mut live = Liveness {
            reset: m.reset().0 as usize,
            at_states: vec![in alloc; VariableSet::empty(); count]?,
            at_end: output_scalars(m),
            written: vec![in alloc; VariableSet::empty(); count]?,
        };
        for _ in 0..=count {
            if !live.grow_all(flows.as_slice()) {
                break;
            }
        }
        Ok(live)
    }

    /// The variables that may be written behind a point.
    pub fn written_behind(&self, point: Point) -> VariableSet {
        let state = match point {
            Point::Start => self.reset,
            Point::Done => return VariableSet::empty(),
            Point::At(state) => state.0 as usize,
        };
        match self.written.get(state) {
            Some(written) => *written,
            None => VariableSet::empty(),
        }
    }

    /// The scalars that matter at a point.
    pub fn at(&self, point: Point) -> VariableSet {
        let state = match point {
            Point::Start => self.reset,
            Point::Done => return self.at_end,
            Point::At(state) => state.0 as usize,
        };
        match self.at_states.get(state) {
            Some(live) => *live,
            None => self.at_end,
        }
    }
}

// Whether a position matters where these scalars of the two machines do: arrays and lists always do.
fn is_live(position: &Position, left: VariableSet, right: VariableSet) -> bool {
    let variable = VarId(position.pos.var);
    position.sort != Sort::Scalar
        || match position.pos.side {
            Side::Left => left.contains(variable),
            Side::Right => right.contains(variable),
        }
}

/// For each position whether it matters where these scalars of the two machines do: arrays and lists always do. The one refusal
/// is out of memory.
pub fn live_positions(
    alloc: Global,
    positions: &[Position],
    left: VariableSet,
    right: VariableSet,
) -> Result<Vec<bool>, NoMemory> {
    let mut out = Vec::new(alloc);
    for position in positions {
        out.push(is_live(position, left, right))?;
    }
    Ok(out)
}

/// Whether the positions at places all matter.
pub fn all_live(live: &[bool], places: &[usize]) -> bool {
    for place in places {
        if live.get(*place) != Some(&true) {
            return false;
        }
    }
    true
}
