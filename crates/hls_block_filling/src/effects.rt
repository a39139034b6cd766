//! The variables that an item reads and changes, as sets, and the edges between items.

ghost use Rattle.std.specs.Prelude.{◌≡◌, map};
ghost use Rattle.fs_model.specs.View.{expression_of, assignment_of};
ghost use Rattle.hls_block_filling.specs.Items.{read_in};
ghost use Rattle.fs_variable_sets.specs.Sets.{has_variable, also_all};
ghost use Rattle.hls_block_filling.specs.EffectSets.{sets_of, none_changed, sets_after, sets_from, edge_between};

use fs_model::parts::{Assign, Expr, VarId};
use fs_variable_sets::VariableSet;

// A set and the variables that an expression reads, arrays among them.
#[tactic(auto, using(fs_variable_sets::proofs::Members::also_joined))]
fn with_reads(set: VariableSet, expr: &Expr<VarId>) -> VariableSet
    ensures { has_variable result ≡ also_all (read_in (expression_of expr.now)) (has_variable set) }
{
    match expr {
        Expr::Num(_) => set,
        Expr::Var(x) => set.with(*x),
        Expr::Read(x, index) => with_reads(set.with(*x), index),
        Expr::Add(a, b) | Expr::Sub(a, b) | Expr::Mul(a, b) | Expr::Div(a, b) | Expr::Rem(a, b) =>
            with_reads(with_reads(set, a), b),
        Expr::Neg(a) => with_reads(set, a),
    }
}

/// What an item reads, changes, assigns and writes, and whether it emits.
#[derive(Clone, Copy)]
pub struct Effects {
    pub reads: VariableSet,
    pub changes: VariableSet,
    pub assigns: VariableSet,
    pub writes: VariableSet,
    pub emits: bool,
}

impl Effects {
    // The effects and those of one assignment more.
    fn after(self, assign: &Assign<VarId>) -> Effects
        ensures { sets_of result ≡ sets_after (assignment_of assign.now) (sets_of self) }
    {
        match assign {
            Assign::Set(x, value) => Effects {
                reads: with_reads(self.reads, value),
                changes: self.changes.with(*x),
                assigns: self.assigns.with(*x),
                writes: self.writes,
                emits: self.emits,
            },
            Assign::Put(x, index, value) => Effects {
                reads: with_reads(with_reads(self.reads, index), value),
                changes: self.changes.with(*x),
                assigns: self.assigns,
                writes: self.writes.with(*x),
                emits: self.emits,
            },
            Assign::Emit(x, value) => Effects {
                reads: with_reads(self.reads, value),
                changes: self.changes.with(*x),
                assigns: self.assigns,
                writes: self.writes,
                emits: true,
            },
        }
    }

    // The effects of no assignment.
    fn none() -> Effects
        ensures { sets_of result ≡ none_changed }
    {
        let empty = VariableSet::empty();
        Effects {
            reads: empty,
            changes: empty,
            assigns: empty,
            writes: empty,
            emits: false,
        }
    }

    /// The effects of assignments.
    pub fn of(assigns: &[Assign<VarId>]) -> Effects
        ensures { sets_of result ≡ sets_from (map assignment_of assigns.now) none_changed }
    {
        let mut effects = Effects::none();
        for assign in assigns {
            effects = effects.after(assign);
        }
        effects
    }
}

/// How an item stands to a later one: in a row before it, in no later row, or anyhow.
#[derive(Clone, Copy)]
pub enum Edge {
    Apart,
    Weak,
    Strict,
}

/// The edge from an item to a later one.
pub fn edge_between(first: &Effects, second: &Effects) -> Edge
    ensures { result ≡ edge_between first.now second.now }
{
    if first.changes.meets(second.reads)
        || first.assigns.meets(second.assigns)
        || (first.emits && second.emits)
    {
        Edge::Strict
    } else if second.changes.meets(first.reads) || first.writes.meets(second.writes) {
        Edge::Weak
    } else {
        Edge::Apart
    }
}
