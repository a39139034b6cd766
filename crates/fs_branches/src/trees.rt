//! Decision trees of transitions, and their branches.

ghost use Rattle.std.specs.Prelude.{◌≡◌, ◌++◌, ◌∷◌, [], length, map, take, IfOk};
ghost use Rattle.std.specs.Result.{OnOk};
ghost use Rattle.fs_model.specs.View.{shared_literal_of, guard_of, branch_of};
ghost use Rattle.fs_model.specs.Trees.{Leaf, Node, tree_of_guard, tree_of_condition, tree_of_transitions, leaves, branches_of};
ghost use Rattle.fs_model.specs.Trees.{count_leaves, negated_literal};
ghost use Rattle.fs_branches.specs.NumberedParts.{resolved_transition};
ghost use Rattle.fs_branches.specs.Forks.{tree_of, leaves_by, leaves_by_condition, capped_leaves};

use crate::resolve::Transition;
use crate::shared_literal::SharedLiteral;
use fs_model::limits::BRANCH_LIMIT;
use fs_model::memory::{push_value, share};
use fs_model::name::NoMemory;
use fs_model::parts::{Branch, Guard, Lit, VarId};
use std::alloc::Global;
use std::rc::Rc;

// A decision tree over transitions. Subtrees that are alike have several owners.
#[derive(Drop)]
enum DecisionTree<'a> {
    Fail,
    Leaf(&'a Transition),
    Test(SharedLiteral, Rc<DecisionTree<'a>>, Rc<DecisionTree<'a>>),
}

/// How many leaves the tree of transitions has, or 65 where there are more. Takes no memory.
pub fn count_leaves(lines: &[Transition]) -> u32
    ensures { result ≡ capped_leaves (count_leaves (tree_of_transitions (map resolved_transition lines.now))) }
{
    let mut count = 0;
    for k in 0..lines.len() {
        count = count_transition(&lines[lines.len() - 1 - k], count);
    }
    count
}

// How many leaves there are from one transition on.
fn count_transition(line: &Transition, rest: u32) -> u32
    ensures { result ≡ capped_leaves (leaves_by_condition (resolved_transition line.now).guard 1 rest) }
{
    match &line.guard {
        None => 1,
        Some(guard) => count_guard(guard, 1, rest),
    }
}

// How many leaves the tree of a guard has, from those of its two subtrees.
#[tactic(auto, using(crate::proofs::Leaves::capped_yes, crate::proofs::Leaves::capped_no))]
fn count_guard(guard: &Guard<VarId>, on_yes: u32, on_no: u32) -> u32
    ensures { result ≡ capped_leaves (leaves_by (guard_of guard.now) on_yes on_no) }
{
    match guard {
        Guard::Lit(_) => on_yes.saturating_add(on_no).min(BRANCH_LIMIT + 1),
        Guard::Not(a) => count_guard(a, on_no, on_yes),
        Guard::And(a, b) => count_guard(a, count_guard(b, on_yes, on_no), on_no),
        Guard::Or(a, b) => count_guard(a, on_yes, count_guard(b, on_yes, on_no)),
    }
}

/// The branches of the tree of transitions, yes before no. The one refusal is out of memory.
pub fn branches(alloc: Global, lines: &[Transition]) -> Result<Vec<Branch>, NoMemory>
    ensures { IfOk result (λ out. map branch_of out.items ≡ branches_of (map resolved_transition lines.now)) }
{
    let tree = tree_of_transitions(alloc, lines)?;
    branches_of_tree(alloc, &tree)
}

// The branches of a tree, yes before no.
fn branches_of_tree(alloc: Global, tree: &DecisionTree) -> Result<Vec<Branch>, NoMemory>
    ensures { IfOk result (λ out. map branch_of out.items ≡ leaves (tree_of tree.now) []) }
{
    let mut way = Vec::new(alloc);
    let mut out = Vec::new(alloc);
    walk(alloc, tree, &mut way, &mut out)?;
    Ok(out)
}

// The tree of transitions.
fn tree_of_transitions<'a>(
    alloc: Global,
    lines: &'a [Transition],
) -> Result<Rc<DecisionTree<'a>>, NoMemory>
    ensures { IfOk result (λ tree. tree_of tree.value ≡ tree_of_transitions (map resolved_transition lines.now)) }
{
    match lines {
        [] => share(alloc, DecisionTree::Fail),
        [first, rest @ ..] => {
            let on_no = tree_of_transitions(alloc, rest)?;
            tree_of_transition(alloc, first, &on_no)
        }
    }
}

// The tree of a transition over that of those behind it.
fn tree_of_transition<'a>(
    alloc: Global,
    line: &'a Transition,
    on_no: &Rc<DecisionTree<'a>>,
) -> Result<Rc<DecisionTree<'a>>, NoMemory>
    ensures { IfOk result
        (λ tree. tree_of tree.value ≡ tree_of_condition (resolved_transition line.now).guard
        (Leaf (resolved_transition line.now).assignments (resolved_transition line.now).target) (tree_of on_no.now.value)) }
{
    let on_yes = share(alloc, DecisionTree::Leaf(line))?;
    match &line.guard {
        None => Ok(on_yes),
        Some(guard) => tree_of_guard(alloc, guard, &on_yes, on_no),
    }
}

// The tree of a literal over two subtrees.
fn tree_of_literal<'a>(
    alloc: Global,
    literal: SharedLiteral,
    on_yes: &Rc<DecisionTree<'a>>,
    on_no: &Rc<DecisionTree<'a>>,
) -> Result<Rc<DecisionTree<'a>>, NoMemory>
    ensures { IfOk result (λ tree. tree_of tree.value ≡ Node literal (tree_of on_yes.now.value) (tree_of on_no.now.value)) }
{
    let on_yes = on_yes.clone()?;
    share(alloc, DecisionTree::Test(literal, on_yes, on_no.clone()?))
}

// The tree of a guard over two subtrees, which may stand in it twice: each of them has then one owner more.
fn tree_of_guard<'a>(
    alloc: Global,
    guard: &Guard<VarId>,
    on_yes: &Rc<DecisionTree<'a>>,
    on_no: &Rc<DecisionTree<'a>>,
) -> Result<Rc<DecisionTree<'a>>, NoMemory>
    ensures { IfOk result
        (λ tree. tree_of tree.value
        ≡ tree_of_guard (guard_of guard.now) (tree_of on_yes.now.value) (tree_of on_no.now.value)) }
{
    match guard {
        Guard::Lit(lit) => tree_of_literal(alloc, SharedLiteral::of(alloc, lit)?, on_yes, on_no),
        Guard::Not(a) => tree_of_guard(alloc, a, on_no, on_yes),
        Guard::And(a, b) => {
            let inner = tree_of_guard(alloc, b, on_yes, on_no)?;
            tree_of_guard(alloc, a, &inner, on_no)
        }
        Guard::Or(a, b) => {
            let inner = tree_of_guard(alloc, b, on_yes, on_no)?;
            tree_of_guard(alloc, a, on_yes, &inner)
        }
    }
}

// Adds a literal to a way.
#[tactic(auto, using(crate::proofs::Ways::front_stays))]
fn add_literal(literal: &SharedLiteral, way: &mut Vec<Rc<Lit<VarId>>>) -> Result<(), NoMemory>
    ensures way { OnOk result
        (map shared_literal_of way.new.items ≡ map shared_literal_of way.old.items ++ literal.now ∷ []) }
    ensures before { OnOk result (take (length way.old.items) way.new.items ≡ way.old.items) }
{
    push_value(way, literal.literal()?)
}

// Adds the negation of a literal to a way.
#[tactic(auto, using(crate::proofs::Ways::front_stays))]
fn add_negation(literal: &SharedLiteral, way: &mut Vec<Rc<Lit<VarId>>>) -> Result<(), NoMemory>
    ensures way { OnOk result
        (map shared_literal_of way.new.items
        ≡ map shared_literal_of way.old.items ++ negated_literal literal.now ∷ []) }
    ensures before { OnOk result (take (length way.old.items) way.new.items ≡ way.old.items) }
{
    push_value(way, literal.negation()?)
}

// Adds the branches below a way. The way is as before.
fn walk(
    alloc: Global,
    tree: &DecisionTree,
    way: &mut Vec<Rc<Lit<VarId>>>,
    out: &mut Vec<Branch>,
) -> Result<(), NoMemory>
    ensures branches { OnOk result
        (map branch_of out.new.items ≡ map branch_of out.old.items
        ++ leaves (tree_of tree.now) (map shared_literal_of way.old.items)) }
    ensures way { OnOk result (way.new.items ≡ way.old.items) }
{
    match tree {
        DecisionTree::Fail => Ok(()),
        DecisionTree::Leaf(line) => { add_branch(alloc, way.as_slice(), line, out) }
        DecisionTree::Test(literal, on_yes, on_no) => {
            let before = way.len();
            add_literal(literal, way)?;
            walk(alloc, on_yes, way, out)?;
            way.truncate(before);
            add_negation(literal, way)?;
            let walked = walk(alloc, on_no, way, out);
            way.truncate(before);
            walked
        }
    }
}

// Adds the branch that takes a transition at the end of a way.
fn add_branch(
    alloc: Global,
    way: &[Rc<Lit<VarId>>],
    line: &Transition,
    out: &mut Vec<Branch>,
) -> Result<(), NoMemory>
    ensures { OnOk result
        (map branch_of out.new.items ≡ map branch_of out.old.items
        ++ leaves (Leaf (resolved_transition line.now).assignments (resolved_transition line.now).target)
        (map shared_literal_of way.now)) }
{
    out.push(branch(alloc, way, line)?)?;
    Ok(())
}

// The branch that takes a transition at the end of a way.
fn branch(alloc: Global, way: &[Rc<Lit<VarId>>], line: &Transition) -> Result<Branch, NoMemory>
    ensures { IfOk result
        (λ b. branch_of b ≡ record {
          literals = map shared_literal_of way.now;
          assignments = (resolved_transition line.now).assignments;
          target = (resolved_transition line.now).target;
        }) }
{
    Ok(Branch {
        lits: copy_way(alloc, way)?,
        assigns: line.assigns.clone()?,
        target: line.target,
    })
}

// One owner more of each literal of a way.
fn copy_way(alloc: Global, way: &[Rc<Lit<VarId>>]) -> Result<Vec<Rc<Lit<VarId>>>, NoMemory>
    ensures { IfOk result (λ out. map shared_literal_of out.items ≡ map shared_literal_of way.now) }
{
    let mut out = Vec::with_capacity(alloc, way.len())?;
    for lit in way {
        push_value(&mut out, lit.clone()?)?;
    }
    Ok(out)
}
