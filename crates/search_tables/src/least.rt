//! The cycle that begins at the least node on any cycle. From each node in order a depth-first search looks for a way back to it.

ghost use Rattle.std.specs.Prelude.{◌≡◌, ◌<◌, ◌++◌, ◌∷◌, [], false, length, IfOk, OnOk, map};
ghost use Rattle.search_tables.specs.Walks.{lists_in, InRange};
ghost use Rattle.search_tables.specs.Ways.{IsSearch, IsEntered, AfterTurn, GoesBack, IsLeastCycle, steps_in, way_work};

use crate::marks::Step;
use crate::memory::NoMemory;
use crate::walk::target;
use std::alloc::Global;

// Appends a step.
fn push(path: &mut Vec<Step>, step: Step) -> Result<(), NoMemory>
    ensures { OnOk result (path.new.items ≡ path.old.items ++ step ∷ []) }
{
    path.push(step)?;
    Ok(())
}

// Goes on to a node, unless it was seen.
fn enter(seen: &mut Vec<bool>, path: &mut Vec<Step>, node: u32) -> Result<(), NoMemory>
    requires { node < length seen.old.items }
    ensures { OnOk result (IsEntered seen.old.items seen.new.items path.old.items path.new.items node) }
{
    if seen[node as usize] {
        return Ok(());
    }
    seen[node as usize] = true;
    push(path, Step { node, next: 0 })?;
    Ok(())
}

// One turn of the search, at the end of the path: whether a target is the root.
fn turn(
    edges: &[Vec<u32>],
    seen: &mut Vec<bool>,
    path: &mut Vec<Step>,
    last: Step,
    root: u32,
) -> Result<bool, NoMemory>
    requires range { InRange (lists_in edges.now) }
    requires search { IsSearch (lists_in edges.now) seen.old.items (path.old.items ++ last ∷ []) root }
    ensures { IfOk result
        (AfterTurn (lists_in edges.now) seen.new.items path.new.items root
        (way_work (lists_in edges.now) seen.old.items (path.old.items ++ last ∷ []))) }
{
    match target(edges, last.node, last.next) {
        None => Ok(false),
        Some(next) => {
            push(
                path,
                Step {
                    node: last.node,
                    next: last.next + 1,
                },
            )?;
            if next == root {
                return Ok(true);
            }
            enter(seen, path, next)?;
            Ok(false)
        }
    }
}

// No node was seen.
fn none_seen(alloc: Global, edges: &[Vec<u32>]) -> Result<Vec<bool>, NoMemory>
    ensures { IfOk result (λ v. v.items ≡ map (λ _. false) edges.now) }
{
    Ok(edges.iter().map(|_| false).collect(alloc)?)
}

// The nodes of a path.
fn nodes(alloc: Global, path: &[Step]) -> Result<Vec<u32>, NoMemory>
    ensures { IfOk result (λ v. v.items ≡ steps_in path.now) }
{
    Ok(path.iter().map(|step| step.node).collect(alloc)?)
}

// A cycle that begins at a node, if there is one.
fn way_back(alloc: Global, edges: &[Vec<u32>], root: u32) -> Result<Option<Vec<u32>>, NoMemory>
    requires range { InRange (lists_in edges.now) }
    requires root { root < length edges.now }
    ensures { IfOk result (GoesBack (lists_in edges.now) root) }
{
    let mut seen = none_seen(alloc, edges)?;
    let mut path = Vec::new(alloc);
    seen[root as usize] = true;
    push(
        &mut path,
        Step {
            node: root,
            next: 0,
        },
    )?;
    'search: loop {
        match path.pop() {
            None => return Ok(None),
            Some(last) => {
                if turn(edges, &mut seen, &mut path, last, root)? {
                    return Ok(Some(nodes(alloc, path.as_slice())?));
                }
            }
        }
    }
}

/// The cycle that begins at the least node on any, if there is a cycle.
pub(crate) fn least_cycle(alloc: Global, edges: &[Vec<u32>]) -> Result<Option<Vec<u32>>, NoMemory>
    requires { InRange (lists_in edges.now) }
    ensures { IfOk result (IsLeastCycle (lists_in edges.now)) }
{
    'roots: for root in 0..edges.len() {
        match way_back(alloc, edges, root as u32)? {
            Some(cycle) => return Ok(Some(cycle)),
            None => {}
        }
    }
    Ok(None)
}
