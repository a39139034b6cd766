//! The paths of a point that a fact leaves open, and which of them meet.

use fs_ast::machine::Machine;
use fs_cut::cover::{Cover, Path, Point};
use nf_refutation::refutation::is_refuted;
use nf_rel::literals::NLit;
use nf_substitution::vector::Vector;
use nf_terms::tree::Side;
use search_strengthening_terms::stop::{Stop, within_limits};
use search_strengthening_terms::work::Work;
use std::alloc::Global;
use sym_facts::fact::{Fact, copied_literals};
use sym_paths::execution::conditions;

// The units of work of the conditions of a path.
const PATH_UNITS: u64 = 8;

/// The conditions of a path that a fact leaves open, behind those of the fact, and where the path leads.
#[derive(Drop)]
pub struct OpenPath {
    conds: Vec<NLit>,
    own: usize,
    end: Point,
}

impl OpenPath {
    /// Where the path leads.
    pub fn end(&self) -> Point {
        self.end
    }
}

// Whether literals are not refuted. `Bound` comes where too little work is left.
fn is_open(alloc: Global, work: &mut Work, conds: &[NLit]) -> Result<bool, Stop> {
    work.spend((conds.len() as u64).saturating_add(PATH_UNITS))?;
    Ok(!is_refuted(alloc, conds)?)
}

// The conditions of a fact, and then those of a path under it. `Bound` comes where these meet a limit.
fn conditions_behind(
    alloc: Global,
    machine: &Machine,
    side: Side,
    fact: &Fact,
    v: &Vector,
    path: &Path,
) -> Result<OpenPath, Stop> {
    let mut own = within_limits(conditions(alloc, machine, path, side, v))?;
    let count = own.len();
    let mut conds = copied_literals(alloc, fact.conds())?;
    conds.append(&mut own)?;
    Ok(OpenPath {
        conds,
        own: count,
        end: path.to,
    })
}

/// The paths of a point that are not refuted under a fact with this vector. `Bound` comes where too little work is left, or
/// conditions of a path meet a limit.
pub fn open_paths(
    alloc: Global,
    work: &mut Work,
    machine: &Machine,
    cover: &Cover,
    side: Side,
    fact: &Fact,
    v: &Vector,
    point: Point,
) -> Result<Vec<OpenPath>, Stop> {
    let mut out = Vec::new(alloc);
    for path in cover.from(point) {
        let found = conditions_behind(alloc, machine, side, fact, v, path)?;
        if is_open(alloc, work, found.conds.as_slice())? {
            out.push(found)?;
        }
    }
    Ok(out)
}

// The literals that a path has beside those of its fact.
fn own_conditions(path: &OpenPath) -> &[NLit] {
    match path.conds.get(path.conds.len().saturating_sub(path.own)..) {
        Some(own) => own,
        None => &[],
    }
}

// Whether two paths of different machines are not refuted together.
fn is_meeting(
    alloc: Global,
    work: &mut Work,
    path: &OpenPath,
    other: &OpenPath,
) -> Result<bool, Stop> {
    let mut conds = copied_literals(alloc, path.conds.as_slice())?;
    conds.append(&mut copied_literals(alloc, own_conditions(other))?)?;
    is_open(alloc, work, conds.as_slice())
}

// Whether a path is not refuted together with several of these of the other machine.
fn meets_several(
    alloc: Global,
    work: &mut Work,
    path: &OpenPath,
    others: &[OpenPath],
) -> Result<bool, Stop> {
    let mut met = false;
    for other in others {
        if is_meeting(alloc, work, path, other)? {
            if met {
                return Ok(true);
            }
            met = true;
        }
    }
    Ok(false)
}

/// Whether some path is not refuted together with several of the other machine. `Bound` comes where too little work is left.
pub fn some_meets_several(
    alloc: Global,
    work: &mut Work,
    paths: &[OpenPath],
    others: &[OpenPath],
) -> Result<bool, Stop> {
    for path in paths {
        if meets_several(alloc, work, path, others)? {
            return Ok(true);
        }
    }
    Ok(false)
}
