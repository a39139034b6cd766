//! Cases, numbered as they are first met.

use crate::kinds::CaseKind;
use crate::known::{Truth, known_conditions, known_numbers};
use crate::told::{Live, Told};
use fs_cut::cover::Point;
use nf_terms::stop::NoMemory;
use search_strengthening_terms::stop::Stop;
use search_strengthening_terms::work::Work;
use std::alloc::Global;
use sym_paths::execution::Post;

// The most cases of a search.
const CASE_LIMIT: usize = 4_096;

/// A move: the points from which it leads, and of each side the number of its path, if it moves.
#[derive(Clone, Copy)]
pub struct CaseMove {
    pub left: Point,
    pub right: Point,
    pub left_path: Option<usize>,
    pub right_path: Option<usize>,
}

/// An arrival: by what it is told apart from others, the scalars that matter where it arrives, the case of the node from which it
/// comes, and the move.
#[derive(Clone, Copy)]
pub struct Arrival {
    pub kind: CaseKind,
    pub live: Live,
    pub source: usize,
    pub by: CaseMove,
}

// A case: what is known of conditions, the known numbers, and the last moves, the last one last.
#[derive(Drop)]
struct Case {
    conditions: Vec<Truth>,
    numbers: Vec<Option<i128>>,
    way: Vec<CaseMove>,
}

/// The cases that were met: the first one is that in which nothing is known.
#[derive(Drop)]
pub struct Cases {
    all: Vec<Case>,
}

// Whether two moves are the same.
fn is_same_move(one: &CaseMove, other: &CaseMove) -> bool {
    one.left.is_same(other.left)
        && one.right.is_same(other.right)
        && one.left_path == other.left_path
        && one.right_path == other.right_path
}

// Whether two ways are the same.
fn is_same_way(way: &[CaseMove], others: &[CaseMove]) -> bool {
    if way.len() != others.len() {
        return false;
    }
    for (place, step) in way.iter().enumerate() {
        match others.get(place) {
            Some(other) if is_same_move(step, other) => {}
            _ => return false,
        }
    }
    true
}

// Whether two cases are the same.
fn is_same_case(case: &Case, other: &Case) -> bool {
    case.conditions.as_slice() == other.conditions.as_slice()
        && case.numbers.as_slice() == other.numbers.as_slice()
        && is_same_way(case.way.as_slice(), other.way.as_slice())
}

// The number of a case among others.
fn find(all: &[Case], case: &Case) -> Option<usize> {
    for (number, other) in all.iter().enumerate() {
        if is_same_case(case, other) {
            return Some(number);
        }
    }
    None
}

// At most so many last moves of a way and one more.
fn way_after(
    alloc: Global,
    way: &[CaseMove],
    step: CaseMove,
    most: usize,
) -> Result<Vec<CaseMove>, NoMemory> {
    let mut out = Vec::new(alloc);
    if most == 0 {
        return Ok(out);
    }
    let first = way.len().saturating_sub(most - 1);
    for (place, old) in way.iter().enumerate() {
        if place >= first {
            out.push(*old)?;
        }
    }
    out.push(step)?;
    Ok(out)
}

impl Cases {
    /// The case in which nothing is known. The one refusal is out of memory.
    pub fn new(alloc: Global) -> Result<Cases, NoMemory> {
        let mut all = Vec::new(alloc);
        all.push(Case {
            conditions: Vec::new(alloc),
            numbers: Vec::new(alloc),
            way: Vec::new(alloc),
        })?;
        Ok(Cases { all })
    }

    // The last moves of a case.
    fn way_of(&self, number: usize) -> &[CaseMove] {
        match self.all.get(number) {
            Some(case) => case.way.as_slice(),
            None => &[],
        }
    }

    // The number of a case. `Bound` comes where there are too many.
    fn number_of(&mut self, case: Case) -> Result<usize, Stop> {
        if let Some(number) = find(self.all.as_slice(), &case) {
            return Ok(number);
        }
        let number = self.all.len();
        if number >= CASE_LIMIT {
            return Err(Stop::Bound);
        }
        self.all.push(case)?;
        Ok(number)
    }

    /// The number of the case of an arrival with this post. `Bound` comes where there are too many cases,
    /// `Exhausted` where too little work is left.
    pub fn case_after(
        &mut self,
        alloc: Global,
        work: &mut Work,
        told: &Told,
        arrival: Arrival,
        post: &Post,
    ) -> Result<usize, Stop> {
        let Arrival {
            kind,
            live,
            source,
            by,
        } = arrival;
        let case = Case {
            conditions: known_conditions(alloc, work, kind, told, live, post)?,
            numbers: known_numbers(alloc, work, kind, told, live, post)?,
            way: way_after(alloc, self.way_of(source), by, kind.way)?,
        };
        self.number_of(case)
    }
}
