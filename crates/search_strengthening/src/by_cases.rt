//! The third search.

ghost use Rattle.std.specs.Prelude.{◌≡◌, ◌≤◌, None, map, IfOk, IfSome};
ghost use Rattle.fs_pair.specs.Interfaces.{interface_fault};
ghost use Rattle.fs_pair.specs.Positions.{positions};
ghost use Rattle.cert_model.specs.Lawful.{IsLawful};
ghost use Rattle.cert_model.specs.View.{node_of};
ghost use Rattle.cert_model.specs.Sizes.{units_of};

use crate::searching::{Closed, Found, search_by_plans};
use cert_model::cert::Cert;
use fs_ast::machine::Machine;
use fs_pair::positions::{FaceError, Pairing, same_interface};
use nf_terms::stop::NoMemory;
use search_strengthening_tables::assembling::assemble;
use search_strengthening_tables::exchange::exchange_sides;
use search_strengthening_tables::kinds::{CaseKind, Numbers};
use search_strengthening_tables::rules::Rule;
use search_strengthening_tables::sides::{Sides, sides_of};
use search_strengthening_tables::state::Plan;
use search_strengthening_terms::work::Work;
use std::alloc::Global;

// The most units of work of all searches of two machines.
const WORK: u64 = 1_500_000;

// The most units of work of one search.
const WORK_OF_SEARCH: u64 = 500_000;

// How many nodes at most are added and weakened in a component.
const CHANGES: usize = 512;

// By what cases are told apart in a try, by which rule machines move, and whether what was claimed at a deleted node is
// remembered.
#[derive(Clone, Copy)]
struct Try {
    kind: CaseKind,
    rule: Rule,
    remembers: bool,
}

// By what is known of conditions and flags, by the last move, by both, by the last two moves, and by what is known of all locals.
const BY_KNOWN: CaseKind = CaseKind {
    conditions: true,
    numbers: Numbers::Flags,
    way: 0,
};

const BY_MOVE: CaseKind = CaseKind {
    conditions: false,
    numbers: Numbers::None,
    way: 1,
};

const BY_KNOWN_AND_MOVE: CaseKind = CaseKind {
    conditions: true,
    numbers: Numbers::Flags,
    way: 1,
};

const BY_MOVES: CaseKind = CaseKind {
    conditions: false,
    numbers: Numbers::None,
    way: 2,
};

const BY_NUMBERS: CaseKind = CaseKind {
    conditions: false,
    numbers: Numbers::Locals,
    way: 0,
};

// The tries, in order.
const TRIES: [Try; 7] = [
    Try {
        kind: BY_KNOWN,
        rule: Rule::AsksLessFirst,
        remembers: true,
    },
    Try {
        kind: BY_KNOWN_AND_MOVE,
        rule: Rule::AsksLessFirst,
        remembers: true,
    },
    Try {
        kind: BY_MOVE,
        rule: Rule::AsksLessFirst,
        remembers: false,
    },
    Try {
        kind: BY_MOVE,
        rule: Rule::AlwaysTogether,
        remembers: true,
    },
    Try {
        kind: BY_MOVES,
        rule: Rule::AsksLessFirst,
        remembers: false,
    },
    Try {
        kind: BY_NUMBERS,
        rule: Rule::AsksLessFirst,
        remembers: true,
    },
    Try {
        kind: BY_MOVE,
        rule: Rule::AsksLessFirst,
        remembers: true,
    },
];

// The one plan of a try.
fn plans_of(alloc: Global, attempt: Try) -> Result<Vec<Plan>, NoMemory> {
    let mut plans = Vec::new(alloc);
    plans.push(Plan {
        rule: attempt.rule,
        kind: attempt.kind,
        changes_of_point: CHANGES,
        most_changes: CHANGES,
    })?;
    Ok(plans)
}

// A closed table of two machines, if one is found by a try.
fn try_once(
    alloc: Global,
    sides: &Sides<'_>,
    work: &mut Work,
    attempt: Try,
) -> Result<Option<Closed>, NoMemory> {
    let plans = plans_of(alloc, attempt)?;
    let (visited, remembers) = (Vec::new(alloc), attempt.remembers);
    match search_by_plans(
        alloc,
        sides,
        work,
        WORK_OF_SEARCH,
        plans,
        visited,
        remembers,
    )? {
        Found::Closed(closed) => Ok(Some(closed)),
        Found::Open { .. } => Ok(None),
    }
}

// A closed table of exchanged machines, exchanged back, if one is found by a try and no term meets a limit.
fn try_exchanged(
    alloc: Global,
    exchanged: &Sides<'_>,
    p: &Pairing,
    work: &mut Work,
    attempt: Try,
) -> Result<Option<Closed>, NoMemory> {
    let Some(mut closed) = try_once(alloc, exchanged, work, attempt)? else {
        return Ok(None);
    };
    let is_made = exchange_sides(alloc, p, &mut closed.nodes)?;
    Ok(if is_made { Some(closed) } else { None })
}

// A closed table of two machines, as they are or else exchanged, if one is found by a try.
fn try_either_way(
    alloc: Global,
    sides: &Sides<'_>,
    exchanged: &Sides<'_>,
    work: &mut Work,
    attempt: Try,
) -> Result<Option<Closed>, NoMemory> {
    match try_once(alloc, sides, work, attempt)? {
        Some(closed) => Ok(Some(closed)),
        None => try_exchanged(alloc, exchanged, sides.pairing, work, attempt),
    }
}

// A closed table of two machines, if one is found by one of the tries.
fn find_by_tries(
    alloc: Global,
    sides: &Sides<'_>,
    exchanged: &Sides<'_>,
) -> Result<Option<Closed>, NoMemory> {
    let mut work = Work::of(WORK);
    for attempt in TRIES {
        if let Some(closed) = try_either_way(alloc, sides, exchanged, &mut work, attempt)? {
            return Ok(Some(closed));
        }
    }
    Ok(None)
}

// A closed table of two machines with several nodes at pairs of points, if one is found.
fn close_by_cases(
    alloc: Global,
    a: &Machine,
    b: &Machine,
    p: &Pairing,
) -> Result<Option<Closed>, NoMemory> {
    let pairing = match same_interface(alloc, b, a) {
        Ok(pairing) => pairing,
        Err(FaceError::Interface { .. }) => return Ok(None),
        Err(FaceError::NoMemory) => return Err(NoMemory),
    };
    let sides = sides_of(alloc, a, b, p, true)?;
    let exchanged = sides_of(alloc, b, a, &pairing, true)?;
    find_by_tries(alloc, &sides, &exchanged)
}

/// Searches a third time for a certificate that two machines with the same interface have the same behaviour: as the second
/// search, but a node is a pair of points and a case, that is what is known at an arrival of conditions over inputs and of
/// numbers of locals, or the moves by which it was reached. At most 12 nodes stand at two points.
///
/// What it finds is a lawful certificate of at most 4,000,000 units; whether its obligations hold is for a checker to say. It
/// finds none within the bounds of its work, or where outputs differ. The one refusal is out of memory.
pub fn strengthen_by_cases(
    alloc: Global,
    a: &Machine,
    b: &Machine,
    p: &Pairing,
) -> Result<Option<Cert>, NoMemory>
    requires paired { p.now ≡ positions a.now b.now }
    requires interface { interface_fault a.now b.now ≡ None }
    ensures lawful { IfOk result (λ found. IfSome found (λ c. IsLawful a.now b.now (map node_of c.nodes.items))) }
    ensures small { IfOk result (λ found. IfSome found (λ c. units_of (map node_of c.nodes.items) ≤ 4000000)) }
{
    match close_by_cases(alloc, a, b, p)? {
        Some(closed) => assemble(
            alloc,
            a,
            b,
            p,
            closed.nodes.as_slice(),
            closed.ranks.as_slice(),
        ),
        None => Ok(None),
    }
}
