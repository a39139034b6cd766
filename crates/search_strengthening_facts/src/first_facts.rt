//! What is claimed after the first arrival, and the fact that is made of it.

use crate::facts::fact_of;
use fs_pair::positions::Pairing;
use nf_terms::stop::NoMemory;
use search_strengthening_solutions::claims::{Claims, LivePositions, claims_before, copied_claims};
use search_strengthening_solutions::weeding::weed;
use search_strengthening_terms::stop::Stop;
use search_strengthening_terms::universe::Universe;
use search_strengthening_terms::work::Work;
use std::alloc::Global;
use sym_facts::fact::Fact;
use sym_paths::execution::Post;

/// Claims, and the fact that is made of them.
#[derive(Drop)]
pub struct FirstFact {
    pub claims: Claims,
    pub fact: Fact,
}

// The fact that is made of claims without what does not hold at an arrival.
fn fact_after(
    alloc: Global,
    work: &mut Work,
    universe: &Universe,
    p: &Pairing,
    claims: &mut Claims,
    post: &Post,
) -> Result<Fact, Stop> {
    let count = p.positions().len();
    weed(alloc, work, universe, count, claims, post)?;
    fact_of(alloc, work, universe, p, claims)
}

// Claims before the first arrival: what has held at visits before the search, where there were any.
fn claims_for(
    alloc: Global,
    universe: &Universe,
    live: &LivePositions,
    p: &Pairing,
    post: &Post,
    visited: Option<&Claims>,
) -> Result<Claims, NoMemory> {
    match visited {
        Some(claims) => copied_claims(alloc, claims),
        None => claims_before(alloc, universe, live, post, p),
    }
}

/// What is claimed after the first arrival, by which positions matter, and the fact that is made of it. Where there were visits
/// before the search, no more is claimed than has held at these. `Bound` comes where what is made is no fact, `Exhausted` where
/// too little work is left.
pub fn first_fact(
    alloc: Global,
    work: &mut Work,
    universe: &Universe,
    live: &LivePositions,
    p: &Pairing,
    post: &Post,
    visited: Option<&Claims>,
) -> Result<FirstFact, Stop> {
    let mut claims = claims_for(alloc, universe, live, p, post, visited)?;
    let fact = fact_after(alloc, work, universe, p, &mut claims, post)?;
    Ok(FirstFact { claims, fact })
}
