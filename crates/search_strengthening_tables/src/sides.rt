//! Two machines as a search sees them.

use crate::nodes::Standing;
use cert_model::covers::cover_of;
use fs_ast::machine::Machine;
use fs_cut::cover::{Cover, Point};
use fs_pair::positions::Pairing;
use nf_terms::stop::NoMemory;
use search_strengthening_cases::told::{Told, told_of};
use search_strengthening_claims::claims::LivePositions;
use search_strengthening_claims::live::{Liveness, live_positions};
use search_strengthening_claims::loops::order_states;
use search_strengthening_claims::order::PointOrder;
use search_strengthening_claims::universe::{Universe, universe_of};
use std::alloc::Global;

// The most terms that are all compared at each pair of points.
const FEW_TERMS: usize = 256;

/// A machine with its cover, its points in order, all its states in order with the loops around them, and what matters at its
/// points.
#[derive(Drop)]
pub struct Covered<'a> {
    pub machine: &'a Machine,
    pub cover: Cover,
    pub order: PointOrder,
    pub loops: PointOrder,
    pub live: Liveness,
}

/// Two machines, the terms and literals that may hold between them, what may tell arrivals apart, and whether nothing is claimed
/// of scalars at points behind which they do not matter.
#[derive(Drop)]
pub struct Sides<'a> {
    pub left: Covered<'a>,
    pub right: Covered<'a>,
    pub pairing: &'a Pairing,
    pub universe: Universe,
    pub told: Told,
    pub frees_others: bool,
}

impl<'a> Sides<'a> {
    /// For each position whether terms over it are compared at two points: where there are many terms, or nothing is claimed of
    /// what does not matter, those over scalars that do not matter there are left out. The one refusal is out of memory.
    pub fn live_positions(
        &self,
        alloc: Global,
        left: Point,
        right: Point,
    ) -> Result<LivePositions, NoMemory> {
        let positions = self.pairing.positions();
        let (lefts, rights) = (self.left.live.at(left), self.right.live.at(right));
        let all = if self.frees_others || self.universe.terms.len() > FEW_TERMS {
            live_positions(alloc, positions, lefts, rights)?
        } else {
            vec![in alloc; true; positions.len()]?
        };
        Ok(LivePositions {
            all,
            frees_others: self.frees_others,
        })
    }

    /// Where two points stand in the order of nodes, in a case.
    pub fn standing(&self, left: Point, right: Point, case: usize) -> Standing {
        let (a, b) = (&self.left.order, &self.right.order);
        Standing {
            components: (a.component(left), b.component(right)),
            numbers: (a.number(left), b.number(right)),
            case,
            points: a
                .component_size(left)
                .saturating_add(b.component_size(right)),
        }
    }
}

fn with_cover<'a>(alloc: Global, machine: &'a Machine) -> Result<Covered<'a>, NoMemory> {
    let cover = cover_of(alloc, machine)?;
    let order = PointOrder::of(alloc, &cover)?;
    let loops = order_states(alloc, machine)?;
    let live = Liveness::of(alloc, machine)?;
    Ok(Covered {
        machine,
        cover,
        order,
        loops,
        live,
    })
}

/// Two machines as a search sees them. The one refusal is out of memory.
pub fn sides_of<'a>(
    alloc: Global,
    a: &'a Machine,
    b: &'a Machine,
    pairing: &'a Pairing,
    frees_others: bool,
) -> Result<Sides<'a>, NoMemory> {
    let left = with_cover(alloc, a)?;
    let right = with_cover(alloc, b)?;
    let universe = universe_of(alloc, a, b, pairing)?;
    let told = told_of(alloc, a, b, pairing, &universe)?;
    Ok(Sides {
        left,
        right,
        pairing,
        universe,
        told,
        frees_others,
    })
}
