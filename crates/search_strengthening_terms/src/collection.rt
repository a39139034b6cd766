//! Terms and literals, collected without repeats.

use crate::sorted::{compare_forms, compare_literals, insert_at};
use crate::universe::{Condition, Term, Universe};
use fs_model::parts::Role;
use fs_pair::positions::Position;
use nf_rel::literals::NLit;
use nf_terms::form::Nf;
use nf_terms::poly::Poly;
use nf_terms::stop::NoMemory;
use nf_terms::symbols::Sort;
use nf_terms::tree::Pos;
use nf_vectors::vector::Vector;
use std::alloc::Global;
use std::cmp::Ordering;
use std::mem;
use sym_facts::gathering::{symbols_of_nf, symbols_of_poly};

/// The most terms of a universe.
pub const TERM_LIMIT: usize = 4_096;

/// The most literals of a universe.
pub const LITERAL_LIMIT: usize = 4_096;

/// The most terms and literals that are looked at.
pub const CANDIDATE_LIMIT: u32 = 16_384;

/// What was collected of two machines with these positions: terms and literals, and the places of each in the order of their
/// forms and literals.
#[derive(Drop)]
pub struct Collection<'p> {
    positions: &'p [Position],
    own: Vector,
    terms: Vec<Term>,
    sorted_terms: Vec<usize>,
    literals: Vec<Condition>,
    sorted_literals: Vec<usize>,
    reads: Vec<(Pos, Poly)>,
    candidates: u32,
}

/// The place of a position.
pub fn place_of(positions: &[Position], pos: Pos) -> Option<usize> {
    for (place, position) in positions.iter().enumerate() {
        if position.pos == pos {
            return Some(place);
        }
    }
    None
}

// The places of symbols, without repeats; none where one is no position.
fn places_of_symbols(
    alloc: Global,
    positions: &[Position],
    symbols: &[(Pos, Sort)],
) -> Result<Option<Vec<usize>>, NoMemory> {
    let mut places = Vec::new(alloc);
    for (pos, _sort) in symbols {
        let Some(place) = place_of(positions, *pos) else {
            return Ok(None);
        };
        if !places.contains(&place) {
            places.push(place)?;
        }
    }
    Ok(Some(places))
}

/// The places of the positions that a form mentions; none where it mentions another. The one refusal is out of memory.
pub fn places_in(
    alloc: Global,
    positions: &[Position],
    form: &Nf,
) -> Result<Option<Vec<usize>>, NoMemory> {
    let symbols = symbols_of_nf(alloc, form)?;
    places_of_symbols(alloc, positions, symbols.as_slice())
}

// The places of the positions that a literal mentions; none where it is true or false, or mentions another.
fn places_of_literal(
    alloc: Global,
    positions: &[Position],
    literal: &NLit,
) -> Result<Option<Vec<usize>>, NoMemory> {
    let NLit::Is(bound) = literal else {
        return Ok(None);
    };
    let symbols = symbols_of_poly(alloc, &bound.dir)?;
    places_of_symbols(alloc, positions, symbols.as_slice())
}

// The number of the place of a form among places in the order of their forms, or else where it would go.
fn find_form(terms: &[Term], sorted: &[usize], form: &Nf) -> Result<usize, usize> {
    sorted.binary_search_by(|place| match terms.get(*place) {
        Some(term) => compare_forms(&term.form, form),
        None => Ordering::Greater,
    })
}

// The number of the place of a literal among places in the order of their literals, or else where it would go.
fn find_literal(literals: &[Condition], sorted: &[usize], literal: &NLit) -> Result<usize, usize> {
    sorted.binary_search_by(|place| match literals.get(*place) {
        Some(condition) => compare_literals(&condition.literal, literal),
        None => Ordering::Greater,
    })
}

impl<'p> Collection<'p> {
    /// Nothing yet.
    pub fn new(alloc: Global, positions: &'p [Position]) -> Collection<'p> {
        Collection {
            positions,
            own: Vector::new(alloc),
            terms: Vec::new(alloc),
            sorted_terms: Vec::new(alloc),
            literals: Vec::new(alloc),
            sorted_literals: Vec::new(alloc),
            reads: Vec::new(alloc),
            candidates: 0,
        }
    }

    /// The positions.
    pub fn positions(&self) -> &'p [Position] {
        self.positions
    }

    /// The vector in which each position has its own symbol.
    pub fn own_symbols(&self) -> &Vector {
        &self.own
    }

    /// Whether a position is an input.
    pub fn is_input(&self, pos: Pos) -> bool {
        match place_of(self.positions, pos) {
            Some(place) => match self.positions.get(place) {
                Some(position) => position.role == Role::Input,
                None => false,
            },
            None => false,
        }
    }

    /// The position of the other machine's variable of the name and the sort of a position.
    pub fn partner(&self, pos: Pos) -> Option<Pos> {
        let place = place_of(self.positions, pos)?;
        let position = self.positions.get(place)?;
        let partner = position.partner?;
        Some(self.positions.get(partner as usize)?.pos)
    }

    // Whether no more is looked at.
    fn is_full(&mut self) -> bool {
        if self.candidates >= CANDIDATE_LIMIT {
            return true;
        }
        self.candidates += 1;
        false
    }

    // Where a form goes among the terms in order; none where it is there, or past a bound.
    fn gap_for_form(&mut self, form: &Nf) -> Option<usize> {
        if self.terms.len() >= TERM_LIMIT || self.is_full() {
            return None;
        }
        find_form(self.terms.as_slice(), self.sorted_terms.as_slice(), form).err()
    }

    // Where a literal goes among the literals in order; none where it is there, or past a bound.
    fn gap_for_literal(&mut self, literal: &NLit) -> Option<usize> {
        if self.literals.len() >= LITERAL_LIMIT || self.is_full() {
            return None;
        }
        find_literal(
            self.literals.as_slice(),
            self.sorted_literals.as_slice(),
            literal,
        )
        .err()
    }

    /// Adds a form, unless it is there, it is past a bound, or it mentions what is no position. The one refusal is out of memory.
    pub fn add_form(&mut self, alloc: Global, form: Nf) -> Result<(), NoMemory> {
        let Some(gap) = self.gap_for_form(&form) else {
            return Ok(());
        };
        let Some(places) = places_in(alloc, self.positions, &form)? else {
            return Ok(());
        };
        insert_at(&mut self.sorted_terms, gap, self.terms.len())?;
        Ok(self.terms.push(Term { form, places })?)
    }

    /// Adds a literal, unless it is there, it is true or false, or it is past a bound. The one refusal is out of memory.
    pub fn add_literal(&mut self, alloc: Global, literal: NLit) -> Result<(), NoMemory> {
        let Some(gap) = self.gap_for_literal(&literal) else {
            return Ok(());
        };
        let Some(places) = places_of_literal(alloc, self.positions, &literal)? else {
            return Ok(());
        };
        insert_at(&mut self.sorted_literals, gap, self.literals.len())?;
        Ok(self.literals.push(Condition { literal, places })?)
    }

    /// Notes that an array is read at an index. The one refusal is out of memory.
    pub fn note_read(&mut self, array: Pos, index: Poly) -> Result<(), NoMemory> {
        self.reads.push((array, index))?;
        Ok(())
    }

    /// The reads that were noted, which are noted no longer.
    pub fn take_reads(&mut self, alloc: Global) -> Vec<(Pos, Poly)> {
        mem::replace(&mut self.reads, Vec::new(alloc))
    }

    /// What was collected.
    pub fn into_universe(self) -> Universe {
        Universe {
            terms: self.terms,
            literals: self.literals,
        }
    }
}
