//! Numbers as columns: a row for each monomial of each vector.

use crate::candidates::Candidate;
use crate::elimination::Combination;
use crate::residues::residue_of;
use nf_substitution::subst::Subst;
use nf_substitution::vector::Vector;
use nf_terms::form::Nf;
use nf_terms::poly::Poly;
use nf_terms::stop::NoMemory;
use nf_trees::order::compare_monos;
use nf_trees::tree::MonoTree;
use search_strengthening_terms::stop::{Stop, unless_stopped};
use search_strengthening_terms::work::Work;
use std::alloc::Global;
use sym_facts::entailment::substitute;

// The most rows.
const ROW_LIMIT: usize = 256;

/// The values of a number in vectors.
#[derive(Drop)]
pub(crate) struct Values {
    pub all: Vec<Option<Poly>>,
}

/// A monomial of the values in a vector.
#[derive(Clone, Copy)]
pub(crate) struct Row<'v> {
    vector: usize,
    mono: &'v MonoTree,
}

// What a number is in a vector, or none where it meets a limit.
fn substituted(alloc: Global, vector: &Vector, number: &Nf) -> Result<Option<Nf>, NoMemory> {
    let mut s = Subst::new(alloc, vector);
    unless_stopped(substitute(alloc, &mut s, number))
}

// The value of a number in a vector, or none where it meets a limit.
fn value_in(
    alloc: Global,
    work: &mut Work,
    vector: &Vector,
    number: &Nf,
) -> Result<Option<Poly>, Stop> {
    work.spend(number.size())?;
    match substituted(alloc, vector, number)? {
        Some(Nf::Num(value)) => Ok(Some(value)),
        _ => Ok(None),
    }
}

// The values of a number in vectors.
fn values_in(
    alloc: Global,
    work: &mut Work,
    vectors: &[Vector],
    number: &Nf,
) -> Result<Values, Stop> {
    let mut all = Vec::new(alloc);
    for vector in vectors {
        all.push(value_in(alloc, work, vector, number)?)?;
    }
    Ok(Values { all })
}

/// The values of numbers in vectors.
pub(crate) fn values_of(
    alloc: Global,
    work: &mut Work,
    vectors: &[Vector],
    candidates: &[Candidate],
) -> Result<Vec<Values>, Stop> {
    let mut out = Vec::new(alloc);
    for candidate in candidates {
        let number = Nf::Num(candidate.number.try_clone(alloc)?);
        out.push(values_in(alloc, work, vectors, &number)?)?;
    }
    Ok(out)
}

// The row of a monomial in a vector.
fn row_of(rows: &[Row<'_>], vector: usize, mono: &MonoTree) -> Option<usize> {
    for (place, row) in rows.iter().enumerate() {
        if row.vector == vector && compare_monos(row.mono, mono).is_eq() {
            return Some(place);
        }
    }
    None
}

// Adds the rows of a value. Answers whether there are not too many.
fn push_rows<'v>(
    rows: &mut Vec<Row<'v>>,
    vector: usize,
    value: &'v Poly,
) -> Result<bool, NoMemory> {
    for (mono, _coefficient) in value.monos() {
        if row_of(rows.as_slice(), vector, mono).is_none() {
            if rows.len() >= ROW_LIMIT {
                return Ok(false);
            }
            rows.push(Row { vector, mono })?;
        }
    }
    Ok(true)
}

// Adds the rows of the values of a number. Answers whether all are there, and not too many rows.
fn push_all_rows<'v>(rows: &mut Vec<Row<'v>>, values: &'v Values) -> Result<bool, NoMemory> {
    for (vector, value) in values.all.iter().enumerate() {
        let fits = match value {
            Some(value) => push_rows(rows, vector, value)?,
            None => false,
        };
        if !fits {
            return Ok(false);
        }
    }
    Ok(true)
}

// Puts the coefficients of a value in their rows.
fn put_entries(rows: &[Row<'_>], vector: usize, value: &Poly, entries: &mut [u64]) {
    for (mono, coefficient) in value.monos() {
        if let Some(row) = row_of(rows, vector, mono) {
            if let Some(entry) = entries.get_mut(row) {
                *entry = residue_of(coefficient);
            }
        }
    }
}

// Puts the coefficients of all values in their rows.
fn put_all_entries(rows: &[Row<'_>], values: &Values, entries: &mut [u64]) {
    for (vector, value) in values.all.iter().enumerate() {
        if let Some(value) = value {
            put_entries(rows, vector, value, entries);
        }
    }
}

// The coefficients of a column alone, of so many.
fn lone_column(alloc: Global, count: usize, place: usize) -> Result<Vec<u64>, NoMemory> {
    let mut out = vec![in alloc; 0u64; count]?;
    if let Some(coefficient) = out.get_mut(place) {
        *coefficient = 1;
    }
    Ok(out)
}

/// The column at a place, of so many, of a number with these values, whose rows are added to those that there are; none where a
/// value met a limit, or there are too many rows. The one refusal is out of memory.
pub(crate) fn column_of<'v>(
    alloc: Global,
    rows: &mut Vec<Row<'v>>,
    count: usize,
    place: usize,
    values: &'v Values,
) -> Result<Option<Combination>, NoMemory> {
    if !push_all_rows(rows, values)? {
        return Ok(None);
    }
    let mut entries = vec![in alloc; 0u64; ROW_LIMIT]?;
    put_all_entries(rows.as_slice(), values, &mut entries);
    let coefficients = lone_column(alloc, count, place)?;
    Ok(Some(Combination {
        entries,
        coefficients,
    }))
}
