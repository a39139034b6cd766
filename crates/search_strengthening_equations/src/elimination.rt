//! Which columns depend on earlier ones, by elimination.

use crate::residues::{inverse, minus, times};
use nf_terms::stop::NoMemory;
use std::alloc::Global;

/// A combination of columns: its entries, and the coefficients of the columns.
#[derive(Drop)]
pub(crate) struct Combination {
    pub entries: Vec<u64>,
    pub coefficients: Vec<u64>,
}

// A combination whose entry in a row is 1.
#[derive(Drop)]
struct Pivot {
    row: usize,
    by: Combination,
}

/// The columns that do not depend on earlier ones.
#[derive(Drop)]
pub(crate) struct Elimination {
    pivots: Vec<Pivot>,
}

/// The residue at a place, 0 where there is none.
pub(crate) fn residue_at(residues: &[u64], place: usize) -> u64 {
    match residues.get(place) {
        Some(residue) => *residue,
        None => 0,
    }
}

// Takes a multiple of residues off others.
fn take_off(residues: &mut [u64], others: &[u64], factor: u64) {
    for (place, residue) in residues.iter_mut().enumerate() {
        *residue = minus(*residue, times(residue_at(others, place), factor));
    }
}

// Multiplies residues.
fn scale(residues: &mut [u64], factor: u64) {
    for residue in residues.iter_mut() {
        *residue = times(*residue, factor);
    }
}

// The first row in which residues are not 0.
fn first_row(residues: &[u64]) -> Option<usize> {
    for (row, residue) in residues.iter().enumerate() {
        if *residue != 0 {
            return Some(row);
        }
    }
    None
}

// Takes a multiple of a pivot off a combination, so that its entry in the row of the pivot is 0.
fn take_pivot_off(combination: &mut Combination, pivot: &Pivot) {
    let factor = residue_at(combination.entries.as_slice(), pivot.row);
    if factor != 0 {
        take_off(
            &mut combination.entries,
            pivot.by.entries.as_slice(),
            factor,
        );
        take_off(
            &mut combination.coefficients,
            pivot.by.coefficients.as_slice(),
            factor,
        );
    }
}

impl Elimination {
    /// No columns.
    pub(crate) fn new(alloc: Global) -> Elimination {
        Elimination {
            pivots: Vec::new(alloc),
        }
    }

    // Keeps a combination whose entry in a row is not 0.
    fn keep(&mut self, row: usize, mut by: Combination) -> Result<(), NoMemory> {
        let factor = inverse(residue_at(by.entries.as_slice(), row));
        scale(&mut by.entries, factor);
        scale(&mut by.coefficients, factor);
        self.pivots.push(Pivot { row, by })?;
        Ok(())
    }

    /// Adds a column. Where it depends on earlier ones, answers the coefficients of a combination that is 0 everywhere.
    pub(crate) fn add(&mut self, mut column: Combination) -> Result<Option<Vec<u64>>, NoMemory> {
        for pivot in &self.pivots {
            take_pivot_off(&mut column, pivot);
        }
        match first_row(column.entries.as_slice()) {
            Some(row) => {
                self.keep(row, column)?;
                Ok(None)
            }
            None => Ok(Some(column.coefficients)),
        }
    }
}
