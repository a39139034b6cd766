//! Reads at indices beside those of the texts.

use crate::collection::Collection;
use crate::stop::leave_out;
use nf_arrays::reads::read;
use nf_sums::sums::{add, constant_of, number};
use nf_terms::arr::Arr;
use nf_terms::form::Nf;
use nf_terms::poly::Poly;
use nf_terms::stop::{NfStop, NoMemory};
use nf_trees::tree::{Base, Pos};
use std::alloc::Global;

// How far indices are moved.
const STEPS: [i128; 2] = [1, -1];

// What an array has at an index that is moved.
fn moved_read(alloc: Global, array: Pos, index: &Poly, step: &i128) -> Result<Poly, NfStop> {
    let index = add(alloc, index, &number(alloc, step)?)?;
    read(alloc, &Arr::bare(alloc, Base::Sym(array)), &index)
}

// Adds what an array has at an index that is moved.
fn add_moved_read(
    alloc: Global,
    all: &mut Collection<'_>,
    array: Pos,
    index: &Poly,
    step: &i128,
) -> Result<(), NoMemory> {
    match moved_read(alloc, array, index, step) {
        Ok(value) => all.add_form(alloc, Nf::Num(value)),
        Err(stop) => leave_out(stop),
    }
}

// Adds what an array has beside an index, unless that is a constant.
fn add_beside(
    alloc: Global,
    all: &mut Collection<'_>,
    array: Pos,
    index: &Poly,
) -> Result<(), NoMemory> {
    if constant_of(index).is_some() {
        return Ok(());
    }
    for step in &STEPS {
        add_moved_read(alloc, all, array, index, step)?;
    }
    Ok(())
}

/// Adds what arrays have beside the indices at which they are read. The one refusal is out of memory.
pub(crate) fn add_moved_reads(alloc: Global, all: &mut Collection<'_>) -> Result<(), NoMemory> {
    let reads = all.take_reads(alloc);
    for (array, index) in &reads {
        add_beside(alloc, all, *array, index)?;
    }
    Ok(())
}
