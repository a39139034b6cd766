//! What the bounds of literals tell of their directions.

ghost use Rattle.std.specs.Prelude.{◌≡◌, ◌↔◌, ◌≤ℤ◌, IsTrue, ℤ, true, false, map, List, OnOk, IfOk};
ghost use Rattle.std.specs.List.{list_any};
ghost use Rattle.std.specs.Option.{option_copied};
ghost use Rattle.nf_terms.specs.NormalTerms.{Polynomial};
ghost use Rattle.nf_rel.specs.Literals.{NormalLiteral, is_refuted_at};
ghost use Rattle.nf_rel.specs.View.{literal_in};
ghost use Rattle.nf_refutation.specs.BoundTables.{bound_in, is_below, is_above, has_number, leaves_number, IsBoundTableOf};
ghost use Rattle.nf_refutation.specs.BoundTables.{Tightens, AddsNumber, AddsLiteral};

use nf_rel::kind::Kind;
use nf_rel::literals::{Bound, NLit};
use nf_terms::poly::Poly;
use nf_terms::stop::NoMemory;
use std::alloc::Global;
use std::collections::{BTreeMap, BTreeSet};

/// The greatest lower bound and the least upper bound of each direction, and the numbers that a `!=` leaves out of it.
///
/// An equality bounds its direction from both sides.
#[derive(Drop)]
pub(crate) struct BoundTable<'a> {
    pub(crate) lower: BTreeMap<&'a Poly, i128>,
    pub(crate) upper: BTreeMap<&'a Poly, i128>,
    pub(crate) left_out: BTreeSet<(i128, &'a Poly)>,
}

// The bound of a direction.
fn bound_in<'a, 'b>(bounds: &'b BTreeMap<&'a Poly, i128>, dir: &'a Poly) -> Option<&'b i128>
    ensures { option_copied result ≡ bound_in bounds.now dir.now }
{
    bounds.get(&dir)
}

// Whether a number is below the lower bound of a direction.
fn is_below<'a>(lower: &BTreeMap<&'a Poly, i128>, dir: &'a Poly, number: &i128) -> bool
    ensures { result ≡ is_below number.now (bound_in lower.now dir.now) }
{
    match lower.get(&dir) {
        Some(bound) => *number < *bound,
        None => false,
    }
}

// Whether a number is above the upper bound of a direction.
fn is_above<'a>(upper: &BTreeMap<&'a Poly, i128>, dir: &'a Poly, number: &i128) -> bool
    ensures { result ≡ is_above number.now (bound_in upper.now dir.now) }
{
    match upper.get(&dir) {
        Some(bound) => *bound < *number,
        None => false,
    }
}

// Whether a set has a number of a direction.
fn has_number<'a>(numbers: &BTreeSet<(i128, &'a Poly)>, dir: &'a Poly, number: &i128) -> bool
    ensures { result ≡ has_number numbers.now dir.now number.now }
{
    numbers.contains(&(*number, dir))
}

// Raises the lower bound of a direction to a bound, if it is below. The one refusal is out of memory.
fn bound_from_below<'a>(
    lower: &mut BTreeMap<&'a Poly, i128>,
    dir: &'a Poly,
    bound: &i128,
) -> Result<(), NoMemory>
    ensures { OnOk result (Tightens is_below lower.old lower.new dir.now bound.now) }
{
    if is_below(lower, dir, bound) {
        return Ok(());
    }
    lower.insert(dir, *bound)?;
    Ok(())
}

// Lowers the upper bound of a direction to a bound, if it is above. The one refusal is out of memory.
fn bound_from_above<'a>(
    upper: &mut BTreeMap<&'a Poly, i128>,
    dir: &'a Poly,
    bound: &i128,
) -> Result<(), NoMemory>
    ensures { OnOk result (Tightens is_above upper.old upper.new dir.now bound.now) }
{
    if is_above(upper, dir, bound) {
        return Ok(());
    }
    upper.insert(dir, *bound)?;
    Ok(())
}

// Adds a number of a direction to a set. The one refusal is out of memory.
fn add_number<'a>(
    numbers: &mut BTreeSet<(i128, &'a Poly)>,
    dir: &'a Poly,
    number: &i128,
) -> Result<(), NoMemory>
    ensures { OnOk result (AddsNumber numbers.old numbers.new dir.now number.now) }
{
    numbers.insert((*number, dir))?;
    Ok(())
}

impl<'a> BoundTable<'a> {
    // No bound of any direction. It takes no memory.
    fn new(alloc: Global) -> BoundTable<'a>
        ensures { (d : Polynomial) (v : ℤ) → leaves_number result d v ≡ true }
    {
        BoundTable {
            lower: BTreeMap::new(alloc),
            upper: BTreeMap::new(alloc),
            left_out: BTreeSet::new(alloc),
        }
    }

    // Adds a bound. The one refusal is out of memory.
    fn add(&mut self, bound: &'a Bound) -> Result<(), NoMemory>
        ensures { OnOk result (AddsLiteral self.old self.new (literal_in (NLit.Is bound.now))) }
    {
        let dir = &bound.dir;
        let number = &bound.bound;
        match bound.kind {
            Kind::Ge => bound_from_below(&mut self.lower, dir, number),
            Kind::Le => bound_from_above(&mut self.upper, dir, number),
            Kind::Eq => {
                bound_from_below(&mut self.lower, dir, number)?;
                bound_from_above(&mut self.upper, dir, number)
            }
            Kind::Ne => add_number(&mut self.left_out, dir, number),
        }
    }

    // Adds a literal. The one refusal is out of memory.
    fn add_literal(&mut self, literal: &'a NLit) -> Result<(), NoMemory>
        ensures { OnOk result (AddsLiteral self.old self.new (literal_in literal.now)) }
    {
        match literal {
            NLit::True | NLit::False => Ok(()),
            NLit::Is(bound) => self.add(bound),
        }
    }

    /// The bounds of a list of literals. The one refusal is out of memory.
    pub(crate) fn of(alloc: Global, list: &'a [NLit]) -> Result<BoundTable<'a>, NoMemory>
        ensures { IfOk result (λ table. IsBoundTableOf table (map literal_in list.now)) }
    {
        let mut table = BoundTable::new(alloc);
        for literal in list {
            table.add_literal(literal)?;
        }
        Ok(table)
    }

    // Whether each number of a direction from one to another is left out.
    fn leaves_out(&self, dir: &'a Poly, low: &i128, high: &i128) -> bool
        ensures { IsTrue result ↔ ((v : ℤ) → low.now ≤ℤ v → v ≤ℤ high.now → has_number self.now.left_out dir.now v ≡ true) }
    {
        if *high < *low {
            return true;
        }
        let mut number = *low;
        while number < *high {
            if !has_number(&self.left_out, dir, &number) {
                return false;
            }
            number += 1;
        }
        has_number(&self.left_out, dir, high)
    }

    // Whether no number of a direction is left.
    fn leaves_none(&self, dir: &'a Poly) -> bool
        ensures { IsTrue result ↔ ((v : ℤ) → leaves_number self.now dir.now v ≡ false) }
    {
        match bound_in(&self.lower, dir) {
            None => false,
            Some(low) => match bound_in(&self.upper, dir) {
                None => false,
                Some(high) => self.leaves_out(dir, low, high),
            },
        }
    }

    // Whether a literal is False, or no number of its direction is left.
    fn refutes(&self, literal: &'a NLit) -> bool
        ensures { (ls : List NormalLiteral) → IsBoundTableOf self.now ls → result ≡ is_refuted_at ls (literal_in literal.now) }
    {
        match literal {
            NLit::True => false,
            NLit::False => true,
            NLit::Is(bound) => self.leaves_none(&bound.dir),
        }
    }

    /// Whether one of some literals is False, or no number of its direction is left.
    pub(crate) fn refutes_any(&self, list: &'a [NLit]) -> bool
        ensures { (ls : List NormalLiteral) → IsBoundTableOf self.now ls
            → result ≡ list_any (is_refuted_at ls) (map literal_in list.now) }
    {
        for literal in list {
            if self.refutes(literal) {
                return true;
            }
        }
        false
    }
}
