//! Facts: for each position an equation or none, and literals.

ghost use Rattle.std.specs.Prelude.{◌≡◌, ◌≤◌, ◌+◌, ◌*◌, IsTrue, IfOk, length, map, option_map};
ghost use Rattle.std.specs.List.{list_all};
ghost use Rattle.nf_terms.specs.TermLimits.{size_limit};
ghost use Rattle.nf_rel.specs.View.{literal_in};
ghost use Rattle.sym_facts.specs.Facts.{IsFact, has_its_sort, may_be_kept, most_literals, size_of_fact};
ghost use Rattle.sym_facts.specs.Facts.{size_of_equation as equation_size, size_of_equations as equations_size};
ghost use Rattle.sym_facts.specs.Facts.{size_of_literals as literals_size, own_symbol as symbol_of, form_or_symbol, vector_of};
ghost use Rattle.sym_facts.specs.Pairings.{IsFactOf, is_position, literal_within};
ghost use Rattle.sym_facts.specs.FactParts.{with_equations as positions_with, fact_of, equation_within, equation_at};
ghost use Rattle.sym_facts.specs.FactParts.{are_distinct_positions, most_sorted_positions, IsKept};
ghost use Rattle.sym_facts.specs.View.{TellsSolved, position_in};

use crate::parts::{first_unsolved, shared_equations, with_equations};
use fs_model::parts::Sort;
use fs_pair::positions::Pairing;
use nf_rel::literals::NLit;
use nf_symbols::shared_form::SharedForm;
use nf_symbols::vector::Vector;
use nf_terms::arr::Arr;
use nf_terms::form::Nf;
use nf_terms::poly::Poly;
use nf_terms::seq::Seq;
use nf_terms::stop::NoMemory;
use nf_terms::tree::SeqBase;
use nf_trees::tree::{Base, Pos};
use std::alloc::Global;
use std::marker::Model;

/// A position with its equation, or free.
#[derive(Drop)]
pub struct FactPosition {
    pub pos: Pos,
    pub sort: Sort,
    pub equation: Option<SharedForm>,
}

impl FactPosition {
    /// The form of its equation.
    pub fn form(&self) -> Option<&Nf>
        ensures { option_map (λ f. f.now) result ≡ (position_in self.now).equation }
    {
        match &self.equation {
            Some(shared) => Some(shared.form()),
            None => None,
        }
    }
}

/// For each position of two machines a normal form or none, and at most 64 literals. It is solved: no position that
/// has a normal form is mentioned in one or in a literal.
#[derive(Drop)]
pub struct Fact {
    positions: Vec<FactPosition>,
    conds: Vec<NLit>,
}

impl Model for Fact {
    ghost use Rattle.std.specs.Prelude.{map};
    ghost use Rattle.nf_rel.specs.View.{literal_in};
    ghost use Rattle.sym_facts.specs.Facts.{Fact as PlainFact};
    ghost use Rattle.sym_facts.specs.FactParts.{IsKept};
    ghost use Rattle.sym_facts.specs.View.{position_in};
    ghost use Rattle.sym_facts.specs.Codes.{coded_fact};

    ghost Value = { PlainFact };

    ghost coded = { coded_fact };

    ghost view = { λ f. record { positions = map position_in f.positions.items; literals = map literal_in f.conds.items } };

    ghost invariant = { λ f. IsKept
        (record { positions = map position_in f.positions.items; literals = map literal_in f.conds.items }) };
}

/// Why parts make no fact.
#[derive(Clone, Copy)]
pub enum FactError {
    /// A position that has a normal form is mentioned in one or in a literal: the place of the first such.
    NotSolved { place: u32 },
    /// Out of memory.
    NoMemory,
}

impl From<NoMemory> for FactError {
    ghost use Rattle.sym_facts.specs.declared.fact.FactError.TheVariants as refusal;

    ghost from_gives = { λ _ e. e ≡ refusal.NoMemory };

    fn from(_refused: NoMemory) -> FactError {
        FactError::NoMemory
    }
}

impl Fact {
    /// The fact of these parts: one entry a position, and the literals.
    ///
    /// `NotSolved` comes exactly where a position that has a normal form is mentioned in one or in a literal, and tells the first
    /// such place. `NoMemory`: out of memory.
    pub fn new(
        alloc: Global,
        p: &Pairing,
        defs: Vec<Option<Nf>>,
        conds: Vec<NLit>,
    ) -> Result<Fact, FactError>
        requires count { length defs.items ≡ length p.now }
        requires sorts { IsTrue (list_all (λ q. has_its_sort q.sort q.equation) (positions_with p.now defs.items)) }
        requires few { length conds.items ≤ most_literals }
        requires kept { IsTrue (list_all may_be_kept (map literal_in conds.items)) }
        requires equations { IsTrue (list_all (equation_within (is_position p.now)) defs.items) }
        requires literals { IsTrue (list_all (literal_within (is_position p.now)) (map literal_in conds.items)) }
        ensures solved { TellsSolved (fact_of p.now defs.items (map literal_in conds.items)) result }
        ensures pairing { IfOk result (λ f. IsFactOf p.now f) }
    {
        let shared = shared_equations(alloc, defs)?;
        Fact::of_shared(alloc, p, shared, conds)
    }

    /// The same, with the same refusals, of forms that may have other owners: no term is copied.
    #[tactic(auto, using(crate::proofs::Kept::parts))]
    pub fn of_shared(
        alloc: Global,
        p: &Pairing,
        defs: Vec<Option<SharedForm>>,
        conds: Vec<NLit>,
    ) -> Result<Fact, FactError>
        requires count { length defs.items ≡ length p.now }
        requires sorts { IsTrue (list_all (λ q. has_its_sort q.sort q.equation) (positions_with p.now defs.items)) }
        requires few { length conds.items ≤ most_literals }
        requires kept { IsTrue (list_all may_be_kept (map literal_in conds.items)) }
        requires equations { IsTrue (list_all (equation_within (is_position p.now)) defs.items) }
        requires literals { IsTrue (list_all (literal_within (is_position p.now)) (map literal_in conds.items)) }
        ensures solved { TellsSolved (fact_of p.now defs.items (map literal_in conds.items)) result }
        ensures pairing { IfOk result (λ f. IsFactOf p.now f) }
    {
        p.holds();
        let positions = with_equations(alloc, p.positions(), defs)?;
        let first = first_unsolved(alloc, positions.as_slice(), conds.as_slice())?;
        match first {
            Some(place) => Err(FactError::NotSolved { place }),
            None => Ok(Fact::of(positions, conds)),
        }
    }

    /// The fact of positions and literals of which all that a fact promises is known: they are not looked at.
    pub fn of(positions: Vec<FactPosition>, conds: Vec<NLit>) -> Fact
        requires { IsKept (record { positions = map position_in positions.items; literals = map literal_in conds.items }) }
        ensures { result ≡ record { positions = map position_in positions.items; literals = map literal_in conds.items } }
    {
        Fact { positions, conds }
    }

    /// What holds of each fact; nothing runs.
    pub fn holds(&self)
        ensures { IsFact self.now }
    {
        let _positions = &self.positions; // The read tells the proof what the type promises of its values.
    }

    /// The normal form of a position by its place among the positions. None where it is free, or where there is no such position.
    pub fn def(&self, place: u32) -> Option<&Nf>
        ensures { option_map (λ f. f.now) result ≡ equation_at place self.now.positions }
    {
        match self.positions.get(place as usize) {
            Some(position) => position.form(),
            None => None,
        }
    }

    /// The positions in the pairing's order, at most 384.
    pub fn positions(&self) -> &[FactPosition]
        ensures same { map position_in result.now ≡ self.now.positions }
        ensures few { length result.now ≤ most_sorted_positions }
    {
        self.positions.as_slice()
    }

    /// The literals.
    pub fn conds(&self) -> &[NLit]
        ensures same { map literal_in result.now ≡ self.now.literals }
        ensures few { length result.now ≤ most_literals }
    {
        self.conds.as_slice()
    }

    /// The vector: a free position has its own symbol, another its normal form. The one refusal is out of memory.
    pub fn vector(&self, alloc: Global) -> Result<Vector, NoMemory>
        ensures { IfOk result (λ v. v ≡ vector_of self.now.positions) }
    {
        vector_with(alloc, self.positions.as_slice())
    }

    /// 1, the sizes of the normal forms, and for each literal 1 and the size of its direction.
    #[tactic(auto, using(crate::proofs::Sizes::few_small))]
    pub fn size(&self) -> u64
        ensures { result ≡ size_of_fact self.now }
    {
        1 + size_of_equations(self.positions.as_slice()) + size_of_literals(self.conds.as_slice())
    }

    /// A copy, which shares the forms of the equations. The one refusal is out of memory.
    pub fn try_clone(&self, alloc: Global) -> Result<Fact, NoMemory>
        ensures { IfOk result (λ copy. copy ≡ self.now) }
    {
        Ok(Fact {
            positions: copied_positions(alloc, self.positions.as_slice())?,
            conds: copied_literals(alloc, self.conds.as_slice())?,
        })
    }
}

// The size of an equation.
fn size_of_equation(position: &FactPosition) -> u64
    ensures same { result ≡ equation_size (position_in position.now).equation }
    ensures small { result ≤ size_limit }
{
    match &position.equation {
        Some(shared) => shared.form().size(),
        None => 0,
    }
}

// The sizes of equations.
fn size_of_equations(positions: &[FactPosition]) -> u64
    requires { length positions.now ≤ most_sorted_positions }
    ensures same { result ≡ equations_size (map position_in positions.now) }
    ensures small { result ≤ most_sorted_positions * size_limit }
{
    let mut size = 0;
    for position in positions {
        size += size_of_equation(position);
    }
    size
}

// The sizes of literals.
fn size_of_literals(literals: &[NLit]) -> u64
    requires { literals_size (map literal_in literals.now) ≤ most_literals * (size_limit + 1) }
    ensures { result ≡ literals_size (map literal_in literals.now) }
{
    let mut size = 0;
    for literal in literals {
        size += literal.size();
    }
    size
}

/// The symbol of a position of a sort. The one refusal is out of memory.
pub fn own_symbol(alloc: Global, sort: Sort, p: Pos) -> Result<Nf, NoMemory>
    ensures { IfOk result (λ f. f ≡ symbol_of sort p) }
{
    match sort {
        Sort::Scalar => Ok(Nf::Num(Poly::symbol(alloc, p)?)),
        Sort::Array => Ok(Nf::Arr(Arr::bare(alloc, Base::Sym(p)))),
        Sort::Port => Ok(Nf::Seq(Seq::bare(alloc, SeqBase::Sym(p)))),
    }
}

// The form of a position: that of its equation, or its own symbol.
fn form_at(alloc: Global, position: &FactPosition) -> Result<SharedForm, NoMemory>
    ensures { IfOk result (λ f. f ≡ form_or_symbol position.now.sort position.now.pos (position_in position.now).equation) }
{
    match &position.equation {
        Some(form) => form.try_clone(),
        None => SharedForm::of(alloc, own_symbol(alloc, position.sort, position.pos)?),
    }
}

// The vector of positions that differ.
#[tactic(auto, using(crate::proofs::Vectors::put_last))]
fn vector_with(alloc: Global, positions: &[FactPosition]) -> Result<Vector, NoMemory>
    requires { IsTrue (are_distinct_positions (map (λ p. p.pos) (map position_in positions.now))) }
    ensures { IfOk result (λ v. v ≡ vector_of (map position_in positions.now)) }
{
    let mut v = Vector::with_capacity(alloc, positions.len())?;
    for position in positions {
        v.put_shared(position.pos, form_at(alloc, position)?)?;
    }
    Ok(v)
}

/// An equation with one owner more of its form. The one refusal is out of memory.
pub fn copied_equation(equation: &Option<SharedForm>) -> Result<Option<SharedForm>, NoMemory>
    ensures { IfOk result (λ copy. copy ≡ equation.now) }
{
    match equation {
        Some(form) => Ok(Some(form.try_clone()?)),
        None => Ok(None),
    }
}

// A copy of a position, which shares its form.
fn copied_position(position: &FactPosition) -> Result<FactPosition, NoMemory>
    ensures { IfOk result (λ copy. position_in copy ≡ position_in position.now) }
{
    Ok(FactPosition {
        pos: position.pos,
        sort: position.sort,
        equation: copied_equation(&position.equation)?,
    })
}

// A copy of positions.
fn copied_positions(
    alloc: Global,
    positions: &[FactPosition],
) -> Result<Vec<FactPosition>, NoMemory>
    ensures { IfOk result (λ out. map position_in out.items ≡ map position_in positions.now) }
{
    let mut out = Vec::new(alloc);
    for position in positions {
        out.push(copied_position(position)?)?;
    }
    Ok(out)
}

/// A copy of literals. The one refusal is out of memory.
pub fn copied_literals(alloc: Global, literals: &[NLit]) -> Result<Vec<NLit>, NoMemory>
    ensures { IfOk result (λ out. map literal_in out.items ≡ map literal_in literals.now) }
{
    let mut out = Vec::new(alloc);
    for literal in literals {
        out.push(literal.try_clone(alloc)?)?;
    }
    Ok(out)
}
