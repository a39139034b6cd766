//! Writing trees of terms.

ghost use Rattle.std.specs.Prelude.{◌≡◌, ◌++◌, map, OnOk};
ghost use Rattle.nf_trees.specs.NormalTerms.{Symbol, monomial_of, polynomial_of};
ghost use Rattle.nf_trees.specs.View.{atom_in, monomial_in, polynomial_in, array_in, term_in};
ghost use Rattle.term_writer.specs.Direct.{base_direct, atom_direct, head_direct, monomial_direct, has_no_terms};
ghost use Rattle.term_writer.specs.Direct.{polynomial_direct, array_direct};

use crate::names::PositionNames;
use crate::numbers::{put, put_factor, put_number, put_separator, put_sign, put_symbol};
use nf_terms::stop::NoMemory;
use nf_trees::tree::{ArrTree, Atom, Base, MonoTree, PolyTree, Pos};

fn put_position<N: PositionNames>(out: &mut Vec<u8>, names: &N, p: Pos) -> Result<(), NoMemory>
    ensures { OnOk result (out.new.items ≡ out.old.items ++ atom_direct (N.name names.now) (Symbol p)) }
{
    put_symbol(out, p.side, names.name(p))
}

#[cycle(writer)]
fn put_atom<N: PositionNames>(out: &mut Vec<u8>, names: &N, atom: &Atom) -> Result<(), NoMemory>
    ensures { OnOk result (out.new.items ≡ out.old.items ++ atom_direct (N.name names.now) (atom_in atom.now)) }
{
    match atom {
        Atom::Sym(p) => put_position(out, names, *p),
        Atom::Read(array, index) => {
            put_array(out, names, array)?;
            put(out, b"[")?;
            put_polynomial(out, names, index)?;
            put(out, b"]")
        }
        Atom::Div(left, right) => {
            put(out, b"div(")?;
            put_polynomial(out, names, left)?;
            put(out, b", ")?;
            put_polynomial(out, names, right)?;
            put(out, b")")
        }
        Atom::Rem(left, right) => {
            put(out, b"rem(")?;
            put_polynomial(out, names, left)?;
            put(out, b", ")?;
            put_polynomial(out, names, right)?;
            put(out, b")")
        }
    }
}

// What a monomial begins with.
#[tactic(auto, using(crate::proofs::Integers::head_is))]
fn put_head(out: &mut Vec<u8>, number: u128, atoms: &[Atom]) -> Result<(), NoMemory>
    ensures { OnOk result (out.new.items ≡ out.old.items ++ head_direct number (monomial_of (map atom_in atoms.now))) }
{
    match atoms {
        [] => put_number(out, number),
        [_, ..] => put_factor(out, number),
    }
}

// A monomial and the absolute value of its coefficient.
#[cycle(writer)]
fn put_monomial<N: PositionNames>(
    out: &mut Vec<u8>,
    names: &N,
    number: u128,
    mono: &MonoTree,
) -> Result<(), NoMemory>
    ensures { OnOk result (out.new.items ≡ out.old.items ++ monomial_direct (N.name names.now) number (monomial_in mono.now)) }
{
    put_head(out, number, &mono.atoms)?;
    let mut is_first = true;
    for atom in &mono.atoms {
        put_separator(out, is_first)?;
        put_atom(out, names, atom)?;
        is_first = false;
    }
    Ok(())
}

#[tactic(auto, using(crate::proofs::Integers::is_some))]
fn has_no_terms(monos: &[(MonoTree, i128)]) -> bool
    ensures { result ≡ has_no_terms (polynomial_of (map term_in monos.now)) }
{
    match monos {
        [] => true,
        [_, ..] => false,
    }
}

/// Adds a polynomial. The one refusal is out of memory.
#[cycle(writer)]
#[tactic(auto, using(crate::proofs::Integers::no_terms, crate::proofs::Integers::some_terms))]
pub fn put_polynomial<N: PositionNames>(
    out: &mut Vec<u8>,
    names: &N,
    polynomial: &PolyTree,
) -> Result<(), NoMemory>
    ensures { OnOk result (out.new.items ≡ out.old.items ++ polynomial_direct (N.name names.now) (polynomial_in polynomial.now)) }
{
    if has_no_terms(&polynomial.monos) {
        return put(out, b"0");
    }
    let mut is_first = true;
    for (mono, coefficient) in &polynomial.monos {
        put_sign(out, is_first, coefficient)?;
        put_monomial(out, names, coefficient.unsigned_abs(), mono)?;
        is_first = false;
    }
    Ok(())
}

fn put_base<N: PositionNames>(out: &mut Vec<u8>, names: &N, base: &Base) -> Result<(), NoMemory>
    ensures { OnOk result (out.new.items ≡ out.old.items ++ base_direct (N.name names.now) base.now) }
{
    match base {
        Base::Zero => put(out, b"zero"),
        Base::Sym(p) => put_position(out, names, *p),
    }
}

/// Adds an array. The one refusal is out of memory.
#[cycle(writer)]
pub fn put_array<N: PositionNames>(
    out: &mut Vec<u8>,
    names: &N,
    array: &ArrTree,
) -> Result<(), NoMemory>
    ensures { OnOk result (out.new.items ≡ out.old.items ++ array_direct (N.name names.now) (array_in array.now)) }
{
    put_base(out, names, &array.base)?;
    for (index, value) in &array.writes {
        put(out, b"{")?;
        put_polynomial(out, names, index)?;
        put(out, b": ")?;
        put_polynomial(out, names, value)?;
        put(out, b"}")?;
    }
    Ok(())
}
