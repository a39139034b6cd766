//! Writing normal forms and literals.

ghost use Rattle.std.specs.Prelude.{◌≡◌, ◌≢◌, ◌++◌, OnOk};
ghost use Rattle.nf_rel.specs.Literals as literals;
ghost use Rattle.nf_rel.specs.View.{literal_in};
ghost use Rattle.term_text.specs.TermTexts.{symbol_text, polynomial_text, array_text, list_text};
ghost use Rattle.term_condition_text.specs.ConditionTexts.{condition_text, kind_text, integer_text};
ghost use Rattle.term_writer.specs.WrittenTerms.{polynomial_written, array_written, list_written, literal_written};
ghost use Rattle.term_writer.specs.WrittenTerms.{integer_written};
ghost use Rattle.term_writer.specs.Direct.{polynomial_direct, list_base_direct, items_direct};

use crate::literals::{put_integer, put_kind};
use crate::names::PositionNames;
use crate::numbers::{put, put_symbol};
use crate::terms::{put_array, put_polynomial};
use nf_rel::literals::{Bound, NLit};
use nf_terms::arr::Arr;
use nf_terms::poly::Poly;
use nf_terms::seq::Seq;
use nf_terms::stop::NoMemory;
use nf_terms::tree::{Pos, SeqBase};

/// Adds the side and the name of a position. The one refusal is out of memory.
pub fn write_symbol<N: PositionNames>(out: &mut Vec<u8>, names: &N, p: Pos) -> Result<(), NoMemory>
    ensures { OnOk result (out.new.items ≡ out.old.items ++ symbol_text p.side (N.name names.now p)) }
{
    put_symbol(out, p.side, names.name(p))
}

/// Adds the text of a polynomial. The one refusal is out of memory.
#[tactic(auto, using(crate::proofs::Directly::polynomial_same))]
pub fn write_poly<N: PositionNames>(
    out: &mut Vec<u8>,
    names: &N,
    polynomial: &Poly,
) -> Result<(), NoMemory>
    ensures { OnOk result
        (out.new.items ≡ out.old.items ++ polynomial_text (polynomial_written (N.name names.now) polynomial.now)) }
{
    put_polynomial(out, names, polynomial.tree())
}

/// Adds the text of an array. The one refusal is out of memory.
#[tactic(auto, using(crate::proofs::Directly::array_same))]
pub fn write_arr<N: PositionNames>(
    out: &mut Vec<u8>,
    names: &N,
    array: &Arr,
) -> Result<(), NoMemory>
    ensures { OnOk result (out.new.items ≡ out.old.items ++ array_text (array_written (N.name names.now) array.now)) }
{
    put_array(out, names, array.tree())
}

fn put_list_base<N: PositionNames>(
    out: &mut Vec<u8>,
    names: &N,
    base: SeqBase,
) -> Result<(), NoMemory>
    ensures { OnOk result (out.new.items ≡ out.old.items ++ list_base_direct (N.name names.now) base) }
{
    match base {
        SeqBase::Empty => put(out, b"none"),
        SeqBase::Sym(p) => write_symbol(out, names, p),
    }
}

fn put_items<N: PositionNames>(out: &mut Vec<u8>, names: &N, items: &[Poly]) -> Result<(), NoMemory>
    ensures { OnOk result (out.new.items ≡ out.old.items ++ items_direct (N.name names.now) items.now) }
{
    for item in items {
        put(out, b"{")?;
        put_polynomial(out, names, item.tree())?;
        put(out, b"}")?;
    }
    Ok(())
}

fn put_list<N: PositionNames>(
    out: &mut Vec<u8>,
    names: &N,
    base: SeqBase,
    items: &[Poly],
) -> Result<(), NoMemory>
    ensures { OnOk result
        (out.new.items ≡ out.old.items
        ++ (list_base_direct (N.name names.now) base ++ items_direct (N.name names.now) items.now)) }
{
    put_list_base(out, names, base)?;
    put_items(out, names, items)
}

/// Adds the text of a list. The one refusal is out of memory.
#[tactic(auto, using(crate::proofs::Directly::list_parts))]
pub fn write_seq<N: PositionNames>(out: &mut Vec<u8>, names: &N, list: &Seq) -> Result<(), NoMemory>
    ensures { OnOk result (out.new.items ≡ out.old.items ++ list_text (list_written (N.name names.now) list.now)) }
{
    put_list(out, names, list.base(), list.items())
}

// A direction against a bound.
fn put_bound<N: PositionNames>(out: &mut Vec<u8>, names: &N, bound: &Bound) -> Result<(), NoMemory>
    ensures { OnOk result
        (out.new.items ≡ out.old.items
        ++ (polynomial_direct (N.name names.now) bound.now.dir
        ++ (kind_text bound.now.kind ++ integer_text (integer_written bound.now.bound)))) }
{
    put_polynomial(out, names, bound.dir.tree())?;
    put_kind(out, bound.kind)?;
    put_integer(out, &bound.bound)
}

/// Adds the text of a literal, which is not true. The one refusal is out of memory.
#[tactic(auto, using(crate::proofs::Directly::literal_same))]
pub fn write_literal<N: PositionNames>(
    out: &mut Vec<u8>,
    names: &N,
    literal: &NLit,
) -> Result<(), NoMemory>
    requires { literal_in literal.now ≢ literals.True }
    ensures { OnOk result
        (out.new.items ≡ out.old.items ++ condition_text (literal_written (N.name names.now) (literal_in literal.now))) }
{
    match literal {
        NLit::True => unreachable!(),
        NLit::False => put(out, b"false"),
        NLit::Is(bound) => { put_bound(out, names, bound) }
    }
}
