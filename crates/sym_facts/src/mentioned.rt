//! The positions that terms mention.

ghost use Rattle.std.specs.Prelude.{◌≡◌};
ghost use Rattle.nf_trees.specs.View.{atom_in, monomial_in, polynomial_in, array_in};
ghost use Rattle.nf_terms.specs.Symbols.{symbols_of_base, symbols_of_atom, symbols_of_monomial, symbols_of, symbols_of_array};
ghost use Rattle.nf_terms.specs.Symbols.{symbols_of_list_base, symbols_of_items, symbols_of_list, symbols_of_form};
ghost use Rattle.sym_facts.specs.PositionSets.{with_symbols};
ghost use Rattle.sym_facts.specs.View.{set_in};

use crate::position_set::PositionSet;
use nf_terms::form::Nf;
use nf_terms::poly::Poly;
use nf_terms::seq::Seq;
use nf_terms::tree::SeqBase;
use nf_trees::tree::{ArrTree, Atom, Base, MonoTree, PolyTree};

// Adds the position of a base, if it has one.
fn add_base(mentioned: &mut PositionSet, base: &Base)
    ensures { set_in mentioned.new ≡ with_symbols (set_in mentioned.old) (symbols_of_base base.now) }
{
    match base {
        Base::Zero => {}
        Base::Sym(p) => mentioned.insert(*p),
    }
}

// Adds the positions that an atom mentions.
#[cycle(mentioned)]
#[tactic(auto, using(crate::proofs::MentionedPositions::joined, std::proofs::lemmas::Grind::common_steps))]
fn add_atom(mentioned: &mut PositionSet, atom: &Atom)
    ensures { set_in mentioned.new ≡ with_symbols (set_in mentioned.old) (symbols_of_atom (atom_in atom.now)) }
{
    match atom {
        Atom::Sym(p) => mentioned.insert(*p),
        Atom::Read(array, index) => {
            add_arr(mentioned, array);
            add_poly(mentioned, index);
        }
        Atom::Div(left, right) | Atom::Rem(left, right) => {
            add_poly(mentioned, left);
            add_poly(mentioned, right);
        }
    }
}

// Adds the positions that a monomial mentions.
#[cycle(mentioned)]
#[tactic(auto, using(crate::proofs::MentionedPositions::joined, std::proofs::lemmas::Grind::common_steps))]
fn add_mono(mentioned: &mut PositionSet, mono: &MonoTree)
    ensures { set_in mentioned.new ≡ with_symbols (set_in mentioned.old) (symbols_of_monomial (monomial_in mono.now)) }
{
    for atom in &mono.atoms {
        add_atom(mentioned, atom);
    }
}

// Adds the positions that a polynomial mentions.
#[cycle(mentioned)]
#[tactic(auto, using(crate::proofs::MentionedPositions::joined, std::proofs::lemmas::Grind::common_steps))]
fn add_poly(mentioned: &mut PositionSet, poly: &PolyTree)
    ensures { set_in mentioned.new ≡ with_symbols (set_in mentioned.old) (symbols_of (polynomial_in poly.now)) }
{
    for (mono, _coefficient) in &poly.monos {
        add_mono(mentioned, mono);
    }
}

// Adds the positions that an array mentions.
#[cycle(mentioned)]
#[tactic(auto, using(crate::proofs::MentionedPositions::joined, std::proofs::lemmas::Grind::common_steps))]
fn add_arr(mentioned: &mut PositionSet, arr: &ArrTree)
    ensures { set_in mentioned.new ≡ with_symbols (set_in mentioned.old) (symbols_of_array (array_in arr.now)) }
{
    add_base(mentioned, &arr.base);
    for (index, value) in &arr.writes {
        add_poly(mentioned, index);
        add_poly(mentioned, value);
    }
}

/// Adds the positions that a number mentions.
pub fn add_number(mentioned: &mut PositionSet, number: &Poly)
    ensures { set_in mentioned.new ≡ with_symbols (set_in mentioned.old) (symbols_of number.now) }
{
    add_poly(mentioned, number.tree());
}

// Adds the position of a list's base, if it has one.
fn add_list_base(mentioned: &mut PositionSet, base: SeqBase)
    ensures { set_in mentioned.new ≡ with_symbols (set_in mentioned.old) (symbols_of_list_base base) }
{
    match base {
        SeqBase::Empty => {}
        SeqBase::Sym(p) => mentioned.insert(p),
    }
}

// Adds the positions that items mention.
#[tactic(auto, using(crate::proofs::MentionedPositions::joined, std::proofs::lemmas::Grind::common_steps))]
fn add_items(mentioned: &mut PositionSet, items: &[Poly])
    ensures { set_in mentioned.new ≡ with_symbols (set_in mentioned.old) (symbols_of_items items.now) }
{
    for item in items {
        add_number(mentioned, item);
    }
}

// Adds the positions that a list mentions.
#[tactic(auto, using(crate::proofs::MentionedPositions::joined))]
fn add_list(mentioned: &mut PositionSet, list: &Seq)
    ensures { set_in mentioned.new ≡ with_symbols (set_in mentioned.old) (symbols_of_list list.now) }
{
    add_list_base(mentioned, list.base());
    add_items(mentioned, list.items());
}

/// Adds the positions that a form mentions.
pub fn add_form(mentioned: &mut PositionSet, form: &Nf)
    ensures { set_in mentioned.new ≡ with_symbols (set_in mentioned.old) (symbols_of_form form.now) }
{
    match form {
        Nf::Num(number) => add_number(mentioned, number),
        Nf::Arr(array) => add_arr(mentioned, array.tree()),
        Nf::Seq(list) => add_list(mentioned, list),
    }
}
