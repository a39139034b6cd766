//! The conditions that a rebased fact keeps.

ghost use Rattle.std.specs.Prelude.{◌≡◌, map, IfOk, OnOk, IsTrue, true};
ghost use Rattle.std.specs.List.{list_all};
ghost use Rattle.nf_terms.specs.Computed.{Answers};
ghost use Rattle.nf_rel.specs.View.{literal_in};
ghost use Rattle.sym_paths.specs.View.{answer_in_data};
ghost use Rattle.sym_facts.specs.Facts.{may_be_kept};
ghost use Rattle.propagate_equations.specs.Equations.{is_needless};
ghost use Rattle.propagate_equations.specs.EquationSteps.{with_condition, conditions_kept};

use crate::held_symbols::literal_held;
use nf_rel::copies::is_same;
use nf_rel::literals::NLit;
use nf_substitution::subst::Subst;
use nf_substitution::vector::Vector;
use nf_terms::stop::NfStop;
use std::alloc::Global;
use sym_facts::entailment::substitute_literal;

// How many literals a fact has at most.
const MOST_LITERALS: usize = 64;

// Whether a literal is true, or is one of these.
fn is_needless(before: &[NLit], literal: &NLit) -> bool
    ensures { result ≡ is_needless (map literal_in before.now) (literal_in literal.now) }
{
    if is_same(literal, &NLit::True) {
        return true;
    }
    for other in before {
        if is_same(literal, other) {
            return true;
        }
    }
    false
}

// Adds a condition over the new meanings, where all its symbols are held and it is needed.
fn add_condition(
    alloc: Global,
    s: &mut Subst<'_>,
    meanings: &Vector,
    condition: &NLit,
    out: &mut Vec<NLit>,
) -> Result<(), NfStop>
    requires vector { s.old.vector ≡ meanings.now }
    requires kept { list_all may_be_kept (map literal_in out.old.items) ≡ true }
    ensures answers { Answers (answer_in_data (λ _. map literal_in out.new.items) result)
        (with_condition meanings.now (literal_in condition.now) (map literal_in out.old.items)) }
    ensures kept { OnOk result (list_all may_be_kept (map literal_in out.new.items) ≡ true) }
    ensures vector { s.new.vector ≡ s.old.vector }
{
    if !literal_held(alloc, meanings, condition)? {
        return Ok(());
    }
    let over = substitute_literal(alloc, s, condition)?;
    if is_needless(out.as_slice(), &over) {
        return Ok(());
    }
    out.push(over)?;
    Ok(())
}

/// The first 64 conditions whose symbols are all held, over the new meanings, without those that are true and without repeats.
///
/// `Wide` and `Large` come exactly at the first operation that is not narrow, or narrow and not small. `NoMemory`: out of memory.
pub fn conditions_kept(
    alloc: Global,
    s: &mut Subst<'_>,
    meanings: &Vector,
    conditions: &[NLit],
) -> Result<Vec<NLit>, NfStop>
    requires { s.old.vector ≡ meanings.now }
    ensures answers { Answers (answer_in_data (λ ls. map literal_in ls.items) result)
        (conditions_kept meanings.now (map literal_in conditions.now)) }
    ensures kept { IfOk result (λ ls. IsTrue (list_all may_be_kept (map literal_in ls.items))) }
{
    let mut out = Vec::new(alloc);
    for condition in conditions {
        add_condition(alloc, s, meanings, condition, &mut out)?;
    }
    out.truncate(MOST_LITERALS);
    Ok(out)
}
