//! What arrives by paths.

ghost use Rattle.std.specs.Prelude.{[], map, option_map};
ghost use Rattle.fs_cut.specs.View.{path_of};
ghost use Rattle.nf_terms.specs.Computed.{Answers};
ghost use Rattle.nf_rel.specs.View.{literal_in};
ghost use Rattle.sym_paths.specs.Execution.{execute_if, arrive as arrived};
ghost use Rattle.sym_paths.specs.View.{answer_in_data, post_in};
ghost use Rattle.sym_facts.specs.Facts.{vector_of};

use fs_ast::machine::Machine;
use fs_cut::cover::Path;
use nf_rel::literals::NLit;
use nf_substitution::vector::Vector;
use nf_terms::stop::NfStop;
use nf_terms::tree::Side;
use std::alloc::Global;
use sym_facts::fact::{Fact, copied_literals};
use sym_paths::execution::{Post, advance};

// As `advance`, for a side that may stay.
fn advance_if(
    alloc: Global,
    m: &Machine,
    path: Option<&Path>,
    side: Side,
    v: &mut Vector,
) -> Result<Vec<NLit>, NfStop>
    ensures { Answers (answer_in_data (λ ls. record { conditions = map literal_in ls.items; vector = v.new }) result)
        (execute_if m.now (option_map (λ p. path_of p.now) path.entry) side v.old) }
{
    match path {
        Some(path) => advance(alloc, m, path, side, v),
        None => Ok(Vec::new(alloc)),
    }
}

// The conditions of the left path and then of the right one over a vector, which becomes the vector after both.
fn advance_both(
    alloc: Global,
    a: &Machine,
    b: &Machine,
    left: Option<&Path>,
    right: Option<&Path>,
    v: &mut Vector,
) -> Result<Vec<NLit>, NfStop>
    ensures { Answers (answer_in_data (λ ls. record { conditions = map literal_in ls.items; vector = v.new }) result)
        (arrived a.now b.now [] v.old (option_map (λ p. path_of p.now) left.entry)
        (option_map (λ p. path_of p.now) right.entry)) }
{
    let mut conds = advance_if(alloc, a, left, Side::Left, v)?;
    conds.append(&mut advance_if(alloc, b, right, Side::Right, v)?)?;
    Ok(conds)
}

/// What arrives where a fact holds and the left machine `a` takes one path and the right machine `b` another; a side without a
/// path stays. The conditions are the fact's, the left path's and the right path's.
///
/// `Wide` and `Large` come exactly at the first operation that is not narrow, or narrow and not small: those of the left path
/// come first, in the order of `execute`, and then those of the right one. `NoMemory`: out of memory.
pub fn arrive(
    alloc: Global,
    a: &Machine,
    b: &Machine,
    fact: &Fact,
    left: Option<&Path>,
    right: Option<&Path>,
) -> Result<Post, NfStop>
    ensures { Answers (answer_in_data post_in result)
        (arrived a.now b.now fact.now.literals (vector_of fact.now.positions) (option_map (λ p. path_of p.now) left.entry)
        (option_map (λ p. path_of p.now) right.entry)) }
{
    let mut vector = fact.vector(alloc)?;
    let mut conds = copied_literals(alloc, fact.conds())?;
    conds.append(&mut advance_both(alloc, a, b, left, right, &mut vector)?)?;
    Ok(Post { conds, vector })
}
