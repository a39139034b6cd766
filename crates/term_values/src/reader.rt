//! From the text of a term to its normal form.

ghost use Rattle.std.specs.Prelude.{ℕ, List, map, IfOk, IfErr};
ghost use Rattle.nf_terms.specs.declared.symbols.Sort.TheVariants as sort;
ghost use Rattle.nf_rel.specs.NormalLiterals.{is_normal};
ghost use Rattle.term_text.specs.SpellableTerms.{SpellsTermText};
ghost use Rattle.term_text.specs.TermTexts.{array, list};
ghost use Rattle.term_text.specs.View as text;
ghost use Rattle.term_values.specs.TermValues.{within_limit, polynomial_value};
ghost use Rattle.term_values.specs.TermFaults.{are_normal, IsJudgedText, IsJudgedAs};
ghost use Rattle.term_values.specs.TermFaults.{IsPolynomialOf, ReadsAsArray, ReadsAsList, IsRefusedAsTerm};

use crate::faults::{TermError, WrittenTerm, fault};
use crate::names::Names;
use crate::sums::long_sum_refusal;
use crate::trees::{array_tree, list_base_tree, polynomial_tree};
use nf_terms::arr::Arr;
use nf_terms::poly::Poly;
use nf_terms::seq::Seq;
use std::alloc::Global;
use term_condition_text::whole_terms::{read_array, read_list, read_polynomial};
use term_text::tree::{WrittenArray, WrittenList, WrittenPolynomial};

/// The polynomial that a written one stands for, where it is normal; `NotNormal` exactly where it isn't.
#[tactic(auto, using(crate::proofs::Normal::polynomial_judged, crate::proofs::Normal::no_polynomial))]
pub(crate) fn normal_polynomial<N: Names>(
    alloc: Global,
    names: &N,
    written: &WrittenPolynomial<'_>,
) -> Result<Poly, TermError>
    ensures { IsJudgedText result
        (is_normal (polynomial_value (within_limit (N.find names.now)) (text.written_polynomial_in written.now)))
        (polynomial_value (within_limit (N.find names.now)) (text.written_polynomial_in written.now)) }
{
    let tree = polynomial_tree(alloc, names, written)?;
    match Poly::of(tree) {
        Some(polynomial) => {
            let _ = polynomial.tree(); // The call tells the proof that the polynomial is normal.
            Ok(polynomial)
        }
        None => Err(TermError::NotNormal),
    }
}

// The array that a written one stands for, where it has no fault.
fn normal_array<N: Names>(
    alloc: Global,
    names: &N,
    written: &WrittenArray<'_>,
) -> Result<Arr, TermError>
    ensures read { (bytes : List ℕ) → SpellsTermText bytes (array (text.written_array_in written.now))
        → IfOk result (λ a. ReadsAsArray (N.find names.now) bytes a) }
    ensures refused { (bytes : List ℕ) → SpellsTermText bytes (array (text.written_array_in written.now))
        → IfErr result (λ e. IsRefusedAsTerm (N.find names.now) sort.Array bytes e) }
{
    if let Some(fault) = fault(names, WrittenTerm::Array(written)) {
        return Err(fault);
    }
    let tree = array_tree(alloc, names, written)?;
    match Arr::of(tree) {
        Some(array) => {
            let _ = array.tree(); // The call tells the proof that the array is normal.
            Ok(array)
        }
        None => Err(TermError::NotNormal),
    }
}

// The items that written ones stand for, where each is normal.
fn normal_items<N: Names>(
    alloc: Global,
    names: &N,
    written: &[WrittenPolynomial<'_>],
) -> Result<Vec<Poly>, TermError>
    ensures { IsJudgedAs (λ v. v.items) result
        (are_normal (map (polynomial_value (within_limit (N.find names.now))) (map text.written_polynomial_in written.now)))
        (map (polynomial_value (within_limit (N.find names.now))) (map text.written_polynomial_in written.now)) }
{
    let mut items = Vec::new(alloc);
    for item in written {
        items.push(normal_polynomial(alloc, names, item)?)?;
    }
    Ok(items)
}

// The list that a written one stands for, where it has no fault.
fn normal_list<N: Names>(
    alloc: Global,
    names: &N,
    written: &WrittenList<'_>,
) -> Result<Seq, TermError>
    ensures read { (bytes : List ℕ) → SpellsTermText bytes (list (text.written_list_in written.now))
        → IfOk result (λ l. ReadsAsList (N.find names.now) bytes l) }
    ensures refused { (bytes : List ℕ) → SpellsTermText bytes (list (text.written_list_in written.now))
        → IfErr result (λ e. IsRefusedAsTerm (N.find names.now) sort.List bytes e) }
{
    if let Some(fault) = fault(names, WrittenTerm::List(written)) {
        return Err(fault);
    }
    let items = normal_items(alloc, names, &written.items)?;
    let base = list_base_tree(names, &written.base);
    match Seq::of(base, items) {
        Some(list) => {
            let _ = list.items(); // The call tells the proof that the list is normal.
            Ok(list)
        }
        None => Err(TermError::NotNormal),
    }
}

// The polynomial that a text stands for, by a tree of the whole text.
fn read_poly_whole<N: Names>(alloc: Global, names: &N, bytes: &[u8]) -> Result<Poly, TermError>
    ensures read { IfOk result (λ p. IsPolynomialOf (N.find names.now) bytes.now p) }
    ensures refused { IfErr result (λ e. IsRefusedAsTerm (N.find names.now) sort.Scalar bytes.now e) }
{
    let written = read_polynomial(alloc, bytes)?;
    if let Some(fault) = fault(names, WrittenTerm::Polynomial(&written)) {
        return Err(fault);
    }
    normal_polynomial(alloc, names, &written)
}

/// The polynomial that a text stands for, in time linear in the text but for the look-ups of names.
///
/// The first of these is refused: `BadTerm` where the bytes spell no polynomial or more than 64 brackets are open at once;
/// `NumberTooBig` where a number is above 2^127 - 1; `UnknownName` where a name stands for no position; `SortOf` where a
/// name stands for a position of another sort than the one that is needed; `NotNormal` where a 1 is written before an
/// atom, or the polynomial is not normal or past a limit. `NoMemory` may come at any time.
pub fn read_poly<N: Names>(alloc: Global, names: &N, bytes: &[u8]) -> Result<Poly, TermError>
    ensures read { IfOk result (λ p. IsPolynomialOf (N.find names.now) bytes.now p) }
    ensures refused { IfErr result (λ e. IsRefusedAsTerm (N.find names.now) sort.Scalar bytes.now e) }
{
    if let Some(refusal) = long_sum_refusal(alloc, names, bytes) {
        return Err(refusal);
    }
    read_poly_whole(alloc, names, bytes)
}

/// The array that a text stands for, in time linear in the text but for the look-ups of names.
///
/// What is refused is as for `read_poly`, of arrays.
pub fn read_arr<N: Names>(alloc: Global, names: &N, bytes: &[u8]) -> Result<Arr, TermError>
    ensures read { IfOk result (λ a. ReadsAsArray (N.find names.now) bytes.now a) }
    ensures refused { IfErr result (λ e. IsRefusedAsTerm (N.find names.now) sort.Array bytes.now e) }
{
    let written = read_array(alloc, bytes)?;
    normal_array(alloc, names, &written)
}

/// The list that a text stands for, in time linear in the text but for the look-ups of names.
///
/// What is refused is as for `read_poly`, of lists.
pub fn read_seq<N: Names>(alloc: Global, names: &N, bytes: &[u8]) -> Result<Seq, TermError>
    ensures read { IfOk result (λ l. ReadsAsList (N.find names.now) bytes.now l) }
    ensures refused { IfErr result (λ e. IsRefusedAsTerm (N.find names.now) sort.List bytes.now e) }
{
    let written = read_list(alloc, bytes)?;
    normal_list(alloc, names, &written)
}
