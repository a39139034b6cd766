//! Reading the whole text of a term.

ghost use Rattle.std.specs.Prelude.{◌≡◌, map, IfOk};
ghost use Rattle.term_text.specs.Machine.{TermMadeAs, IsRead, Goes, EndsWrites, term_reading, expect, in_array, in_list};
ghost use Rattle.term_text.specs.Machine.{whole_polynomial};
ghost use Rattle.term_text.specs.Machine.{whole_array, at_polynomial, at_array, at_list, at_symbol, after_array, after_list};
ghost use Rattle.term_text.specs.TermTexts.{Polynomial, ArrayTerm, ListSyntax, Pushed, polynomial, array, list};
ghost use Rattle.term_text.specs.SpellableTerms.{SpellsTermText};
ghost use Rattle.term_text.specs.View.{written_polynomial_in, written_array_in, written_list_in, base_in, list_base_in};
ghost use Rattle.term_text.specs.View.{pushed_all};

use crate::brackets::is_shallow;
use nf_terms::tree::Side;
use std::alloc::Global;
use term_text::fault::ReadError;
use term_text::scan::{expect, expect_three, word};
use term_text::signs::rest_after;
use term_text::terms::{polynomial, value_in_braces, writes};
use term_text::tree::{WrittenArray, WrittenBase, WrittenList, WrittenListBase, WrittenPolynomial};

// The polynomial that all bytes are read as.
fn whole_polynomial<'a>(alloc: Global, bytes: &'a [u8]) -> Result<WrittenPolynomial<'a>, ReadError>
    ensures { IsRead (at_polynomial whole_polynomial) (λ t. polynomial (written_polynomial_in t)) result bytes.now }
{
    let (made, rest) = polynomial(alloc, bytes)?;
    match rest {
        [] => Ok(made),
        [_, ..] => Err(ReadError::BadTerm),
    }
}

// The symbol that an array begins with, after the letter of its side.
#[tactic(auto, using(term_text::proofs::Steps::array_base))]
fn symbol_base<'a>(side: Side, bytes: &'a [u8]) -> Result<(WrittenBase<'a>, &'a [u8]), ReadError>
    ensures { Goes result (term_reading bytes.now (expect 46 (at_symbol side in_array)))
        (λ x. term_reading x.1.now (after_array (base_in x.0) whole_array)) }
{
    let (name, rest) = word(expect(bytes, b'.')?)?;
    Ok((WrittenBase::Symbol(side, name), rest))
}

// What an array begins with, and what follows it.
fn array_base<'a>(bytes: &'a [u8]) -> Result<(WrittenBase<'a>, &'a [u8]), ReadError>
    ensures { Goes result (term_reading bytes.now at_array) (λ x. term_reading x.1.now (after_array (base_in x.0) whole_array)) }
{
    match bytes {
        [b'L', rest @ ..] => symbol_base(Side::Left, rest),
        [b'R', rest @ ..] => symbol_base(Side::Right, rest),
        [b'z', rest @ ..] => Ok((WrittenBase::Zero, expect_three(rest, b'e', b'r', b'o')?)),
        _ => Err(ReadError::BadTerm),
    }
}

// The array that all bytes are read as.
#[tactic(auto, using(term_text::proofs::Steps::array_not_ended))]
fn whole_array<'a>(alloc: Global, bytes: &'a [u8]) -> Result<WrittenArray<'a>, ReadError>
    ensures { IsRead at_array (λ t. array (written_array_in t)) result bytes.now }
{
    let (base, rest) = array_base(bytes)?;
    let (made, rest) = writes(alloc, base, rest)?;
    match rest {
        [] => Ok(made),
        [_, ..] => Err(ReadError::BadTerm),
    }
}

// The symbol that a list begins with, after the letter of its side.
#[tactic(auto, using(term_text::proofs::Steps::list_base))]
fn symbol_list_base<'a>(
    side: Side,
    bytes: &'a [u8],
) -> Result<(WrittenListBase<'a>, &'a [u8]), ReadError>
    ensures { Goes result (term_reading bytes.now (expect 46 (at_symbol side in_list)))
        (λ x. term_reading x.1.now (after_list (list_base_in x.0))) }
{
    let (name, rest) = word(expect(bytes, b'.')?)?;
    Ok((WrittenListBase::Symbol(side, name), rest))
}

// What a list begins with, and what follows it.
fn list_base<'a>(bytes: &'a [u8]) -> Result<(WrittenListBase<'a>, &'a [u8]), ReadError>
    ensures { Goes result (term_reading bytes.now at_list) (λ x. term_reading x.1.now (after_list (list_base_in x.0))) }
{
    match bytes {
        [b'L', rest @ ..] => symbol_list_base(Side::Left, rest),
        [b'R', rest @ ..] => symbol_list_base(Side::Right, rest),
        [b'n', rest @ ..] => Ok((
            WrittenListBase::Empty,
            expect_three(rest, b'o', b'n', b'e')?,
        )),
        _ => Err(ReadError::BadTerm),
    }
}

// The list that nothing follows.
#[tactic(auto, using(term_text::proofs::Steps::list_not_ended))]
fn finish_list<'a>(
    base: WrittenListBase<'a>,
    items: Vec<WrittenPolynomial<'a>>,
    bytes: &'a [u8],
) -> Result<WrittenList<'a>, ReadError>
    requires { EndsWrites bytes.now }
    ensures { IsRead (after_list (pushed_all (list_base_in base.entry) (map written_polynomial_in items.entry.items)))
        (λ t. list (written_list_in t)) result bytes.now }
{
    match bytes {
        [] => Ok(WrittenList { base, items }),
        [_, ..] => Err(ReadError::BadTerm),
    }
}

// Adds an item to a list. The one refusal is out of memory.
#[tactic(auto, using(term_text::proofs::Steps::item_more))]
fn push_item<'a>(
    items: &mut Vec<WrittenPolynomial<'a>>,
    next: WrittenPolynomial<'a>,
) -> Result<(), ReadError>
    ensures { TermMadeAs result
        (λ _. (l : ListSyntax) → pushed_all l (map written_polynomial_in items.new.items)
        ≡ Pushed (pushed_all l (map written_polynomial_in items.old.items)) (written_polynomial_in next.entry)) }
{
    Ok(items.push(next)?)
}

// The list of a base and of items up to the end.
fn items<'a>(
    alloc: Global,
    base: WrittenListBase<'a>,
    bytes: &'a [u8],
) -> Result<WrittenList<'a>, ReadError>
    ensures { IsRead (after_list (list_base_in base.entry)) (λ t. list (written_list_in t)) result bytes.now }
{
    let mut items = Vec::new(alloc);
    let mut rest = bytes;
    loop {
        match rest_after(rest, b'{') {
            Some(after) => {
                let (item, after) = value_in_braces(alloc, after)?;
                push_item(&mut items, item)?;
                rest = after;
            }
            None => return finish_list(base, items, rest),
        }
    }
}

// The list that all bytes are read as.
fn whole_list<'a>(alloc: Global, bytes: &'a [u8]) -> Result<WrittenList<'a>, ReadError>
    ensures { IsRead at_list (λ t. list (written_list_in t)) result bytes.now }
{
    let (base, rest) = list_base(bytes)?;
    items(alloc, base, rest)
}

/// The polynomial that bytes spell, in time linear in the bytes.
///
/// `BadTerm` comes exactly where they spell none, or more than 64 brackets are open at once. `NoMemory` may come at any time.
pub fn read_polynomial<'a>(
    alloc: Global,
    bytes: &'a [u8],
) -> Result<WrittenPolynomial<'a>, ReadError>
    ensures found { IfOk result (λ t. SpellsTermText bytes.now (polynomial (written_polynomial_in t))) }
    ensures only { (p : Polynomial) → SpellsTermText bytes.now (polynomial p)
        → TermMadeAs result (λ t. written_polynomial_in t ≡ p) }
{
    if !is_shallow(bytes) {
        return Err(ReadError::BadTerm);
    }
    whole_polynomial(alloc, bytes)
}

/// The array that bytes spell, in time linear in the bytes.
///
/// `BadTerm` comes exactly where they spell none, or more than 64 brackets are open at once. `NoMemory` may come at any time.
pub fn read_array<'a>(alloc: Global, bytes: &'a [u8]) -> Result<WrittenArray<'a>, ReadError>
    ensures found { IfOk result (λ t. SpellsTermText bytes.now (array (written_array_in t))) }
    ensures only { (a : ArrayTerm) → SpellsTermText bytes.now (array a) → TermMadeAs result (λ t. written_array_in t ≡ a) }
{
    if !is_shallow(bytes) {
        return Err(ReadError::BadTerm);
    }
    whole_array(alloc, bytes)
}

/// The list that bytes spell, in time linear in the bytes.
///
/// `BadTerm` comes exactly where they spell none, or more than 64 brackets are open at once. `NoMemory` may come at any time.
pub fn read_list<'a>(alloc: Global, bytes: &'a [u8]) -> Result<WrittenList<'a>, ReadError>
    ensures found { IfOk result (λ t. SpellsTermText bytes.now (list (written_list_in t))) }
    ensures only { (l : ListSyntax) → SpellsTermText bytes.now (list l) → TermMadeAs result (λ t. written_list_in t ≡ l) }
{
    if !is_shallow(bytes) {
        return Err(ReadError::BadTerm);
    }
    whole_list(alloc, bytes)
}
