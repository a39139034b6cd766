//! The texts of terms and of conditions.

ghost use Rattle.std.specs.Prelude.{◌≡◌, true, IfOk};
ghost use Rattle.nf_terms.specs.Forms.{sort_of_form};
ghost use Rattle.nf_rel.specs.View.{literal_in};
ghost use Rattle.sym_facts.specs.Facts.{may_be_kept};
ghost use Rattle.nf_terms.specs.declared.symbols.Sort.TheVariants as sorts;
ghost use Rattle.cert_terms.specs.TextFunctions.{meanings_by};
ghost use Rattle.cert_terms.specs.TextAnswers.{TellsText};
ghost use Rattle.cert_terms.specs.Within.{FormWithin, LiteralWithin};

use nf_rel::literals::NLit;
use nf_terms::form::Nf;
use nf_terms::symbols::Sort;
use std::alloc::Global;
use term_values::faults::TermError;
use term_values::literals::read_literal;
use term_values::names::Names;
use term_values::reader::{read_arr, read_poly, read_seq};

// The polynomial of a text as a form.
fn read_number<N: Names>(alloc: Global, names: &N, text: &[u8]) -> Result<Nf, TermError>
    ensures told { TellsText (λ f. f) result ((meanings_by (N.find names.now)).term sorts.Scalar text.now) }
    ensures sort { IfOk result (λ f. sort_of_form f ≡ sorts.Scalar) }
    ensures within { IfOk result (FormWithin (N.find names.now)) }
{
    Ok(Nf::Num(read_poly(alloc, names, text)?))
}

// The array of a text as a form.
fn read_array<N: Names>(alloc: Global, names: &N, text: &[u8]) -> Result<Nf, TermError>
    ensures told { TellsText (λ f. f) result ((meanings_by (N.find names.now)).term sorts.Array text.now) }
    ensures sort { IfOk result (λ f. sort_of_form f ≡ sorts.Array) }
    ensures within { IfOk result (FormWithin (N.find names.now)) }
{
    Ok(Nf::Arr(read_arr(alloc, names, text)?))
}

// The list of a text as a form.
fn read_list<N: Names>(alloc: Global, names: &N, text: &[u8]) -> Result<Nf, TermError>
    ensures told { TellsText (λ f. f) result ((meanings_by (N.find names.now)).term sorts.List text.now) }
    ensures sort { IfOk result (λ f. sort_of_form f ≡ sorts.List) }
    ensures within { IfOk result (FormWithin (N.find names.now)) }
{
    Ok(Nf::Seq(read_seq(alloc, names, text)?))
}

/// The term of a sort that a text stands for, or why it is refused.
pub fn term_of<N: Names>(alloc: Global, names: &N, sort: Sort, text: &[u8]) -> Result<Nf, TermError>
    ensures told { TellsText (λ f. f) result ((meanings_by (N.find names.now)).term sort text.now) }
    ensures sort { IfOk result (λ f. sort_of_form f ≡ sort) }
    ensures within { IfOk result (FormWithin (N.find names.now)) }
{
    match sort {
        Sort::Scalar => read_number(alloc, names, text),
        Sort::Array => read_array(alloc, names, text),
        Sort::List => read_list(alloc, names, text),
    }
}

/// The literal that a text stands for, or why it is refused.
pub fn condition_of<N: Names>(alloc: Global, names: &N, text: &[u8]) -> Result<NLit, TermError>
    ensures told { TellsText literal_in result ((meanings_by (N.find names.now)).condition text.now) }
    ensures kept { IfOk result (λ l. may_be_kept (literal_in l) ≡ true) }
    ensures within { IfOk result (λ l. LiteralWithin (N.find names.now) (literal_in l)) }
{
    read_literal(alloc, names, text)
}
