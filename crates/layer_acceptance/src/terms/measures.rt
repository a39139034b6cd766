//! Sizes, depths and weights.

use crate::terms::forms::written_form;
use crate::terms::rows::number;
use nf_terms::form::Nf;
use std::alloc::Global;

// The weight of a sum, and 0 of other forms.
fn weight(form: &Nf) -> u128 {
    match form {
        Nf::Num(sum) => sum.weight(),
        Nf::Arr(_) | Nf::Seq(_) => 0,
    }
}

// Whether a form has the size, the depth and the weight of a text.
fn has(form: &Nf, text: &str) -> bool {
    let (size, rest) = text.split_once(',').unwrap_or((text, ""));
    let (depth, last) = rest.split_once(',').unwrap_or((rest, ""));
    number(size) == form.size() as u128
        && number(depth) == form.depth() as u128
        && number(last) == weight(form)
}

/// Whether the form of a row has its size, its depth and its weight.
pub fn has_measures(alloc: Global, row: &str) -> bool {
    let (text, cells) = row.split_once(':').unwrap_or((row, ""));
    match written_form(alloc, text) {
        Ok(form) => has(&form, cells),
        Err(_) => false,
    }
}

/// A text: its size, its depth, its weight.
pub static TABLES: &str = "measures:
0: 0, 0, 0
7: 1, 0, 7
a: 2, 0, 1
a b *: 3, 0, 1
a b +: 4, 0, 2
-3 a * 5 +: 3, 0, 8
a b /: 6, 1, 1
2 a / b /: 9, 2, 1
@m 0 []: 3, 1, 1
@m a b / []: 9, 2, 1
@m 0 [] b /: 7, 2, 1
@m @m 0 [] []: 6, 2, 1
@m: 1, 0, 0
@m 0 0 {}: 2, 1, 0
@m @m 0 [] 0 {}: 5, 2, 0
@m a 1 {} b []: 9, 1, 1
@m 0 a {} b []: 8, 1, 1
@m a b / 1 {} b []: 13, 2, 1
m~64: 192, 64, 1
a^4095: 4096, 0, 1
#0: 1, 0, 0
#s: 1, 0, 0
#s 1 << a b + <<: 8, 1, 0
#s a b / <<: 8, 2, 0
";
