//! Writing numbers under their signs.

ghost use Rattle.std.specs.Prelude.{◌≡◌, ◌++◌, OnOk, true, decimal, unsigned_abs};
ghost use Rattle.term_condition_text.specs.ConditionTexts.{integer_text, kind_text};
ghost use Rattle.term_writer.specs.Direct.{sign};
ghost use Rattle.term_writer.specs.WrittenTerms.{integer_written};

use crate::numbers::{put, put_number, put_sign};
use nf_rel::kind::Kind;
use nf_terms::stop::NoMemory;

/// Adds a relation with a space on each side. The one refusal is out of memory.
pub fn put_kind(out: &mut Vec<u8>, kind: Kind) -> Result<(), NoMemory>
    ensures { OnOk result (out.new.items ≡ out.old.items ++ kind_text kind) }
{
    match kind {
        Kind::Ge => put(out, b" >= "),
        Kind::Le => put(out, b" <= "),
        Kind::Eq => put(out, b" == "),
        Kind::Ne => put(out, b" != "),
    }
}

// A sign and digits.
fn put_signed(out: &mut Vec<u8>, number: &i128) -> Result<(), NoMemory>
    ensures { OnOk result (out.new.items ≡ out.old.items ++ (sign true number.now ++ decimal (unsigned_abs number.now))) }
{
    put_sign(out, true, number)?;
    put_number(out, number.unsigned_abs())
}

/// Adds a whole number. The one refusal is out of memory.
#[tactic(auto, using(crate::proofs::Integers::integer_same))]
pub fn put_integer(out: &mut Vec<u8>, number: &i128) -> Result<(), NoMemory>
    ensures { OnOk result (out.new.items ≡ out.old.items ++ integer_text (integer_written number.now)) }
{
    put_signed(out, number)
}
