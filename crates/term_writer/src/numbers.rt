//! Writing numbers and signs.

ghost use Rattle.std.specs.Prelude.{◌≡◌, ◌++◌, decimal, OnOk};
ghost use Rattle.term_text.specs.TermTexts.{symbol_text};
ghost use Rattle.term_writer.specs.Direct.{factor, sign, separator};

use itoa::Buffer;
use nf_terms::stop::NoMemory;
use nf_terms::tree::Side;

/// Adds bytes. The one refusal is out of memory.
pub fn put(out: &mut Vec<u8>, bytes: &[u8]) -> Result<(), NoMemory>
    ensures { OnOk result (out.new.items ≡ out.old.items ++ bytes.now) }
{
    out.extend_from_slice(bytes)?;
    Ok(())
}

/// Adds the digits of a number. The one refusal is out of memory.
pub fn put_number(out: &mut Vec<u8>, number: u128) -> Result<(), NoMemory>
    ensures { OnOk result (out.new.items ≡ out.old.items ++ decimal number) }
{
    let mut buffer = Buffer::new();
    put(out, buffer.format(number).as_bytes())
}

/// Adds a coefficient before an atom, and nothing for 1. The one refusal is out of memory.
pub fn put_factor(out: &mut Vec<u8>, number: u128) -> Result<(), NoMemory>
    ensures { OnOk result (out.new.items ≡ out.old.items ++ factor number) }
{
    if number == 1 {
        return Ok(());
    }
    put_number(out, number)?;
    put(out, b"*")
}

/// Adds the sign of a monomial, the first one of a sum or a later one. The one refusal is out of memory.
pub fn put_sign(out: &mut Vec<u8>, is_first: bool, coefficient: &i128) -> Result<(), NoMemory>
    ensures { OnOk result (out.new.items ≡ out.old.items ++ sign is_first coefficient.now) }
{
    if is_first {
        if *coefficient < 0 {
            put(out, b"-")
        } else {
            Ok(())
        }
    } else if *coefficient < 0 {
        put(out, b" - ")
    } else {
        put(out, b" + ")
    }
}

/// Adds what stands before an atom, the first one of a monomial or a later one. The one refusal is out of memory.
pub fn put_separator(out: &mut Vec<u8>, is_first: bool) -> Result<(), NoMemory>
    ensures { OnOk result (out.new.items ≡ out.old.items ++ separator is_first) }
{
    if is_first { Ok(()) } else { put(out, b"*") }
}

/// Adds a side and a name. The one refusal is out of memory.
pub fn put_symbol(out: &mut Vec<u8>, side: Side, name: &[u8]) -> Result<(), NoMemory>
    ensures { OnOk result (out.new.items ≡ out.old.items ++ symbol_text side name.now) }
{
    match side {
        Side::Left => put(out, b"L.")?,
        Side::Right => put(out, b"R.")?,
    }
    put(out, name)
}
