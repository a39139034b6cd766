//! Texts in quotes.

ghost use Rattle.std.specs.Prelude.{◌≡◌, ◌++◌, OnOk};
ghost use Rattle.std.specs.List.{flat_map};
ghost use Rattle.show_machine_pictures.specs.Quotes.{escaped_byte, quoted_text};

use std::alloc::AllocError;

// Adds a byte of a text in quotes.
fn write_escaped(out: &mut Vec<u8>, byte: u8) -> Result<(), AllocError>
    ensures { OnOk result (out.new.items ≡ out.old.items ++ escaped_byte byte) }
{
    if byte == b'"' {
        return out.extend_from_slice(b"\\\"");
    }
    if byte == b'\\' {
        return out.extend_from_slice(b"\\\\");
    }
    if byte == b'\n' {
        return out.extend_from_slice(b"\\l");
    }
    out.push(byte)?;
    Ok(())
}

// Adds the bytes of a text in quotes.
fn write_bytes(out: &mut Vec<u8>, text: &[u8]) -> Result<(), AllocError>
    ensures { OnOk result (out.new.items ≡ out.old.items ++ flat_map escaped_byte text.now) }
{
    for byte in text {
        write_escaped(out, *byte)?;
    }
    Ok(())
}

/// Adds a text in quotes. The one refusal is out of memory.
#[tactic(auto, unfolding(crate::specs::Quotes::quoted_text))]
pub fn write_quoted(out: &mut Vec<u8>, text: &[u8]) -> Result<(), AllocError>
    ensures { OnOk result (out.new.items ≡ out.old.items ++ quoted_text text.now) }
{
    out.extend_from_slice(b"\"")?;
    write_bytes(out, text)?;
    out.extend_from_slice(b"\"")
}
