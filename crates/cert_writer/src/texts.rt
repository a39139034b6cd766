//! Bytes as text.

ghost use Rattle.std.specs.Prelude.{◌≡◌, IsUtf8, string_bytes};

use fs_model::name::Name;

/// Bytes that are UTF-8, as text.
pub fn text_of(bytes: Vec<u8>) -> String
    requires { IsUtf8 bytes.items }
    ensures { string_bytes result ≡ bytes.items }
{
    match String::from_utf8(bytes) {
        Ok(text) => text,
        Err(_) => unreachable!(),
    }
}

/// A name as text. Takes no memory.
#[tactic(auto, using(crate::proofs::Plain::name_utf8))]
pub fn name_text(name: &Name) -> &str
    ensures { result.now ≡ name.now }
{
    match str::from_utf8(name.bytes()) {
        Ok(text) => text,
        Err(_) => unreachable!(),
    }
}
