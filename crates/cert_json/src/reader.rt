//! Reading the JSON of a certificate.

ghost use Rattle.std.specs.Prelude.{◌≡◌, ◌≢◌, Some, None, Err, IfOk, IfErr};
ghost use Rattle.serde_json.specs.Data.{Data};
ghost use Rattle.serde_json.specs.Read.{read as read_text};
ghost use Rattle.cert_values.specs.View.{view};
ghost use Rattle.cert_json.specs.Trim.{trim};
ghost use Rattle.cert_json.specs.Refusals.{IsShortFileOf, IsRefusedAsShape};
ghost use Rattle.cert_json.specs.declared.level.Level.TheVariants.{File};

use crate::faults::FileError;
use crate::trim::{Fault, read_trimmed};
use cert_values::shape::{has_too_many, is_file};
use cert_values::value::Value;
use json::Scratch;
use std::alloc::Global;

/// The room that reading a file needs, which the value that is read may borrow: once the length of the file, and twice
/// where it is read again.
#[derive(Drop)]
pub struct Room {
    once: Scratch,
    again: Scratch,
}

impl Room {
    /// Room of which nothing is taken yet.
    pub fn new(alloc: Global) -> Room {
        Room {
            once: Scratch::new(alloc),
            again: Scratch::new(alloc),
        }
    }
}

// The value of a text without what no certificate has in a list or an object. Of the names whose values are no texts some are
// kept, and where that tells too little, the text is read once more and all are kept.
fn read_again<'a>(
    alloc: Global,
    text: &'a str,
    once: &'a mut Scratch,
    again: &'a mut Scratch,
) -> Result<Value<'a>, Fault>
    ensures ok { IfOk result (λ v. (d : Data) × (read_text text.now ≡ Some d) × (view v ≡ trim File d)) }
    ensures err { result ≡ Err Fault.NotJson → read_text text.now ≡ None }
    ensures settled { result ≢ Err Fault.Again }
{
    match read_trimmed(alloc, text, once, false) {
        Ok(value) => Ok(value),
        Err(Fault::Again) => read_trimmed(alloc, text, again, true),
        Err(Fault::NotJson) => Err(Fault::NotJson),
        Err(Fault::NoMemory) => Err(Fault::NoMemory),
    }
}

/// The JSON value of a certificate's bytes, in time linear in them. Its texts are borrowed from the bytes, or from the room
/// where they are written with escapes. Of the equations of a node the first 385 are kept, in byte order of their names.
///
/// `NotJson` comes exactly where the bytes are not UTF-8 text, or are not JSON as `serde_json` reads it; else `Shape`
/// exactly where the value does not have the form of a certificate; else `TooMany` exactly where there are more than
/// 4,096 nodes, or more than 64 conditions in a node. Of equal keys the last counts. `NoMemory` may come at any time.
pub fn read_file<'a>(
    alloc: Global,
    bytes: &'a [u8],
    room: &'a mut Room,
) -> Result<Value<'a>, FileError>
    ensures read { IfOk result (λ v. IsShortFileOf bytes.now (view v)) }
    ensures refused { IfErr result (λ e. IsRefusedAsShape bytes.now e) }
{
    let text = match simdutf8::compat::from_utf8(bytes) {
        Ok(text) => text,
        Err(_) => return Err(FileError::NotJson),
    };
    let value = match read_again(alloc, text, &mut room.once, &mut room.again) {
        Ok(found) => found,
        Err(Fault::NotJson) => return Err(FileError::NotJson),
        Err(Fault::NoMemory) => return Err(FileError::NoMemory),
        Err(Fault::Again) => unreachable!(),
    };
    if !is_file(&value) {
        return Err(FileError::Shape);
    }
    if has_too_many(&value) {
        return Err(FileError::TooMany);
    }
    Ok(value)
}
