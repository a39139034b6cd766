//! Reading JSON without what no certificate has in a list or an object.

ghost use Rattle.std.specs.Prelude.{◌≡◌, ◌<◌, length, false, Some, None, Err, IfOk, OnOk};
ghost use Rattle.std.specs.Result.{result_map_both};
ghost use Rattle.json.specs.Json.{value, items, members};
ghost use Rattle.json.specs.Reads.{token_of};
ghost use Rattle.serde_json.specs.Data.{Data, Items, Members, no_items, no_members};
ghost use Rattle.serde_json.specs.Read.{of_json, of_items, of_members, converted, read as read_text};
ghost use Rattle.cert_values.specs.View.{view};
ghost use Rattle.cert_json.specs.Trim.{trim, trim_items, trim_members, short_list, short_object, below};
ghost use Rattle.cert_json.specs.Lists.{IsShort, list_of};
ghost use Rattle.cert_json.specs.Objects.{IsEmpty, object_of};
ghost use Rattle.cert_json.specs.Tokens.{data_of, data_or_fault};
ghost use Rattle.cert_json.specs.declared.level.Level.TheVariants.{File};

use crate::level::Level;
use crate::numbers::number_of;
use crate::openings::{begins_list, begins_object};
use crate::short_list::{ShortList, add_to_list, empty_list, is_settled, settle, value_of_list};
use crate::short_object::{ShortObject, add_member, close_object, empty_object, value_of_object};
use crate::skip::{skip_items, skip_members};
use cert_values::value::Value;
use json::{Invalid, Reader, Scratch, Token};
use std::alloc::{AllocError, Global};

/// Why no value is read.
#[derive(Drop)]
pub enum Fault {
    /// The text is not JSON.
    NotJson,
    /// Names were left out, of which one might have a value that is no text.
    Again,
    /// There is no memory.
    NoMemory,
}

impl From<Invalid> for Fault {
    ghost use Rattle.cert_json.specs.declared.trim.Fault.TheVariants.{NotJson};
    ghost use Rattle.std.specs.Prelude.{◌≡◌};

    ghost from_gives = { λ _ e. e ≡ NotJson };

    fn from(_invalid: Invalid) -> Fault {
        Fault::NotJson
    }
}

impl From<AllocError> for Fault {
    ghost use Rattle.cert_json.specs.declared.trim.Fault.TheVariants.{NoMemory};
    ghost use Rattle.std.specs.Prelude.{◌≡◌};

    ghost from_gives = { λ _ e. e ≡ NoMemory };

    fn from(_refused: AllocError) -> Fault {
        Fault::NoMemory
    }
}

// The value of a token that opens neither.
#[inline(always)]
fn value_of_token<'a>(token: Token<'a>) -> Result<Value<'a>, Fault>
    ensures { result_map_both view (λ e. e) result ≡ data_or_fault (data_of (token_of token.entry)) }
{
    match token {
        Token::String(text) => Ok(Value::String(text)),
        Token::Number(text) => match number_of(text) {
            Some(number) => Ok(Value::Number(number)),
            None => Err(Fault::NotJson),
        },
        Token::Bool(b) => Ok(Value::Bool(b)),
        Token::Null => Ok(Value::Null),
        Token::BeginObject
        | Token::EndObject
        | Token::BeginArray
        | Token::EndArray
        | Token::Key(_)
        | Token::Bad => Err(Fault::NotJson),
    }
}

#[cycle(read)]
#[inline(always)]
fn read<'a>(
    alloc: Global,
    reader: &mut Reader<'a>,
    depth: usize,
    level: Level,
    whole: bool,
) -> Result<Value<'a>, Fault>
    ensures ok { IfOk result
        (λ v. (d : Data) × (converted of_json (value depth reader.old) ≡ Some (d, reader.new)) × (view v ≡ trim level d)) }
    ensures shorter { OnOk result (length reader.new < length reader.old) }
    ensures again { result ≡ Err Fault.Again → whole ≡ false }
    ensures err { result ≡ Err Fault.NotJson → converted of_json (value depth reader.old) ≡ None }
{
    let token = reader.next().ok_or(Invalid)?;
    if begins_list(&token, depth) {
        let mut found = empty_list(alloc);
        let outcome = read_items(alloc, &mut found, reader, depth - 1, level.below(), whole);
        return value_of_list(found, outcome);
    }
    if begins_object(&token, depth) {
        let mut found = empty_object(alloc);
        let outcome = read_members(alloc, &mut found, reader, depth - 1, level, whole);
        return value_of_object(found, outcome);
    }
    value_of_token(token)
}

// Reads the items of a list, which stand at a level.
#[cycle(read)]
#[inline(never)]
fn read_items<'a>(
    alloc: Global,
    found: &mut ShortList<'a>,
    reader: &mut Reader<'a>,
    depth: usize,
    level: Level,
    whole: bool,
) -> Result<(), Fault>
    requires { IsShort no_items found.now }
    ensures ok { IfOk result
        (λ u. (ds : Items) × (converted of_items (items (value depth) (length reader.old) reader.old) ≡ Some (ds, reader.new))
        × (list_of found.new ≡ short_list (trim_items level ds))) }
    ensures shorter { OnOk result (length reader.new < length reader.old) }
    ensures again { result ≡ Err Fault.Again → whole ≡ false }
    ensures err { result ≡ Err Fault.NotJson → converted of_items (items (value depth) (length reader.old) reader.old) ≡ None }
{
    'items: while !reader.take_end_array() {
        let item = read(alloc, reader, depth, level, whole)?;
        add_to_list(found, item)?;
        if is_settled(found) {
            let texts = skip_items(reader, depth)?;
            settle(found, texts);
            return Ok(());
        }
    }
    Ok(())
}

// Reads the members of an object that stands at a level, and tells whether it is null. Names only get more, so after one too
// many the rest is passed over.
#[cycle(read)]
#[inline(never)]
fn read_members<'a>(
    alloc: Global,
    found: &mut ShortObject<'a>,
    reader: &mut Reader<'a>,
    depth: usize,
    level: Level,
    whole: bool,
) -> Result<bool, Fault>
    requires { IsEmpty found.now }
    ensures ok { IfOk result
        (λ is_null. (ms : Members)
        × (converted (λ es. of_members es no_members) (members (value depth) (length reader.old) reader.old)
        ≡ Some (ms, reader.new)) × (object_of found.new is_null ≡ short_object level (trim_members (below level) ms))) }
    ensures shorter { OnOk result (length reader.new < length reader.old) }
    ensures again { result ≡ Err Fault.Again → whole ≡ false }
    ensures err { result ≡ Err Fault.NotJson
        → converted (λ es. of_members es no_members) (members (value depth) (length reader.old) reader.old) ≡ None }
{
    'members: while let Some(name) = reader.next_key()? {
        let member = read(alloc, reader, depth, level.below(), whole)?;
        add_member(found, level, name, member, whole)?;
        if level.exceeds(found.members.len()) {
            skip_members(reader, depth)?;
            return Ok(true);
        }
    }
    match close_object(found, level) {
        Some(is_null) => Ok(is_null),
        None => Err(Fault::Again),
    }
}

/// The value of a text without what no certificate has in a list or an object.
///
/// `NotJson` comes only where the text is not JSON, `Again` only where names may be left out, which `whole` forbids, and
/// `NoMemory` may come at any time.
pub fn read_trimmed<'a>(
    alloc: Global,
    text: &'a str,
    scratch: &'a mut Scratch,
    whole: bool,
) -> Result<Value<'a>, Fault>
    ensures ok { IfOk result (λ v. (d : Data) × (read_text text.now ≡ Some d) × (view v ≡ trim File d)) }
    ensures err { result ≡ Err Fault.NotJson → read_text text.now ≡ None }
    ensures again { result ≡ Err Fault.Again → whole ≡ false }
{
    let mut reader = Reader::new(text, scratch)?;
    let value = read(alloc, &mut reader, 127, Level::File, whole)?;
    if reader.next().is_some() {
        return Err(Fault::NotJson);
    }
    Ok(value)
}
