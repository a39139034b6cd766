//! Passing over JSON of which nothing is kept.

ghost use Rattle.std.specs.Prelude.{◌≡◌, ◌<◌, ◌≤◌, ◌∷◌, ℕ, [], length, false, Some, None, IfOk, OnOk, is_ok, is_some, option_map};
ghost use Rattle.std.specs.Result.{result_ok};
ghost use Rattle.json.specs.Json.{after_end_array, value, items, members};
ghost use Rattle.json.specs.Reads.{token_of};
ghost use Rattle.serde_json.specs.Data.{Data, Items, Members};
ghost use Rattle.serde_json.specs.Events.{members_len};
ghost use Rattle.serde_json.specs.Find.{as_str};
ghost use Rattle.serde_json.specs.Read.{of_json, of_items, of_members, converted};
ghost use Rattle.cert_values.specs.Shape.{are_texts};
ghost use Rattle.cert_json.specs.Tokens.{data_of};

use crate::numbers::is_in_range;
use crate::openings::{begins_list, begins_object};
use json::{Invalid, Reader, Token};

// Whether a token closes a list.
#[inline(always)]
fn is_end(token: &Token<'_>) -> bool
    ensures { result ≡ is_some (after_end_array (token_of token.now ∷ [])) }
{
    matches!(token, Token::EndArray)
}

// Whether a token that opens nothing is a text. It refuses one that is no value.
#[inline(always)]
fn is_text(token: Token<'_>) -> Result<bool, Invalid>
    ensures { result_ok result ≡ option_map (λ d. is_some (as_str d)) (data_of (token_of token.entry)) }
{
    match token {
        Token::String(_) => Ok(true),
        Token::Bool(_) => Ok(false),
        Token::Null => Ok(false),
        Token::Number(text) => {
            if is_in_range(text) {
                Ok(false)
            } else {
                Err(Invalid)
            }
        }
        Token::BeginObject
        | Token::EndObject
        | Token::BeginArray
        | Token::EndArray
        | Token::Key(_)
        | Token::Bad => Err(Invalid),
    }
}

// Passes over the value that a token begins, and tells whether it is a text.
#[cycle(skip)]
#[inline(always)]
fn skip_from(token: Token<'_>, reader: &mut Reader<'_>, depth: usize) -> Result<bool, Invalid>
    ensures ok { IfOk result
        (λ t. (d : Data)
        × (converted of_json (value depth (token_of token.entry ∷ reader.old)) ≡ Some (d, reader.new))
        × (t ≡ is_some (as_str d))) }
    ensures shorter { OnOk result (length reader.new ≤ length reader.old) }
    ensures err { is_ok result ≡ false → converted of_json (value depth (token_of token.entry ∷ reader.old)) ≡ None }
{
    if begins_list(&token, depth) {
        skip_items(reader, depth - 1)?;
        return Ok(false);
    }
    if begins_object(&token, depth) {
        skip_members(reader, depth - 1)?;
        return Ok(false);
    }
    is_text(token)
}

/// Passes over the items that are left of a list, and tells whether all are texts. It refuses what `serde_json` does not
/// read.
#[cycle(skip)]
#[inline(never)]
pub fn skip_items(reader: &mut Reader<'_>, depth: usize) -> Result<bool, Invalid>
    ensures ok { IfOk result
        (λ t. (ds : Items)
        × ((n : ℕ) → length reader.old ≤ n → converted of_items (items (value depth) n reader.old) ≡ Some (ds, reader.new))
        × (t ≡ are_texts ds)) }
    ensures shorter { OnOk result (length reader.new < length reader.old) }
    ensures err { is_ok result ≡ false
        → (n : ℕ) → length reader.old ≤ n → converted of_items (items (value depth) n reader.old) ≡ None }
{
    let mut texts = true;
    'items: loop {
        let token = reader.next().ok_or(Invalid)?;
        if is_end(&token) {
            return Ok(texts);
        }
        let is_text = skip_from(token, reader, depth)?;
        texts = texts & is_text;
    }
}

/// Passes over the members that are left of an object. It refuses what `serde_json` does not read.
#[cycle(skip)]
#[inline(never)]
pub fn skip_members(reader: &mut Reader<'_>, depth: usize) -> Result<(), Invalid>
    ensures ok { OnOk result
        ((old : Members) (n : ℕ) → length reader.old ≤ n
        → (ms : Members) × (converted (λ es. of_members es old) (members (value depth) n reader.old) ≡ Some (ms, reader.new))
        × (members_len old ≤ members_len ms)) }
    ensures shorter { OnOk result (length reader.new < length reader.old) }
    ensures err { is_ok result ≡ false
        → (old : Members) (n : ℕ) → length reader.old ≤ n
        → converted (λ es. of_members es old) (members (value depth) n reader.old) ≡ None }
{
    'members: while let Some(_) = reader.next_key()? {
        let token = reader.next().ok_or(Invalid)?;
        skip_from(token, reader, depth)?;
    }
    Ok(())
}
