//! Numbers, arrays and lists as text.

ghost use Rattle.std.specs.Prelude.{◌≡◌, ◌++◌, [], ◌∷◌, map, IfOk, string_bytes, codes};
ghost use Rattle.std.specs.Result.{OnOk};
ghost use Rattle.std.specs.List.{flat_map};
ghost use Rattle.std.specs.Fmt.{signed_decimal};
ghost use Rattle.fs_stores.specs.Values.{content_of};
ghost use Rattle.fs_run_text.specs.ContentTexts.{join_texts, entry_text, array_text, numbers_text, PrintsAs};

use crate::memory::NoMemory;
use fs_stores::values::Value;
use std::alloc::{AllocError, Global};

// A number in decimal.
fn number_text(alloc: Global, number: &i128) -> Result<Vec<u8>, NoMemory>
    ensures { IfOk result (λ text. text.items ≡ signed_decimal number.now) }
{
    match decimal_text(alloc, number) {
        Ok(text) => Ok(text.into_bytes()),
        Err(_) => Err(NoMemory),
    }
}

fn decimal_text(alloc: Global, number: &i128) -> Result<String, AllocError>
    ensures { IfOk result (λ text. string_bytes text ≡ signed_decimal number.now) }
{
    format!(in alloc; "{number}")
}

// Appends bytes.
pub(crate) fn append(out: &mut Vec<u8>, bytes: &[u8]) -> Result<(), NoMemory>
    ensures { OnOk result (out.new.items ≡ out.old.items ++ bytes.now) }
{
    match out.extend_from_slice(bytes) {
        Ok(()) => Ok(()),
        Err(_) => Err(NoMemory),
    }
}

pub(crate) fn push<T: Drop>(out: &mut Vec<T>, item: T) -> Result<(), NoMemory>
    ensures { OnOk result (out.new.items ≡ out.old.items ++ item ∷ []) }
{
    match out.push(item) {
        Ok(()) => Ok(()),
        Err(_) => Err(NoMemory),
    }
}

// An index and the number there.
fn entry_text(alloc: Global, entry: &(i128, i128)) -> Result<Vec<u8>, NoMemory>
    ensures { IfOk result (λ text. text.items ≡ entry_text entry.now) }
{
    let mut text = number_text(alloc, &entry.0)?;
    append(&mut text, b": ".as_slice())?;
    append(&mut text, number_text(alloc, &entry.1)?.as_slice())?;
    Ok(text)
}

fn entry_texts(alloc: Global, entries: &[(i128, i128)]) -> Result<Vec<Vec<u8>>, NoMemory>
    ensures { IfOk result (λ texts. map (λ t. t.items) texts.items ≡ map entry_text entries.now) }
{
    let mut texts = Vec::new(alloc);
    for entry in entries {
        push(&mut texts, entry_text(alloc, entry)?)?;
    }
    Ok(texts)
}

// Texts, joined by a comma and a space.
pub(crate) fn join_with_commas(alloc: Global, items: &[Vec<u8>]) -> Result<Vec<u8>, NoMemory>
    ensures { IfOk result (λ text. text.items ≡ join_texts (map (λ i. i.items) items.now)) }
{
    match items {
        [] => Ok(Vec::new(alloc)),
        [first, rest @ ..] => joined_behind(alloc, first, rest),
    }
}

fn joined_behind(alloc: Global, first: &Vec<u8>, rest: &[Vec<u8>]) -> Result<Vec<u8>, NoMemory>
    ensures { IfOk result (λ text. text.items ≡ join_texts (first.now.items ∷ map (λ i. i.items) rest.now)) }
{
    let mut text = Vec::new(alloc);
    append(&mut text, first.as_slice())?;
    append_rest(&mut text, rest)?;
    Ok(text)
}

// Appends texts, each after a comma and a space.
fn append_rest(out: &mut Vec<u8>, items: &[Vec<u8>]) -> Result<(), NoMemory>
    ensures { OnOk result
        (out.new.items ≡ out.old.items ++ flat_map (λ item. codes ", " ++ item) (map (λ i. i.items) items.now)) }
{
    for item in items {
        append(out, b", ".as_slice())?;
        append(out, item.as_slice())?;
    }
    Ok(())
}

// An array's entries between braces.
fn array_text(alloc: Global, entries: &[(i128, i128)]) -> Result<Vec<u8>, NoMemory>
    ensures { IfOk result (λ text. text.items ≡ array_text entries.now) }
{
    let texts = entry_texts(alloc, entries)?;
    let text = join_with_commas(alloc, texts.as_slice())?;
    enclose(alloc, b"{".as_slice(), text.as_slice(), b"}".as_slice())
}

// A text between two others.
fn enclose(alloc: Global, front: &[u8], text: &[u8], back: &[u8]) -> Result<Vec<u8>, NoMemory>
    ensures { IfOk result (λ whole. whole.items ≡ front.now ++ (text.now ++ back.now)) }
{
    let mut whole = Vec::new(alloc);
    append(&mut whole, front)?;
    append(&mut whole, text)?;
    append(&mut whole, back)?;
    Ok(whole)
}

fn number_texts(alloc: Global, numbers: &[i128]) -> Result<Vec<Vec<u8>>, NoMemory>
    ensures { IfOk result (λ texts. map (λ t. t.items) texts.items ≡ map signed_decimal numbers.now) }
{
    let mut texts = Vec::new(alloc);
    for number in numbers {
        push(&mut texts, number_text(alloc, number)?)?;
    }
    Ok(texts)
}

// Numbers between brackets.
fn list_text(alloc: Global, numbers: &[i128]) -> Result<Vec<u8>, NoMemory>
    ensures { IfOk result (λ text. text.items ≡ numbers_text numbers.now) }
{
    let texts = number_texts(alloc, numbers)?;
    let text = join_with_commas(alloc, texts.as_slice())?;
    enclose(alloc, b"[".as_slice(), text.as_slice(), b"]".as_slice())
}

// A value as text: a number in decimal, the entries of an array that are not 0, in increasing order of
// index, or the numbers of a list in order.
pub(crate) fn value_text(alloc: Global, value: &Value) -> Result<Vec<u8>, NoMemory>
    ensures { IfOk result (λ text. PrintsAs (content_of value.now) text.items) }
{
    match value {
        Value::Num(number) => number_text(alloc, number),
        Value::Arr(entries) => {
            let list = entries.list(alloc)?;
            array_text(alloc, list.as_slice())
        }
        Value::List(numbers) => list_text(alloc, numbers.get()),
    }
}
