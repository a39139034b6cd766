//! Tables of names.

ghost use Rattle.std.specs.Prelude.{◌≡◌, ◌<◌, ◌^◌, ◌∷◌, ℕ, List, cond, None, Some, length, map, IfOk, OnOk};
ghost use Rattle.std.specs.Option.{is_some};
ghost use Rattle.std.specs.Str.{bytes_eq};
ghost use Rattle.cert_terms.specs.NameTables.{name_number, HasFirst};

use indexmap::IndexMap;
use nf_terms::stop::NoMemory;
use std::alloc::Global;
use std::hash::{Hash, Hasher};

/// A name as a key. Its bytes are hashed as a whole, and not one by one as those of a slice are.
#[derive(Drop)]
pub struct NameKey<'a> {
    pub bytes: &'a [u8],
}

impl<'a> PartialEq for NameKey<'a> {
    ghost use Rattle.cert_terms.specs.NameKeys.{same_name, names_partly};

    ghost eq = { same_name };

    ghost laws = { names_partly };

    fn eq(&self, other: &NameKey<'a>) -> bool {
        self.bytes == other.bytes
    }
}

impl<'a> Eq for NameKey<'a> {
    ghost use Rattle.cert_terms.specs.NameKeys.{names_same};

    ghost laws = { names_same };
}

impl<'a> Hash for NameKey<'a> {
    ghost use Rattle.cert_terms.specs.NameKeys.{hashed_name, names_alike};

    ghost hash_input = { hashed_name };

    ghost respects_eq = { names_alike };

    fn hash<H: Hasher>(&self, state: &mut H) {
        state.write(self.bytes);
    }
}

/// Names that are not empty, each with the number of its first place in a list.
#[derive(Drop)]
pub struct NameTable<'a> {
    pub numbers: IndexMap<NameKey<'a>, u32>,
}

/// The number of a name; the empty name has none.
pub fn number_of(table: &NameTable<'_>, name: &[u8]) -> Option<u32>
    ensures { result ≡ name_number table.now name.now }
{
    if name.is_empty() {
        return None;
    }
    match table.numbers.get(&NameKey { bytes: name }) {
        Some(number) => Some(*number),
        None => None,
    }
}

// Puts the number of a name that stands for the first time.
fn put_first<'a>(table: &mut NameTable<'a>, name: &'a [u8], number: u32) -> Result<(), NoMemory>
    ensures { OnOk result
        ((c : ℕ) → (cs : List ℕ) → name_number table.new (c ∷ cs) ≡ cond (is_some (name_number table.old (c ∷ cs)))
        (name_number table.old (c ∷ cs)) (cond (bytes_eq name.now (c ∷ cs)) (Some number) None)) }
{
    let key = NameKey { bytes: name };
    if table.numbers.contains_key(&key) {
        return Ok(());
    }
    table.numbers.insert(key, number)?;
    Ok(())
}

/// The table of names in order; the empty one is left out. The one refusal is out of memory.
pub fn table_of<'a>(alloc: Global, names: &[&'a [u8]]) -> Result<NameTable<'a>, NoMemory>
    requires { length names.now < 2 ^ 32 }
    ensures { IfOk result (λ t. HasFirst t (map (λ n. n.now) names.now)) }
{
    let mut table = NameTable {
        numbers: IndexMap::new(alloc),
    };
    for number in 0..names.len() {
        put_first(&mut table, names[number], number as u32)?;
    }
    Ok(table)
}
