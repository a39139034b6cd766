//! Declared names, and the places at which they stand first.

ghost use Rattle.std.specs.Prelude.{◌≡◌, ◌≤◌, ℕ, List, [], length, map, cond, IfOk, Some, None};
ghost use Rattle.std.specs.Option.{is_some};
ghost use Rattle.std.specs.Result.{OnOk};
ghost use Rattle.std.specs.Str.{bytes_eq};
ghost use Rattle.fs_rules.specs.MachineOfParts.{place_or_end};
ghost use Rattle.fs_rules.specs.declared.check.CheckRule.TheVariants.{TwiceNamed, TooMany};
ghost use Rattle.fs_rules.specs.Rules.{at_lines, broken_where, repeated_lines, line_past_limit};
ghost use Rattle.fs_rules.specs.FirstFault.{earliest};
ghost use Rattle.fs_rules.specs.Places.{declared_of, declared_name_list, place_in, FindsFirst, IsTableOf};

use crate::check::CheckRule;
use crate::faults::Faults;
use fs_model::name::{Name, NoMemory};
use indexmap::IndexMap;
use std::alloc::Global;
use std::marker::Model;

/// A declared name, and the line of its declaration.
#[derive(Drop)]
pub struct Declared {
    pub line: u32,
    pub name: Name,
}

/// Names in the order in which they are first declared, each with the place of its first declaration, and how many names are
/// declared, repeats among them. Contracts see the names with their places, and that number.
#[derive(Drop)]
pub struct NameTable {
    places: IndexMap<Name, usize>,
    count: usize,
}

impl Model for NameTable {
    ghost use Rattle.std.specs.Prelude.{ℕ, List};

    ghost Value = { List (List ℕ × ℕ) × ℕ };

    ghost view = { λ t. (t.places.entries, t.count) };
}

impl NameTable {
    /// The table of declared names. Each that stands a second time is noted. The one refusal is out of memory.
    pub fn of(
        alloc: Global,
        declared: &[Declared],
        faults: &mut Faults,
    ) -> Result<NameTable, NoMemory>
        ensures table { IfOk result (λ t. IsTableOf t (declared_name_list (map declared_of declared.now))) }
        ensures noted { OnOk result
            (faults.new.first ≡ earliest faults.old.first
            (at_lines TwiceNamed (repeated_lines [] (map declared_of declared.now)))) }
    {
        let places = first_places(alloc, declared, faults)?;
        Ok(NameTable {
            places,
            count: declared.len(),
        })
    }

    /// The first place of a name among those of the table, and their number where it is none of them.
    pub fn place(&self, name: &Name) -> usize
        ensures place { (names : List (List ℕ)) → IsTableOf self.now names → result ≡ place_or_end names name.now }
        ensures within { (names : List (List ℕ)) → IsTableOf self.now names → result ≤ length names }
    {
        match self.places.get(name) {
            Some(place) => *place,
            None => self.count,
        }
    }
}

// Where each name stands first. Each that stands a second time is noted.
fn first_places(
    alloc: Global,
    declared: &[Declared],
    faults: &mut Faults,
) -> Result<IndexMap<Name, usize>, NoMemory>
    ensures finds { IfOk result (λ places. FindsFirst places.entries (declared_name_list (map declared_of declared.now))) }
    ensures noted { OnOk result
        (faults.new.first ≡ earliest faults.old.first (at_lines TwiceNamed (repeated_lines [] (map declared_of declared.now)))) }
{
    let mut places = IndexMap::new(alloc);
    for (place, entry) in declared.iter().enumerate() {
        put_first(alloc, &mut places, place, entry, faults)?;
    }
    Ok(places)
}

// Puts the place of a name where it stands first, and notes it where it doesn't.
fn put_first(
    alloc: Global,
    places: &mut IndexMap<Name, usize>,
    place: usize,
    entry: &Declared,
    faults: &mut Faults,
) -> Result<(), NoMemory>
    ensures put { OnOk result
        ((n : List ℕ) → place_in places.new.entries n ≡ cond (is_some (place_in places.old.entries n))
        (place_in places.old.entries n) (cond (bytes_eq entry.now.name n) (Some place) None)) }
    ensures noted { OnOk result
        (faults.new.first ≡ earliest faults.old.first
        (broken_where (is_some (place_in places.old.entries entry.now.name)) TwiceNamed entry.now.line)) }
{
    if places.contains_key(&entry.name) {
        faults.note(CheckRule::TwiceNamed, entry.line);
        return Ok(());
    }
    let name = entry.name.try_clone(alloc)?;
    put(places, name, place)
}

// Puts the place of a name.
fn put(places: &mut IndexMap<Name, usize>, name: Name, place: usize) -> Result<(), NoMemory>
    ensures { OnOk result
        ((n : List ℕ) → place_in places.new.entries n ≡ cond (bytes_eq name n) (Some place) (place_in places.old.entries n)) }
{
    let _ = places.insert(name, place)?;
    Ok(())
}

/// Notes the first declared name that is past a limit.
pub fn note_past(declared: &[Declared], most: usize, faults: &mut Faults)
    ensures { faults.new.first ≡ earliest faults.old.first
        (at_lines TooMany (line_past_limit most (map declared_of declared.now))) }
{
    if let Some(extra) = declared.get(most) {
        faults.note(CheckRule::TooMany, extra.line);
    }
}
